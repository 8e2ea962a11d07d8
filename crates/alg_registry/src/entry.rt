//! What calls of the registry answer, and what they add to its history.

ghost use Rattle.std.specs.Prelude.{◌≡◌};
ghost use Rattle.alg_registry.specs.declared.entry.RegErr.TheVariants.{Memory};

use crate::ids::Ids;
use crate::spec::Spec;
use kc_base::{Bytes, Errno};
use std::alloc::{AllocError, AllocFailed};
use thiserror::Error;

/// Why a call of the registry was refused.
#[derive(Clone, Copy, Debug, PartialEq, Eq, Error)]
pub enum RegErr {
    /// The driver equals the name or the driver of a listed entry, or the name equals the driver of one.
    #[error("the name is taken")]
    Exist,
    /// No entry that counts has the driver: for `unlist` a listed one, for `refs` a held one.
    #[error("no such algorithm")]
    NoEnt,
    /// The entry isn't listed: no longer, or no entry has the id.
    #[error("the algorithm is no longer listed")]
    Again,
    /// The registry holds as many entries as it may.
    #[error("too many algorithms are held")]
    NFile,
    /// Memory ran out. The call recorded nothing.
    #[error("out of memory")]
    Memory,
}

impl From<AllocError> for RegErr {
    ghost from_gives = { λ _ e. e ≡ Memory };

    fn from(_: AllocError) -> RegErr {
        RegErr::Memory
    }
}

impl<T: Drop> From<AllocFailed<T>> for RegErr {
    ghost from_gives = { λ _ e. e ≡ Memory };

    fn from(_: AllocFailed<T>) -> RegErr {
        RegErr::Memory
    }
}

/// The answer of a look.
#[derive(Clone, Copy, Debug, PartialEq, Eq)]
pub enum Looked {
    /// The entry of this id answers to the text.
    Found(u64),
    /// A larval of this number began for the text and hasn't ended, whether it is claimed or not.
    Pending(u64),
    /// A larval of this number began for the text.
    Began(u64),
    /// Nothing answers to the text, and no `(` stands in it.
    Absent,
}

/// How the building of an instance ended.
#[derive(Clone, Copy, Debug, PartialEq, Eq)]
pub enum Ended {
    /// The instance is the new entry of this id.
    Built(u64),
    /// The entry of this id has the instance's driver already.
    Joined(u64),
    /// There is no instance, for this reason: the one that was handed in; or `EAGAIN`, where an entry on which it would
    /// stand isn't listed, `EEXIST`, where it would be confused with a listed one, `ENFILE`, where the registry holds
    /// as many as it may.
    Failed(Errno),
    /// Memory ran out, of who built it or of the registry.
    NoMemory,
}

/// The answer of an enlisting.
#[derive(Clone, Copy, Debug, PartialEq, Eq)]
pub enum Enlisted {
    /// The new entry has this id.
    Made(u64),
    /// As `RegErr::Exist`.
    Exist,
    /// As `RegErr::NFile`.
    NFile,
}

/// The answer of the end of a larval, with what the history keeps of the instance.
#[derive(Debug, Drop)]
pub enum EndAnswer {
    /// With the instance, which is the new entry of this id.
    Built(u64, Spec),
    /// With the ids on which the instance would have stood.
    Joined(u64, Ids),
    /// As `Ended::Failed`.
    Failed(Errno),
    /// As `Ended::NoMemory`.
    NoMemory,
}

/// How many references an entry has, and whether it is listed.
#[derive(Clone, Copy, Debug, PartialEq, Eq)]
pub struct RefAnswer {
    /// By callers, and by held entries that stand on it.
    pub count: u64,
    pub listed: bool,
}

/// A larval that was claimed, and its text.
#[derive(Debug, Drop)]
pub struct Claimed {
    /// Its number, in the order of their beginnings, from 0.
    pub larval: u64,
    /// The name that was looked up.
    pub text: Bytes,
}

/// One call of the registry, with its caller and its answer.
#[derive(Debug, Drop)]
pub enum RegEntry {
    /// An entry was to be enlisted.
    Enlist {
        caller: u32,
        spec: Spec,
        answer: Enlisted,
    },
    /// A name was looked up, `plain` among the entries that run no others' work alone.
    Look {
        caller: u32,
        text: Bytes,
        plain: bool,
        answer: Looked,
    },
    /// The caller builds the larval from here on.
    Claim {
        caller: u32,
        larval: u64,
    },
    /// The larval ended.
    End {
        caller: u32,
        larval: u64,
        answer: EndAnswer,
    },
    /// The caller saw that the larval had ended.
    Waited {
        caller: u32,
        larval: u64,
    },
    /// The id of the entry that was taken off the list, or `None` where no listed entry had the driver.
    Unlist {
        caller: u32,
        driver: Bytes,
        answer: Option<u64>,
    },
    /// A reference was to be taken; `ok` is false where no listed entry has the id.
    Get {
        caller: u32,
        id: u64,
        ok: bool,
    },
    /// A reference was given back.
    Put {
        caller: u32,
        id: u64,
    },
    /// The references of a driver's entry were asked for.
    Refs {
        caller: u32,
        driver: Bytes,
    },
    /// The listed entries were asked for.
    List {
        caller: u32,
    },
}
