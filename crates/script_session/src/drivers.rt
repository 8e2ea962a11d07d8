//! The drivers that a script may register.

ghost use Rattle.std.specs.Prelude.{◌≡◌, IfOk};
ghost use Rattle.std.specs.List.{find};
ghost use Rattle.std.specs.Str.{bytes_eq};
ghost use Rattle.dialogues.specs.Names.{driver_spec};
ghost use Rattle.script_session.specs.BasicDrivers.{entry_of, basic_drivers};

use alg_registry::{Ids, Kind, Spec, Wrap};
use kc_base::Bytes;
use std::alloc::{AllocError, Global};

/// A driver that stands on no other entry.
#[derive(Clone, Copy)]
enum BasicDriver {
    AesGeneric,
    Sha256Generic,
    GhashGeneric,
    AesTable,
    AesLanes,
    GhashTable,
}

/// All of them.
const BASIC_DRIVERS: [BasicDriver; 6] = [
    BasicDriver::AesGeneric,
    BasicDriver::Sha256Generic,
    BasicDriver::GhashGeneric,
    BasicDriver::AesTable,
    BasicDriver::AesLanes,
    BasicDriver::GhashTable,
];

impl BasicDriver {
    /// The name of its algorithm.
    fn algorithm(self) -> &'static [u8]
        ensures { result.now ≡ (entry_of self).name }
    {
        match self {
            BasicDriver::AesGeneric | BasicDriver::AesTable | BasicDriver::AesLanes => b"aes",
            BasicDriver::Sha256Generic => b"sha256",
            BasicDriver::GhashGeneric | BasicDriver::GhashTable => b"ghash",
        }
    }

    /// Its own name.
    fn name(self) -> &'static [u8]
        ensures { result.now ≡ (entry_of self).driver }
    {
        match self {
            BasicDriver::AesGeneric => b"aes-generic",
            BasicDriver::Sha256Generic => b"sha256-generic",
            BasicDriver::GhashGeneric => b"ghash-generic",
            BasicDriver::AesTable => b"aes-table",
            BasicDriver::AesLanes => b"aes-lanes",
            BasicDriver::GhashTable => b"ghash-table",
        }
    }

    fn kind(self) -> Kind
        ensures { result ≡ (entry_of self).kind }
    {
        match self {
            BasicDriver::AesGeneric | BasicDriver::AesTable | BasicDriver::AesLanes => Kind::Cipher,
            BasicDriver::Sha256Generic => Kind::Hash,
            BasicDriver::GhashGeneric | BasicDriver::GhashTable => Kind::Ghash,
        }
    }

    /// Its entry, with a priority.
    fn entry(self, alloc: Global, priority: u32) -> Result<Spec, AllocError>
        ensures { IfOk result (λ spec. spec ≡ record (entry_of self) { priority = priority }) }
    {
        Ok(Spec {
            name: Bytes::copy_of(alloc, self.algorithm())?,
            driver: Bytes::copy_of(alloc, self.name())?,
            kind: self.kind(),
            wrap: Wrap::Plain,
            priority,
            below: Ids::new(alloc),
        })
    }
}

fn find_driver(name: &[u8]) -> Option<BasicDriver>
    ensures { result ≡ find (λ driver. bytes_eq name.now (entry_of driver).driver) basic_drivers }
{
    BASIC_DRIVERS
        .iter()
        .copied()
        .find(|driver| name == driver.name())
}

/// The driver of this name, with a priority, or none where there is no such driver.
pub fn driver_of(alloc: Global, name: &[u8], priority: u32) -> Result<Option<Spec>, AllocError>
    ensures { IfOk result (λ spec. spec ≡ driver_spec name.now priority) }
{
    match find_driver(name) {
        Some(driver) => Ok(Some(driver.entry(alloc, priority)?)),
        None => Ok(None),
    }
}
