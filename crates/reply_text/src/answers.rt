//! What a line may be answered.

use crate::origin::Origin;
use kc_base::{Bytes, Errno};

/// An answer, by the number of the line that it answers. What comes of a request later has the line that
/// made the request, and its client.
#[derive(Debug, Drop)]
pub enum Answer {
    /// All went well.
    Ok {
        line: u32,
    },
    /// All went well, with these bytes.
    Value {
        line: u32,
        bytes: Bytes,
    },
    /// A transform was made, of this driver.
    Made {
        line: u32,
        driver: Bytes,
    },
    /// Refused, or a pipeline's verdict: `EINPROGRESS`, `EBUSY` or `ENOSPC`.
    Refused {
        line: u32,
        errno: Errno,
    },
    /// The line is no command.
    Malformed {
        line: u32,
    },
    /// The name came to an entry of this driver.
    Probed {
        line: u32,
        name: Bytes,
        driver: Bytes,
    },
    /// The name came to no entry.
    Unprobed {
        line: u32,
        name: Bytes,
        errno: Errno,
    },
    /// How many references an entry has, and whether it is listed.
    Refs {
        line: u32,
        count: u64,
        listed: bool,
    },
    /// An entry of the list.
    Alg {
        line: u32,
        name: Bytes,
        driver: Bytes,
        priority: u32,
        refs: u64,
    },
    /// The end of the list, of so many entries.
    Listed {
        line: u32,
        count: u64,
    },
    /// This request left its queue's backlog.
    Started {
        of: Origin,
    },
    /// This request is done, with these bytes.
    Done {
        of: Origin,
        bytes: Bytes,
    },
    /// This request failed.
    Failed {
        of: Origin,
        errno: Errno,
    },
    /// The end of a poll, after so many answers `Done` and `Failed`.
    Polled {
        line: u32,
        count: u64,
    },
    /// The end of a drain, after so many answers `Done` and `Failed`.
    Drained {
        line: u32,
        count: u64,
    },
    /// At the end of input, after so many answers `Done` and `Failed` of the transform of this label. It answers no
    /// line.
    End {
        label: Bytes,
        count: u64,
    },
}
