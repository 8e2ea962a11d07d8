//! What a line may say.

use crate::texts::Texts;
use kc_base::Bytes;
use sg_walk::Segs;

/// A command, with its arguments. Hexadecimal digits are decoded, each part of a text into a segment of its own: one
/// part, or 2 to 16 of at least one byte each. A label has 1 to 32 letters, digits, `-` or `_`; a name and a driver are
/// any token; a number has 1 to 9 decimal digits, a mask four hexadecimal ones.
#[derive(Debug, Drop)]
pub enum Command {
    /// `aes KEY BLOCK`: the block sealed by AES under the key.
    Aes {
        key: Bytes,
        block: Bytes,
    },
    /// `register DRIVER NUM`: the driver enlisted at this priority.
    Register {
        driver: Bytes,
        priority: u32,
    },
    /// `unregister DRIVER`
    Unregister {
        driver: Bytes,
    },
    /// `probe NAME ..`: 1 to 16 names, looked up and built.
    Probe {
        names: Texts,
    },
    /// `alloc T NAME [NUM]`: a transform of this name, whose queue takes so many requests.
    Alloc {
        label: Bytes,
        name: Bytes,
        length: Option<u32>,
    },
    /// `key T HEX`
    Key {
        label: Bytes,
        key: Bytes,
    },
    /// `authsize T NUM`: tags of so many bytes.
    Authsize {
        label: Bytes,
        size: u32,
    },
    /// `enc T IV AAD TEXT [backlog]`
    Enc {
        label: Bytes,
        iv: Bytes,
        aad: Bytes,
        text: Segs,
        backlog: bool,
    },
    /// `dec T IV AAD TEXT [backlog]`
    Dec {
        label: Bytes,
        iv: Bytes,
        aad: Bytes,
        text: Segs,
        backlog: bool,
    },
    /// `mac T TEXT [backlog]`
    Mac {
        label: Bytes,
        text: Segs,
        backlog: bool,
    },
    /// `bulk T SIZE SEED`: so many bytes drawn from the seed, sealed in chunks.
    Bulk {
        label: Bytes,
        size: u32,
        seed: u32,
    },
    /// `mask T MASK`: from now on the workers whose bits are set may take from the transform's pad, bit i for worker i
    /// + 1.
    Mask {
        label: Bytes,
        mask: u16,
    },
    /// `hold T`: until `go T` no request of the queue is begun, and none is taken out of the chain's line.
    Hold {
        label: Bytes,
    },
    /// `go T`
    Go {
        label: Bytes,
    },
    /// `poll T`: the callbacks that have come so far.
    Poll {
        label: Bytes,
    },
    /// `drain T`: all callbacks, once every request is done.
    Drain {
        label: Bytes,
    },
    /// `free T`
    Free {
        label: Bytes,
    },
    /// `refs DRIVER`
    Refs {
        driver: Bytes,
    },
    /// `list`
    List,
}

/// What a line says.
#[derive(Debug, Drop)]
pub enum Line {
    /// A comment, or no token at all. It has no answer.
    Nothing,
    /// No command: a wrong word or argument, a byte that isn't printed ASCII, or more than 65,536 bytes before the line
    /// feed.
    Malformed,
    /// A command.
    Cmd(Command),
}
