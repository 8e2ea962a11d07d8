//! Where bytes come from, and where they go.
ghost use Rattle.std.specs.Prelude.{◌≡◌, ◌<◌, ◌≤◌, List, ℕ, Option, length, IsErrOf};
ghost use Rattle.std.specs.Io.KnownBytes.{Keeps};
ghost use Rattle.kc_base.specs.Streams.{IsReadCount, IsWriteCount, Reads, Writes, Rose};

use crate::transfer::SinkError;

/// What a read came to.
#[derive(Clone, Copy, Debug, PartialEq, Eq)]
pub enum ReadAnswer {
    /// So many bytes, one at least.
    Got(usize),
    /// None are left.
    Ended,
    /// It failed, and took none.
    Failed,
}

/// What a write came to.
#[derive(Clone, Copy, Debug, PartialEq, Eq)]
pub enum WriteAnswer {
    /// So many bytes were taken, one at least.
    Took(usize),
    /// It failed, and none was taken.
    Failed,
    /// Memory is wanting, and none was taken.
    NoMemory,
}

/// Where bytes come from.
pub trait Source {
    /// The bytes that are left, where they are told.
    ghost left: { Self → Option (List ℕ) };

    /// How often a read has failed. It never falls, and stands still at 2 ^ 64 - 1.
    ghost faults: { Self → ℕ };

    /// The next bytes, at the front of `buf`, which has a byte at least. What stands behind them in `buf` has no
    /// meaning. `Ended` where none are left, `Failed` where reading failed: nothing was taken then.
    fn read(&mut self, buf: &mut [u8]) -> ReadAnswer
        requires { 0 < length buf.old }
        ensures count { IsReadCount result (length buf.new) }
        ensures bytes { Reads (left self.old) (left self.new) result buf.new }
        ensures later { faults self.old ≤ faults self.new }
        ensures cause { result ≡ ReadAnswer.Failed → Rose (faults self.old) (faults self.new) };
}

/// Where bytes go.
pub trait Sink {
    /// The bytes that it holds, where they are told.
    ghost held: { Self → Option (List ℕ) };

    /// How often a write or a flush has failed. It never falls, and stands still at 2 ^ 64 - 1.
    ghost faults: { Self → ℕ };

    /// Takes a front of the piece, which has a byte at least. `Failed` where writing failed, `NoMemory` where the sink
    /// lacks memory: nothing was taken then.
    fn write(&mut self, piece: &[u8]) -> WriteAnswer
        requires { 0 < length piece.now }
        ensures count { IsWriteCount result (length piece.now) }
        ensures bytes { Writes (held self.old) (held self.new) result piece.now }
        ensures later { faults self.old ≤ faults self.new }
        ensures cause { result ≡ WriteAnswer.Failed → Rose (faults self.old) (faults self.new) };

    /// Passes on what it has taken and kept back so far. A sink that keeps nothing back has nothing to do. `Failed`
    /// where that failed, `NoMemory` where memory is wanting. What it holds stays as it is.
    fn flush(&mut self) -> Result<(), SinkError>
        ensures bytes { Keeps (held self.old) (held self.new) }
        ensures later { faults self.old ≤ faults self.new }
        ensures cause { IsErrOf result SinkError.Failed → Rose (faults self.old) (faults self.new) }
    {
        Ok(())
    }
}
