//! A writer as a sink.

ghost use Rattle.std.specs.Prelude.{◌≡◌};

use kc_base::{Sink, SinkError, WriteAnswer};
use std::io::Write;

/// A writer whose errors are counted. A write that takes no byte is one. It tells what the writer tells, and keeps back
/// what the writer keeps back, as a `BufWriter` does.
#[derive(Drop)]
pub struct StdSink<W> {
    inner: W,
    faults: u64,
}

impl<W: Write> StdSink<W> {
    /// The writer as a sink, with no error so far.
    pub fn new(inner: W) -> StdSink<W>
        ensures { result ≡ record { inner = inner; faults = 0 } }
    {
        StdSink { inner, faults: 0 }
    }

    /// The writer, with all that was written.
    pub fn into_inner(self) -> W
        ensures { result ≡ self.inner }
    {
        self.inner
    }
}

impl<W: Write> Sink for StdSink<W> {
    ghost held = { λ s. W.contents s.inner };

    ghost faults = { λ s. s.faults };

    fn write(&mut self, piece: &[u8]) -> WriteAnswer {
        match self.inner.write(piece) {
            Ok(count) if count > 0 => WriteAnswer::Took(count),
            _ => {
                self.faults = self.faults.saturating_add(1);
                WriteAnswer::Failed
            }
        }
    }

    fn flush(&mut self) -> Result<(), SinkError> {
        if self.inner.flush().is_err() {
            self.faults = self.faults.saturating_add(1);
            return Err(SinkError::Failed);
        }
        Ok(())
    }
}
