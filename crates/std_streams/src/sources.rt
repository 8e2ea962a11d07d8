//! A reader as a source.

ghost use Rattle.std.specs.Prelude.{◌≡◌};

use kc_base::{ReadAnswer, Source};
use std::io::Read;

/// A reader whose errors are counted. It tells what the reader tells: standard input tells nothing.
#[derive(Drop)]
pub struct StdSource<R> {
    inner: R,
    faults: u64,
}

impl<R: Read> StdSource<R> {
    /// The reader as a source, with no error so far.
    pub fn new(inner: R) -> StdSource<R>
        ensures { result ≡ record { inner = inner; faults = 0 } }
    {
        StdSource { inner, faults: 0 }
    }
}

impl<R: Read> Source for StdSource<R> {
    ghost left = { λ s. R.remaining s.inner };

    ghost faults = { λ s. s.faults };

    fn read(&mut self, buf: &mut [u8]) -> ReadAnswer {
        match self.inner.read(buf) {
            Ok(0) => ReadAnswer::Ended,
            Ok(count) => ReadAnswer::Got(count),
            Err(_) => {
                self.faults = self.faults.saturating_add(1);
                ReadAnswer::Failed
            }
        }
    }
}
