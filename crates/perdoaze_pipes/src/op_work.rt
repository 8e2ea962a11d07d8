//! The work of a request.

ghost use Rattle.std.specs.Prelude.{◌≡◌, Some, None};
ghost use Rattle.perdoaze_calls.specs.declared.status.Status.TheVariants as Status;
ghost use Rattle.std.specs.List.{AllZip};
ghost use Rattle.perdoaze_pipes.specs.Ops.{Runs, RunsOrStays, Answers, ComesTo, DigestsBehind, direction};

use crate::op::{Op, RAN, TAKEN};
use crate::pipe_error::PipeErr;
use perdoaze_calls::{Slot, Status, Transform};
use std::alloc::Global;

/// Writes the MAC of the first `n` bytes behind them.
fn digest_behind(transform: &Transform, text: &mut [u8], n: usize, written: &mut usize) -> Status
    ensures { DigestsBehind transform.now n result text.old text.new written.new }
{
    *written = 0;
    if text.len() < n {
        return Status::NoRoom;
    }
    let (asked, behind) = text.split_at_mut(n);
    transform.digest(asked, behind, written)
}

/// Refuses a request that asks for nothing known.
fn refuse(written: &mut usize) -> Status
    ensures status { result ≡ Status.Invalid }
    ensures written { written.new ≡ 0 }
{
    *written = 0;
    Status::Invalid
}

/// Does what is asked for in the text's place.
fn answer_within(
    transform: &Transform,
    what: u32,
    iv: &[u8],
    aad: &[u8],
    text: &mut [u8],
    n: usize,
    written: &mut usize,
) -> Status
    ensures { ComesTo (direction what) transform.now iv.now aad.now n result text.old text.new written.new }
{
    match what {
        1 => transform.encrypt_within(iv, aad, text, n, written),
        2 => transform.decrypt_within(iv, aad, text, n, written),
        3 => digest_behind(transform, text, n, written),
        _ => refuse(written),
    }
}

impl Op<'_> {
    /// Writes down what it came to.
    fn answer(&mut self, transform: &Transform)
        ensures came { Answers (Some transform.now) self.old self.new }
        ensures phase { self.new.phase ≡ self.old.phase }
    {
        let mut written = 0;
        let status = answer_within(
            transform,
            self.what,
            self.iv,
            self.aad,
            self.text,
            self.len,
            &mut written,
        );
        self.status = status.code();
        self.written = written;
    }

    /// The same where there is no transform.
    fn refuse(&mut self)
        ensures came { Answers None self.old self.new }
        ensures phase { self.new.phase ≡ self.old.phase }
    {
        self.status = Status::Invalid.code();
        self.written = 0;
    }

    /// Does the work of a request that a worker has, once, under the transform in the slot. Nothing else is written
    /// than the text, `status` and `written`. No memory is taken. `Invalid` where no worker has it, or it was run.
    pub fn run(&mut self, slot: &mut Slot, alloc: Global) -> Result<(), PipeErr>
        ensures kept { slot.new.handle.value ≡ slot.old.handle.value }
        ensures came { Runs slot.old.handle.value self.old self.new result }
    {
        if self.phase != TAKEN {
            return Err(PipeErr::Invalid);
        }
        match slot.take(alloc) {
            Some(held) => {
                self.answer(&held);
                slot.fill(held);
            }
            None => self.refuse(),
        }
        self.phase = RAN;
        Ok(())
    }
}

/// Does the work of each request that a worker has. The others stay. No memory is taken.
pub fn run_each(slot: &mut Slot, alloc: Global, ops: &mut [Op<'_>])
    ensures kept { slot.new.handle.value ≡ slot.old.handle.value }
    ensures came { AllZip (RunsOrStays slot.old.handle.value) ops.old ops.new }
{
    for i in 0..ops.len() {
        let _ = ops[i].run(slot, alloc);
    }
}
