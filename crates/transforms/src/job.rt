//! Jobs: requests with all the memory that they need.

ghost use Rattle.std.specs.Prelude.{◌≡◌, ◌≤◌, ◌⊎◌, [], length, vec_capacity, true, false, MatchResult};
ghost use Rattle.std.specs.Arc.{arc_value};
ghost use Rattle.transforms.specs.Finish.{finished_value};
ghost use Rattle.transforms.specs.AskValue.{ask_takes, ask_value, ask_room, IsFit};

use crate::ask::Ask;
use crate::request::Finished;
use crate::tfm_err::TfmErr;
use std::alloc::Global;
use std::sync::Arc;

/// A request that was taken, and the room for its answer.
#[derive(Drop)]
pub struct Job {
    pub ask: Arc<Ask>,
    buffer: Vec<u8>,
    ghost taken: { ask_takes (arc_value ask) ≡ true },
    ghost fit: { IsFit (arc_value ask) },
    ghost empty: { buffer.items ≡ [] },
    ghost room: { length (ask_room (arc_value ask)) ≤ vec_capacity buffer },
}

impl Job {
    /// Gives the value of the ask: that of its request, by the driver of its transform. No memory is taken.
    pub fn run(self) -> Finished
        ensures { finished_value result ≡ ask_value (arc_value self.ask) }
    {
        let Job { ask, mut buffer } = self;
        let authsize = ask.authsize as usize;
        ask.keyed.fill(authsize, &ask.request, &mut buffer);
        ask.keyed.run(authsize, &ask.request, buffer)
    }

    /// The ask, which is taken, and the buffer with what the answer begins with. No memory is taken.
    pub fn into_parts(self) -> (Arc<Ask>, Vec<u8>)
        ensures ask { result.0 ≡ self.ask }
        ensures buffer { result.1.items ≡ ask_room (arc_value self.ask) }
        ensures taken { ask_takes (arc_value self.ask) ≡ true }
        ensures fit { IsFit (arc_value self.ask) }
    {
        let Job { ask, mut buffer } = self;
        ask.keyed
            .fill(ask.authsize as usize, &ask.request, &mut buffer);
        (ask, buffer)
    }
}

/// Takes a request, and all the memory that its job will ever need. The ask's tag size is one that the plan takes, or 0
/// where it has no tag; its associated bytes and its text have fewer than 2^32 bytes each. Unless memory ran out
/// (`Memory`), `Inval` exactly where the direction isn't one of the plan's kind, the IV has a wrong length, associated
/// bytes stand on a plan that has no tag, a decryption is shorter than its tag, or under CCM byte 0 of the IV isn't 1
/// to 7, there are 65,280 associated bytes or more, or 65,536 bytes of text without the tag or more.
pub fn prepare(alloc: Global, ask: Arc<Ask>) -> Result<Job, TfmErr>
    requires { IsFit (arc_value ask) }
    ensures { MatchResult result
        (λ job. (job.ask ≡ ask) × (ask_takes (arc_value ask) ≡ true))
        (λ e. (e ≡ TfmErr.Memory) ⊎ ((e ≡ TfmErr.Inval) × (ask_takes (arc_value ask) ≡ false))) }
{
    if !ask.keyed.takes(ask.authsize as usize, &ask.request) {
        return Err(TfmErr::Inval);
    }
    let buffer = ask.keyed.room(alloc, ask.authsize as usize, &ask.request)?;
    Ok(Job { ask, buffer })
}
