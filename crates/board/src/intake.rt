//! How one pipeline takes requests in, and hands out what it told.

ghost use Rattle.std.specs.Prelude.{◌≡◌, ◌≢◌, ℕ, ◌+◌, ◌<◌, ◌^◌, ◌≤◌, true, ◌&&◌, ◌||◌, ◌==◌, ◌++◌, length, OnOk, OnErr};
ghost use Rattle.std.specs.Vec.{vec_len, vec_capacity};
ghost use Rattle.board.specs.Entries.{has};
ghost use Rattle.board.specs.Stages.{is_pad, has_queue, HasRoom, IsPlaced, without_room, accepted_of, answer_of, after_entered, with_job, callbacks_of, collected_from};
ghost use Rattle.board.specs.Pipelines.{IsSame, NotesCaller, is_accepted};

use crate::entry::Entered;
use crate::pipeline::Pipeline;
use kc_base::Callbacks;
use std::alloc::AllocError;

impl<J: Drop, F: Drop> Pipeline<J, F> {
    /// Makes room for one more request, and to note who submits it. Want of memory leaves the rest as it was.
    pub(crate) fn reserve(&mut self) -> Result<(), AllocError>
        ensures same { IsSame self.old self.new }
        ensures room { OnOk result (HasRoom self.new.stage) }
        ensures notes { OnOk result (vec_len self.new.submitters < vec_capacity self.new.submitters) }
        ensures placed { IsPlaced self.old.stage → IsPlaced self.new.stage }
    {
        self.submitters.reserve(1)?;
        self.stage.reserve()
    }

    /// Takes a caller's job into a pad that has room for one, and gives it the next number.
    pub(crate) fn submit(&mut self, caller: u32, job: J) -> u64
        requires pad { is_pad self.old.stage ≡ true }
        requires room { HasRoom self.old.stage }
        requires notes { vec_len self.old.submitters < vec_capacity self.old.submitters }
        requires few { accepted_of self.old.stage < 2 ^ 63 }
        ensures number { result ≡ accepted_of self.old.stage }
        ensures notes { NotesCaller self.old self.new caller true }
        ensures submitted { without_room self.new.stage ≡ without_room (with_job self.old.stage job) }
    {
        let number = self.stage.submit(job);
        note_caller(&mut self.submitters, self.maker, caller);
        number
    }

    /// A queue or chain that has room for one answers a caller's request, and takes it in where it accepts it. Who
    /// submitted to a queue isn't noted, since everybody serves it.
    pub(crate) fn enqueue(&mut self, caller: u32, job: J, backlog: bool) -> Entered
        requires server { has_queue self.old.stage ≡ true }
        requires room { HasRoom self.old.stage }
        requires notes { vec_len self.old.submitters < vec_capacity self.old.submitters }
        requires few { accepted_of self.old.stage < 2 ^ 63 }
        ensures answer { result ≡ answer_of self.old.stage backlog }
        ensures notes { NotesCaller self.old self.new caller (is_accepted result) }
        ensures entered { without_room self.new.stage ≡ without_room (after_entered self.old.stage job result) }
        ensures placed { IsPlaced self.new.stage }
    {
        let is_queue = self.stage.is_queue();
        let answer = self.stage.enqueue(job, backlog);
        if is_accepted(answer) && !is_queue {
            note_caller(&mut self.submitters, self.maker, caller);
        }
        answer
    }

    /// Hands out what was told and not collected, into a list that has room for it, and says how many callbacks were
    /// handed out since the pipeline was made.
    pub(crate) fn collect(&mut self, into: &mut Callbacks<F>) -> u64
        requires room { length (callbacks_of self.old.stage) ≤ into.old.spare }
        requires few { self.old.collected + length (callbacks_of self.old.stage) < 2 ^ 64 }
        ensures told { result ≡ self.old.collected + length (callbacks_of self.old.stage) }
        ensures handed { into.new.list ≡ into.old.list ++ callbacks_of self.old.stage }
        ensures emptied { self.new ≡ record self.old { collected = result; stage = collected_from self.old.stage } }
    {
        let before = into.as_slice().len();
        self.stage.collect(into);
        let many = into.as_slice().len() - before;
        self.collected += many as u64;
        self.collected
    }
}

/// Whether the answer accepts a request.
pub(crate) fn is_accepted(answer: Entered) -> bool
    ensures { result ≡ is_accepted answer }
{
    match answer {
        Entered::InProgress(_) | Entered::Busy(_) => true,
        Entered::NoSpace => false,
    }
}

/// Notes a caller among those who submitted, unless it made the pipeline. There is room for it.
fn note_caller(submitters: &mut Vec<u32>, maker: u32, caller: u32)
    requires { vec_len submitters.old < vec_capacity submitters.old }
    ensures { (c : ℕ) → c ≢ maker → has c submitters.new.items ≡ (has c submitters.old.items || caller == c) }
{
    if caller == maker {
        return;
    }
    if !submitters.iter().any(|noted| *noted == caller) {
        submitters.push_reserved(caller);
    }
}
