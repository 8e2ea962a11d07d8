//! What stands behind one pipeline: a pad, a queue, or a chain of both.

ghost use Rattle.std.specs.Prelude.{◌≡◌, ℕ, ◌+◌, ◌-◌, ◌<◌, ◌≤◌, ◌^◌, true, false, if◌then◌else◌, [], ◌∷◌, ◌++◌, length, take, drop, None, OnOk, MatchBool, MatchOption, ◌⊎◌};
ghost use Rattle.request_queue.specs.BoundedQueue.{number_at_bound, accepted};
ghost use Rattle.padata_core.specs.Pad.{ready, taken_of, with_taken, emptied};
ghost use Rattle.cryptd.specs.Server.{bare};
ghost use Rattle.board.specs.declared.entry.BoardEntry.TheVariants as Entry;
ghost use Rattle.board.specs.Stages.{is_queue, is_chain, MayServe, MayPass, PassesNone, IsLinked, IsApart, next_in_queue, starts_at, after_passed, with_passed, is_pad, has_queue, HasRoom, IsPlaced, without_room, accepted_of, answer_of, after_entered, entered_on, with_waiting, passed, IsJoined, MayEnd, released, ended, unfinished_of, jobs_of, IsQuiet, next_of, started_by, without_first, with_job, holding, callbacks_of, collected_from};

use crate::entry::{BoardEntry, Entered};
use cryptd::Cryptd;
use kc_base::Callbacks;
use padata_core::Padata;
use request_queue::{Served, Verdict};
use std::alloc::AllocError;

/// A queue whose requests go on to a pad, under the same numbers.
#[derive(Drop)]
pub(crate) struct Chained<J, F> {
    pub(crate) server: Cryptd<J, F>,
    pub(crate) pad: Padata<J, F>,
}

/// A pad, a queue or a chain.
#[derive(Drop)]
pub(crate) enum Stage<J, F> {
    Pad(Padata<J, F>),
    Queue(Cryptd<J, F>),
    Chain(Chained<J, F>),
}

impl<J: Drop, F: Drop> Stage<J, F> {
    /// Makes room for one more request, its outcome and its callbacks, on a chain in both parts. Want of memory leaves
    /// the rest as it was.
    pub(crate) fn reserve(&mut self) -> Result<(), AllocError>
        ensures same { without_room self.new ≡ without_room self.old }
        ensures room { OnOk result (HasRoom self.new) }
        ensures placed { IsPlaced self.old → IsPlaced self.new }
    {
        match self {
            Stage::Pad(pad) => pad.reserve(1),
            Stage::Queue(server) => server.reserve(1),
            Stage::Chain(chain) => {
                chain.server.reserve(1)?;
                let Some(places) = chain.server.waiting().checked_add(1) else {
                    return Err(AllocError);
                };
                chain.pad.reserve(places)
            }
        }
    }

    /// A queue or chain that has room for one answers a request, and takes it in where it accepts it.
    pub(crate) fn enqueue(&mut self, job: J, backlog: bool) -> Entered
        requires server { has_queue self.old ≡ true }
        requires room { HasRoom self.old }
        requires few { accepted_of self.old < 2 ^ 63 }
        ensures answer { result ≡ answer_of self.old backlog }
        ensures entered { without_room self.new ≡ without_room (after_entered self.old job result) }
        ensures placed { IsPlaced self.new }
    {
        match self {
            Stage::Pad(_) => unreachable!(),
            Stage::Queue(server) => enter(server, job, backlog),
            Stage::Chain(chain) => enter(&mut chain.server, job, backlog),
        }
    }

    /// Records the outcome of a job that runs. On a chain what is then ready is told.
    pub(crate) fn finish(&mut self, number: u64, out: F)
        requires { MayEnd self.old number }
        ensures { self.new ≡ ended self.old number out }
    {
        match self {
            Stage::Pad(pad) => pad.finish(number, out),
            Stage::Queue(server) => server.done(number, out),
            Stage::Chain(chain) => {
                chain.pad.finish(number, out);
                pass_back(&mut chain.server, &mut chain.pad);
            }
        }
    }

    /// Takes a job into a pad that has room for one, and gives it the next number.
    pub(crate) fn submit(&mut self, job: J) -> u64
        requires pad { is_pad self.old ≡ true }
        requires room { HasRoom self.old }
        requires few { accepted_of self.old < 2 ^ 63 }
        ensures number { result ≡ accepted_of self.old }
        ensures submitted { without_room self.new ≡ without_room (with_job self.old job) }
    {
        match self {
            Stage::Pad(pad) => pad.submit(job),
            Stage::Queue(_) => unreachable!(),
            Stage::Chain(_) => unreachable!(),
        }
    }

    /// Hands out the first job that is ready to be run, with its number, and with the number that has left the backlog
    /// by that.
    pub(crate) fn take(&mut self) -> Option<Served<J>>
        requires { IsApart self.old }
        ensures { MatchOption result
            (IsQuiet self.old × (self.new ≡ self.old))
            (λ s. (s.number ≡ next_of self.old) × (s.started ≡ started_by self.old)
            × (jobs_of self.old ≡ s.item ∷ jobs_of self.new) × (self.new ≡ without_first self.old (jobs_of self.new))) }
    {
        match self {
            Stage::Pad(pad) => first_of(pad),
            Stage::Queue(server) => server.serve(),
            Stage::Chain(chain) => first_of(&mut chain.pad),
        }
    }

    /// Whether a job may be taken.
    pub(crate) fn may_serve(&self) -> bool
        ensures { MatchBool result (MayServe self.now) (IsQuiet self.now) }
    {
        match self {
            Stage::Pad(pad) => pad.has_waiting(),
            Stage::Queue(server) => server.may_serve(),
            Stage::Chain(chain) => chain.pad.has_waiting(),
        }
    }

    /// Whether a chain's queue may pass a request on.
    pub(crate) fn may_pass(&self) -> bool
        ensures { MatchBool result (MayPass self.now) (PassesNone self.now) }
    {
        match self {
            Stage::Pad(_) => false,
            Stage::Queue(_) => false,
            Stage::Chain(chain) => chain.server.may_serve(),
        }
    }

    /// The first request of a chain's queue goes on to its pad, in the place that was kept for it there: its number,
    /// and the number that has left the backlog by that.
    pub(crate) fn pass_on(&mut self) -> Option<(u64, Option<u64>)>
        requires placed { IsPlaced self.old }
        requires few { accepted_of self.old ≤ 2 ^ 63 }
        requires linked { IsLinked self.old }
        requires apart { IsApart self.old }
        ensures { MatchOption result
            (PassesNone self.old × (self.new ≡ self.old))
            (λ r. (r.0 ≡ next_in_queue self.old) × (r.1 ≡ starts_at self.old) × (self.new ≡ after_passed self.old)) }
    {
        match self {
            Stage::Pad(_) => None,
            Stage::Queue(_) => None,
            Stage::Chain(chain) => pass_on(&mut chain.server, &mut chain.pad),
        }
    }

    /// Everybody may take a queue's jobs.
    pub(crate) fn is_queue(&self) -> bool
        ensures { result ≡ is_queue self.now }
    {
        match self {
            Stage::Pad(_) => false,
            Stage::Queue(_) => true,
            Stage::Chain(_) => false,
        }
    }

    /// Whether requests go on from its queue to a pad.
    pub(crate) fn is_chain(&self) -> bool
        ensures { result ≡ is_chain self.now }
    {
        match self {
            Stage::Pad(_) | Stage::Queue(_) => false,
            Stage::Chain(_) => true,
        }
    }

    /// The entry by which a number is taken: on a queue a `Deq`, otherwise a `Take`.
    pub(crate) fn take_entry<A>(
        &self,
        caller: u32,
        pipe: u64,
        number: u64,
        started: Option<u64>,
    ) -> BoardEntry<A>
        ensures { result ≡ (if is_queue self.now then Entry.Deq caller pipe number started else Entry.Take caller pipe number) }
    {
        match self {
            Stage::Pad(_) | Stage::Chain(_) => BoardEntry::Take {
                caller,
                pipe,
                number,
            },
            Stage::Queue(_) => BoardEntry::Deq {
                caller,
                pipe,
                number,
                started,
            },
        }
    }

    /// The entry by which a number is finished: on a queue a `Done`, otherwise a `Finish`.
    pub(crate) fn finish_entry<A>(&self, caller: u32, pipe: u64, number: u64) -> BoardEntry<A>
        ensures { result ≡ (if is_queue self.now then Entry.Done caller pipe number else Entry.Finish caller pipe number) }
    {
        match self {
            Stage::Pad(_) | Stage::Chain(_) => BoardEntry::Finish {
                caller,
                pipe,
                number,
            },
            Stage::Queue(_) => BoardEntry::Done {
                caller,
                pipe,
                number,
            },
        }
    }

    /// Holds a queue or chain, or lets it go.
    pub(crate) fn set_held(&mut self, held: bool)
        requires { has_queue self.old ≡ true }
        ensures { self.new ≡ holding self.old held }
    {
        match self {
            Stage::Pad(_) => unreachable!(),
            Stage::Queue(server) => mark_held(server, held),
            Stage::Chain(chain) => mark_held(&mut chain.server, held),
        }
    }

    /// Whether each accepted request is finished.
    pub(crate) fn is_done(&self) -> bool
        ensures { MatchBool result (unfinished_of self.now ≡ 0) (0 < unfinished_of self.now) }
    {
        match self {
            Stage::Pad(pad) => pad.unfinished() == 0,
            Stage::Queue(server) => server.is_idle(),
            Stage::Chain(chain) => chain.server.waiting() == 0 && chain.pad.unfinished() == 0,
        }
    }

    /// For how many callbacks a collect needs room.
    pub(crate) fn uncollected(&self) -> usize
        ensures { length (callbacks_of self.now) ≤ result }
    {
        match self {
            Stage::Pad(pad) => pad.finished(),
            Stage::Queue(server) => server.pending(),
            Stage::Chain(chain) => chain.server.pending(),
        }
    }

    /// Hands out what was told and not collected, into a list that has room for it.
    pub(crate) fn collect(&mut self, into: &mut Callbacks<F>)
        requires { length (callbacks_of self.old) ≤ into.old.spare }
        ensures handed { into.new.list ≡ into.old.list ++ callbacks_of self.old }
        ensures emptied { self.new ≡ collected_from self.old }
    {
        match self {
            Stage::Pad(pad) => pad.collect(into),
            Stage::Queue(server) => server.collect(into),
            Stage::Chain(chain) => chain.server.collect(into),
        }
    }
}

/// Hands out the first job of a pad.
fn first_of<J: Drop, F: Drop>(pad: &mut Padata<J, F>) -> Option<Served<J>>
    ensures { MatchOption result
        ((pad.old.waiting ≡ []) × (pad.new ≡ pad.old))
        (λ s. (s.number ≡ taken_of pad.old) × (s.started ≡ None)
        × (pad.old.waiting ≡ s.item ∷ pad.new.waiting) × (pad.new ≡ with_taken pad.old pad.new.waiting)) }
{
    let (number, item) = pad.take()?;
    Some(Served {
        number,
        item,
        started: None,
    })
}

/// Holds a queue, or lets it go.
fn mark_held<J: Drop, F: Drop>(server: &mut Cryptd<J, F>, held: bool)
    ensures { server.new ≡ record server.old { held = held } }
{
    if held {
        server.hold();
    } else {
        server.go();
    }
}

/// A queue that has room for one answers a request.
fn enter<J: Drop, F: Drop>(server: &mut Cryptd<J, F>, job: J, backlog: bool) -> Entered
    requires room { 1 ≤ server.old.spare }
    requires few { accepted server.old.queue < 2 ^ 63 }
    ensures answer { result ≡ entered_on server.old backlog }
    ensures entered { bare server.new ≡ bare (with_waiting server.old job result) }
{
    let number = server.accepted();
    match server.enqueue(number, job, backlog) {
        Verdict::InProgress => Entered::InProgress(number),
        Verdict::Busy => Entered::Busy(number),
        Verdict::NoSpace(_) => Entered::NoSpace,
    }
}

/// The first request of a chain's queue goes on to its pad: its number, and the number that has left the backlog by
/// that.
fn pass_on<J: Drop, F: Drop>(
    server: &mut Cryptd<J, F>,
    pad: &mut Padata<J, F>,
) -> Option<(u64, Option<u64>)>
    requires placed { length server.old.queue.waiting ≤ pad.old.spare }
    requires few { accepted server.old.queue ≤ 2 ^ 63 }
    requires joined { IsJoined server.old pad.old }
    requires apart { server.old.busy ≡ false }
    ensures { MatchOption result
        (((server.old.held ≡ true) ⊎ (server.old.queue.waiting ≡ [])) × (server.new ≡ server.old) × (pad.new ≡ pad.old))
        (λ r. (r.0 ≡ server.old.queue.served) × (r.1 ≡ number_at_bound server.old.queue)
        × (server.new ≡ passed server.old (drop 1 server.old.queue.waiting))
        × (pad.new ≡ with_passed pad.old (take 1 server.old.queue.waiting))) }
{
    let served = server.pass_on()?;
    let _ = pad.submit(served.item);
    Some((served.number, served.started))
}

/// What is ready on a chain's pad is told by its queue.
fn pass_back<J: Drop, F: Drop>(server: &mut Cryptd<J, F>, pad: &mut Padata<J, F>)
    requires { IsJoined server.old pad.old }
    ensures pad { pad.new ≡ emptied pad.old }
    ensures server { server.new ≡ released server.old pad.old }
    ensures joined { IsJoined server.new pad.new }
    ensures rest { ready pad.new.outcomes ≡ [] }
{
    while let Some((number, out)) = pad.collect_next() {
        server.release(number, out);
    }
}
