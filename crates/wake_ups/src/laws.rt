//! What holds of every run of the wake-ups, whatever its schedule.

ghost use Rattle.std.specs.Prelude.{◌≡◌, ℕ, ◌<◌, List};
ghost use Rattle.wake_ups.specs.Wakeups.{Wakeups, Step, Run, RunBy, start};
ghost use Rattle.wake_ups.specs.Queued.{Queued, QueuedStep, AllRunQueued, SomeLookComes};
ghost use Rattle.wake_ups.specs.Words.{WordsLeadOn};
ghost use Rattle.wake_ups.specs.Examples.{SameNumber, losing_steps, lost, waking_steps, woken};
ghost use Rattle.wake_ups.specs.Laws.{AllRun, EachJobHasItsLook, NobodyIsBetween};

/// After every run of any number of workers and callers: where a job waits and nobody is between two steps, each worker
/// runs a job; and at every moment at which a worker sleeps for whom no wake-up is on its way, there are at least as
/// many looks and notifications to come as jobs wait.
pub fn no_wake_up_is_lost()
    ensures all_run { (workers : ℕ) (steps : List Step) (b : Wakeups) → AllRun workers steps b }
    ensures looks { (workers : ℕ) (steps : List Step) (b : Wakeups) → EachJobHasItsLook workers steps b }
{}

/// The same on a board where a job may come to be ready that nobody counts, as a queue's next is, and each that takes
/// or finishes one notifies for the next unless some are awake: while a worker sleeps on and a job waits, a look or a
/// notification is to come.
pub fn no_wake_up_is_lost_with_queues()
    ensures all_run { (workers : ℕ) (steps : List QueuedStep) (q : Queued) → AllRunQueued workers steps q }
    ensures look { (workers : ℕ) (steps : List QueuedStep) (q : Queued) → SomeLookComes workers steps q }
{}

/// The word that counts what is unnoticed beside how many came leads on in its order, so one that was read before a
/// turn is one that a step of a turn may name.
pub fn words_lead_on()
    ensures { (b : Wakeups) (steps : List Step) (c : Wakeups) → WordsLeadOn b steps c }
{}

/// Where an exchange compares the number of the unnoticed alone, a wake-up can be lost: of two workers one runs a job
/// and one sleeps, nobody is between two steps, and a job waits.
pub fn the_number_alone_loses_one()
    ensures run { RunBy SameNumber (start 2) losing_steps lost }
    ensures still { NobodyIsBetween lost }
    ensures waits { 0 < lost.jobs }
    ensures asleep { lost.asleep ≡ 1 }
{}

/// A run in which a worker sleeps and is woken, and then runs a job while a second one waits.
pub fn a_worker_is_woken()
    ensures run { Run (start 1) waking_steps woken }
    ensures still { NobodyIsBetween woken }
    ensures waits { 0 < woken.jobs }
{}
