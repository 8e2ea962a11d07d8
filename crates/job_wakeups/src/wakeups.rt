//! The wake-ups, and those who wait for them.

use crate::counted::{Counted, Seen};
use crate::masked::MaskedPads;
use crossbeam_utils::sync::{EventCount, Key};
use crossbeam_utils::{Backoff, CachePadded};
use std::sync::Wait;
use std::sync::atomic::{AtomicBool, AtomicU64, Ordering};
use std::time::Duration;

/// How often a worker that stays awake looks for a job that came: some 50 microseconds. From the eighth time on it
/// leaves the processor to others in between.
const SPINS: u32 = 100;

/// The callers 1 to so many are workers.
const WORKERS: u32 = 16;

/// A worker that gave up staying awake. It can only announce a wait (`prepare_wait_for_job`): a value that is let go is
/// refused. So whoever jobs were left to while it stayed awake looks once more before it sleeps.
pub struct Tired {
    awake: bool,
}

/// What staying awake came to.
pub enum SpinResult {
    /// A job came, and nobody else may have been woken for it: the worker looks at the board.
    JobCame,
    /// None came.
    Tired(Tired),
}

/// A wait that is announced. Whoever announced it looks at the board once more, and waits only if there is nothing.
#[derive(Drop)]
pub struct WaitToken<'a> {
    key: Key<'a>,
}

impl<'a> WaitToken<'a> {
    /// A wait on an event count.
    pub fn on(event: &'a EventCount) -> WaitToken<'a> {
        WaitToken {
            key: event.prepare_wait(),
        }
    }

    /// Sleeps until something has happened since the wait was announced.
    pub fn wait<R: Wait>(self, rt: &R) {
        let WaitToken { key } = self;
        key.wait(rt);
    }
}

/// The wake-ups of a board's workers. What each job changes has cache lines of its own, since the rest is read at each
/// turn.
#[derive(Drop)]
pub struct JobWakeups {
    /// Notified where a job may be taken.
    jobs: CachePadded<EventCount>,
    /// How many jobs came, and how many of these are unnoticed.
    counted: Counted,
    /// How many workers stay awake for a job.
    awake: CachePadded<AtomicU64>,
    /// Whether the board may be shut: a hint, for those who look before they take a turn.
    over: AtomicBool,
    /// Whether each job wakes all: some pad was made with fewer lists than there are workers, or more pads were masked
    /// at once than are told apart. Then one worker that is woken may not be one that may take the job.
    wakes_all: AtomicBool,
    masked: MaskedPads,
    /// How often all were called for something that isn't counted: who stays awake looks then too.
    called: AtomicU64,
    /// The fewest lists that a pad or a chain was made with.
    fewest_lists: AtomicU64,
    /// The highest number of a worker that found nothing.
    highest_worker: AtomicU64,
    /// Whether some queue or chain was made: then a job may be ready that was never counted, as a queue's next is once
    /// the one before it is finished.
    queues: AtomicBool,
    /// Nobody changes it or wakes who sleeps on it.
    pause: AtomicU64,
}

impl JobWakeups {
    pub fn new() -> JobWakeups {
        JobWakeups {
            jobs: CachePadded::new(EventCount::new()),
            counted: Counted::new(),
            awake: CachePadded::new(AtomicU64::new(0)),
            over: AtomicBool::new(false),
            wakes_all: AtomicBool::new(false),
            masked: MaskedPads::new(),
            called: AtomicU64::new(0),
            fewest_lists: AtomicU64::new(u64::from(WORKERS)),
            highest_worker: AtomicU64::new(0),
            queues: AtomicBool::new(false),
            pause: AtomicU64::new(0),
        }
    }

    /// A job came, or something else for which a worker has to look. It wakes a worker that sleeps, where fewer stay
    /// awake than are unnoticed. (`Count` or `Call`, then `Leave` or `Notify`.)
    pub fn notify_job(&self) {
        let before = self.counted.count();
        if self.wakes_all.load(Ordering::SeqCst) {
            self.jobs.notify_all();
        } else if before >= self.awake.load(Ordering::SeqCst) {
            self.jobs.notify_one();
        }
    }

    /// A job of a pad came, which was masked or not as it was put there. Who stays awake may not be one that may take a
    /// masked pad's job: so that one isn't counted, and all look.
    pub fn notify_job_of(&self, masked: bool) {
        if masked {
            self.notify_workers();
        } else {
            self.notify_job();
        }
    }

    /// All look at the board, who sleep at once and who stay awake soon.
    pub fn notify_workers(&self) {
        self.called.fetch_add(1, Ordering::SeqCst);
        self.jobs.notify_all();
    }

    /// A caller that looked for a job took one, of a masked pad or not. A masked pad's was never counted: so a worker
    /// that looked since it noticed another, or was woken for it, calls one in its place.
    pub fn notify_taken(&self, caller: u32, masked: bool) {
        if masked && is_worker(caller) {
            self.notify_job();
        } else {
            self.notify_next();
        }
    }

    /// A job was taken, or finished with no look for the next. Where there are queues another may be ready for which no
    /// call notifies, and it wakes a worker that sleeps, unless some stay awake: each of these looks at the board by a
    /// turn before it sleeps, and comes here again where it takes a job. So two that became ready are not left to one
    /// worker for longer than it stays awake. It counts nothing, since more often than not there is none. (`Leave_next`
    /// or `Notify_next`.)
    pub fn notify_next(&self) {
        if self.queues.load(Ordering::SeqCst) && self.awake.load(Ordering::SeqCst) == 0 {
            self.jobs.notify_one();
        }
    }

    /// A queue or a chain is made.
    pub fn note_queue(&self) {
        self.queues.store(true, Ordering::SeqCst);
    }

    /// A pad or a chain is made, from which the workers 1 to `lists` may take. Beside a worker of a higher number each
    /// job wakes all from then on.
    pub fn note_lists(&self, lists: u32) {
        self.fewest_lists
            .fetch_min(u64::from(lists), Ordering::SeqCst);
        self.notify_if_few();
    }

    /// Within a turn: the pad has this mask from now on. `notify_workers` comes after the turn.
    pub fn note_mask(&self, pad: u64, mask: u16) {
        if !self.masked.set(pad, mask) {
            self.wakes_all.store(true, Ordering::SeqCst);
        }
    }

    /// Within a turn: the pad is closed.
    pub fn note_close(&self, pad: u64) {
        self.masked.leave(pad);
    }

    /// Within a turn, after a job was put into the pad or taken from it: whether its mask leaves some worker out.
    pub fn is_masked(&self, pad: u64) -> bool {
        self.masked
            .is_masked(pad, self.highest_worker.load(Ordering::SeqCst))
    }

    /// A worker found nothing, and may sleep or stay awake soon. All look once where its number is the highest so far
    /// and a pad's mask leaves it out, maybe alone: a job that came just before may be left to it. A pad that is masked
    /// later calls all itself.
    fn note_worker(&self, worker: u64) {
        if self.highest_worker.load(Ordering::SeqCst) < worker {
            self.highest_worker.fetch_max(worker, Ordering::SeqCst);
            self.notify_if_few();
            if self.masked.leave_out(worker) {
                self.notify_workers();
            }
        }
    }

    /// Some worker may not take from some pad: those who sleep look at the board, and each job wakes all. Both words
    /// are changed before they are compared, so of two that change one each the later finds it so.
    fn notify_if_few(&self) {
        let lists = self.fewest_lists.load(Ordering::SeqCst);
        let is_few = lists < self.highest_worker.load(Ordering::SeqCst);
        if is_few && !self.wakes_all.load(Ordering::SeqCst) {
            self.wakes_all.store(true, Ordering::SeqCst);
            self.jobs.notify_all();
        }
    }

    /// The counted word, to be read before a turn.
    pub fn seen(&self) -> Seen {
        self.counted.seen()
    }

    /// A worker found no job at a turn, so those that were unnoticed before it are taken. If one came meanwhile,
    /// nothing is forgotten. Only a worker forgets (the callers 1 to 16): another finds none for itself, where some may
    /// be left to a worker that stays awake. What is counted though it was taken does no harm, since the next worker
    /// that finds nothing forgets it. (`Forget` or `Keep`.)
    pub fn forget(&self, caller: u32, seen: Seen) {
        if is_worker(caller) {
            self.note_worker(u64::from(caller));
            self.counted.forget(seen);
        }
    }

    /// A job was taken at the turn at which another was finished, of a masked pad or not: it is noticed, where it was
    /// counted and none came since before that turn. (`Notice_taken` or `Run_on`.)
    pub fn notice_taken(&self, seen: Seen, masked: bool) {
        if !masked {
            let _ = self.counted.notice_seen(seen);
        }
    }

    /// Notices a job, if one is unnoticed.
    fn notice(&self) -> bool {
        self.counted.notice_seen(self.seen())
    }

    /// Whether a worker that did a job may find another, which it has then noticed. Who gets true looks at the board.
    /// (`Notice_between`, `Look_anyway` or `Notice_none`.)
    pub fn may_have_job(&self) -> bool {
        let is_notified_for_each = !self.queues.load(Ordering::SeqCst)
            && !self.wakes_all.load(Ordering::SeqCst);
        !is_notified_for_each || self.notice()
    }

    /// Notices a job that comes within a while, unless the board may be shut or all are called first.
    /// (`Notice_while_awake`.)
    fn notice_soon(&self) -> bool {
        let called = self.called.load(Ordering::SeqCst);
        let backoff = Backoff::new();
        for _ in 0..SPINS {
            if self.is_over() || self.called.load(Ordering::SeqCst) != called {
                return false;
            }
            if self.notice() {
                return true;
            }
            backoff.snooze();
        }
        false
    }

    /// Whether more are unnoticed than workers stay awake. The order of the two reads matters.
    fn is_left_over(&self) -> bool {
        let unnoticed = self.counted.unnoticed();
        unnoticed > self.awake.load(Ordering::SeqCst)
    }

    /// Stays awake for a while, unless each job wakes all. Further ones that came meanwhile may have been left to this
    /// worker too, so it wakes another where more are unnoticed than others stay awake: who was still awake here looks
    /// later, since each looks at the board after it is no longer counted. (`Spin`, then `Rouse` and `Read_unnoticed`,
    /// or `Give_up`.)
    pub fn spin_for_job(&self) -> SpinResult {
        if self.wakes_all.load(Ordering::SeqCst) {
            return SpinResult::Tired(Tired { awake: false });
        }
        self.awake.fetch_add(1, Ordering::SeqCst);
        let came = self.notice_soon();
        self.awake.fetch_sub(1, Ordering::SeqCst);
        if !came {
            return SpinResult::Tired(Tired { awake: false });
        }
        if self.is_left_over() {
            self.jobs.notify_one();
        }
        SpinResult::JobCame
    }

    /// Announces a wait for a job to be taken, or for the end of the board. (`Announce` and `Read_epoch`.)
    pub fn prepare_wait_for_job(&self, tired: Tired) -> WaitToken<'_> {
        let Tired { awake: _ } = tired;
        WaitToken::on(&self.jobs)
    }

    /// Sleeps for a millisecond, as one does who lacks memory before it tries again.
    pub fn pause<R: Wait>(&self, rt: &R) {
        self.pause.park_timeout(rt, 0, Duration::from_millis(1));
    }

    /// The board is shut.
    pub fn notify_over(&self) {
        self.over.store(true, Ordering::SeqCst);
        self.jobs.notify_all();
    }

    /// Whether the board may be shut.
    pub fn is_over(&self) -> bool {
        self.over.load(Ordering::SeqCst)
    }
}

fn is_worker(caller: u32) -> bool {
    1 <= caller && caller <= WORKERS
}
