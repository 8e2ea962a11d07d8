//! The word that counts the jobs that came.

ghost use Rattle.std.specs.Prelude.{◌≤◌};

use crossbeam_utils::CachePadded;
use std::sync::atomic::{AtomicU64, Ordering};

/// The low half of the word counts the unnoticed, the high half all that came.
const HALF: u64 = 1 << 32;

/// What one more job adds to both halves.
const ONE_JOB: u64 = HALF + 1;

/// How many jobs came, and how many of these no worker has noticed. Some may have been taken all the same. Both are one
/// word: so who read it earlier finds out whether a job came since, even where as many are unnoticed as then.
#[derive(Drop)]
pub(crate) struct Counted {
    word: CachePadded<AtomicU64>,
}

/// The word as it was read before a turn. After the turn it serves for one exchange, which changes the word only where
/// it is still this.
#[derive(Drop)]
pub struct Seen {
    word: u64,
}

impl Seen {
    fn unnoticed(&self) -> u64
        ensures { result ≤ self.now.word }
    {
        self.word % HALF
    }
}

impl Counted {
    pub(crate) fn new() -> Counted {
        Counted {
            word: CachePadded::new(AtomicU64::new(0)),
        }
    }

    /// `Count`: one more job came. Answers how many were unnoticed before.
    pub(crate) fn count(&self) -> u64 {
        self.word.fetch_add(ONE_JOB, Ordering::SeqCst) % HALF
    }

    /// The word as it is.
    pub(crate) fn seen(&self) -> Seen {
        Seen {
            word: self.word.load(Ordering::SeqCst),
        }
    }

    /// How many jobs came that no worker has noticed.
    pub(crate) fn unnoticed(&self) -> u64 {
        self.seen().unnoticed()
    }

    /// Takes so many from the unnoticed, where the word is still the one that was seen.
    fn lower(&self, seen: u64, by: u64) -> bool
        requires { by ≤ seen }
    {
        self.word
            .compare_exchange(seen, seen - by, Ordering::SeqCst, Ordering::SeqCst)
            .is_ok()
    }

    /// `Forget`: none of those that were seen is unnoticed any more.
    pub(crate) fn forget(&self, seen: Seen) {
        let unnoticed = seen.unnoticed();
        if unnoticed > 0 {
            let _ = self.lower(seen.word, unnoticed);
        }
    }

    /// `Notice_taken`: one of those that were seen is unnoticed no more. False where there was none, or the word has
    /// changed.
    pub(crate) fn notice_seen(&self, seen: Seen) -> bool {
        let unnoticed = seen.unnoticed();
        unnoticed > 0 && self.lower(seen.word, 1)
    }
}
