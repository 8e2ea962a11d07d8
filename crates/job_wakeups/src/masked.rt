//! The pads that were given a mask.

use std::array;
use std::sync::atomic::{AtomicU64, Ordering};

/// So many masked pads are told apart from the others at once.
const PADS: usize = 16;

/// There are no more workers than this.
const ALL: u64 = 16;

/// A pad that was given a mask.
#[derive(Drop)]
struct MaskedPad {
    /// Its number plus 1. 0 where none stands here.
    key: AtomicU64,
    /// So many workers, from the first one on, may take from it.
    admitted: AtomicU64,
}

impl MaskedPad {
    fn new() -> MaskedPad {
        MaskedPad {
            key: AtomicU64::new(0),
            admitted: AtomicU64::new(ALL),
        }
    }

    fn is_of(&self, key: u64) -> bool {
        self.key.load(Ordering::SeqCst) == key
    }

    fn admitted(&self) -> u64 {
        self.admitted.load(Ordering::SeqCst)
    }

    fn set(&self, key: u64, admitted: u64) {
        self.key.store(key, Ordering::SeqCst);
        self.admitted.store(admitted, Ordering::SeqCst);
    }
}

/// The open pads whose mask leaves some of 16 workers out. It is changed and asked within turns at the board alone, so
/// by one caller at a time.
#[derive(Drop)]
pub(crate) struct MaskedPads {
    pads: [MaskedPad; PADS],
    /// The fewest workers, from the first one on, that one of these admits: so a look for a pad is rare.
    fewest: AtomicU64,
}

impl MaskedPads {
    pub(crate) fn new() -> MaskedPads {
        MaskedPads {
            pads: array::from_fn(|_| MaskedPad::new()),
            fewest: AtomicU64::new(ALL),
        }
    }

    fn find(&self, key: u64) -> Option<&MaskedPad> {
        self.pads.iter().find(|pad| pad.is_of(key))
    }

    /// The pad has this mask from now on. False where there is no room for a further one.
    pub(crate) fn set(&self, pad: u64, mask: u16) -> bool {
        let admitted = u64::from(mask.trailing_ones());
        if admitted == ALL {
            self.leave(pad);
            return true;
        }
        let key = pad.wrapping_add(1);
        let place = match self.find(key) {
            Some(place) => Some(place),
            None => self.find(0),
        };
        if let Some(place) = place {
            place.set(key, admitted);
        }
        self.count();
        place.is_some()
    }

    /// The pad admits all, or is closed.
    pub(crate) fn leave(&self, pad: u64) {
        if let Some(place) = self.find(pad.wrapping_add(1)) {
            place.set(0, ALL);
            self.count();
        }
    }

    fn count(&self) {
        let mut fewest = ALL;
        for pad in self.pads.iter() {
            fewest = fewest.min(pad.admitted());
        }
        self.fewest.store(fewest, Ordering::SeqCst);
    }

    /// Whether some pad leaves out one of the workers 1 to `workers`.
    pub(crate) fn leave_out(&self, workers: u64) -> bool {
        self.fewest.load(Ordering::SeqCst) < workers
    }

    /// Whether this pad does.
    pub(crate) fn is_masked(&self, pad: u64, workers: u64) -> bool {
        if !self.leave_out(workers) {
            return false;
        }
        match self.find(pad.wrapping_add(1)) {
            Some(place) => place.admitted() < workers,
            None => false,
        }
    }
}
