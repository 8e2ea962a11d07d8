//! A peer that sends a line only once it has the answers to those before.

ghost use Rattle.std.specs.Prelude.{None};

use crate::tests::{ANSWER, LINE, run_line};
use crew::NoGate;
use kc_base::{ReadAnswer, Sink, SinkError, Source, WriteAnswer};
use std::sync::atomic::{AtomicUsize, Ordering};

/// What the peer sends: a line a read. A read fails where the answers to the lines before haven't reached the peer.
#[derive(Drop)]
struct Lines<'a> {
    left: u32,
    owed: usize,
    reached: &'a AtomicUsize,
    faults: u64,
}

/// Where the answers go. They reach the peer when they are flushed.
#[derive(Drop)]
struct Answers<'a> {
    kept: usize,
    reached: &'a AtomicUsize,
}

impl<'a> Source for Lines<'a> {
    ghost left = { λ _. None };

    ghost faults = { λ s. s.faults };

    fn read(&mut self, buf: &mut [u8]) -> ReadAnswer {
        if self.reached.load(Ordering::SeqCst) < self.owed {
            self.faults = self.faults.saturating_add(1);
            return ReadAnswer::Failed;
        }
        let count = LINE.len().min(buf.len());
        if self.left == 0 || count == 0 {
            return ReadAnswer::Ended;
        }
        self.left -= 1;
        self.owed = self.owed.saturating_add(ANSWER.len());
        buf[..count].copy_from_slice(&LINE.as_bytes()[..count]);
        ReadAnswer::Got(count)
    }
}

impl<'a> Sink for Answers<'a> {
    ghost held = { λ _. None };

    ghost faults = { λ _. 0 };

    fn write(&mut self, piece: &[u8]) -> WriteAnswer {
        self.kept = self.kept.saturating_add(piece.len());
        WriteAnswer::Took(piece.len())
    }

    fn flush(&mut self) -> Result<(), SinkError> {
        self.reached.fetch_add(self.kept, Ordering::SeqCst);
        self.kept = 0;
        Ok(())
    }
}

#[test]
fn each_answer_reaches_a_peer_before_more_is_read(rt: HostRuntime) {
    let reached = AtomicUsize::new(0);
    let mut src = Lines {
        left: 3,
        owed: 0,
        reached: &reached,
        faults: 0,
    };
    let mut out = Answers {
        kept: 0,
        reached: &reached,
    };
    let ended = run_line(&rt, rt.alloc(), "--workers 1", &NoGate, &mut src, &mut out);
    assert!(rt; ended.status == 0);
    assert!(rt; reached.load(Ordering::SeqCst) == 3 * ANSWER.len());
}
