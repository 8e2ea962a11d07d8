//! Traces, as they are written.

use alg_registry::Registry;
use board::{BoardEntry, BoardLog, Entered, Shape};
use reply_text::Origin;
use std::alloc::Global;
use std::process::Abort;
use std::sync::Arc;
use trace_text::{HasScriptLine, board_line, write_trace};

/// An ask that is nothing but its line and its client.
#[derive(Drop)]
struct Line(Origin);

impl HasScriptLine for Line {
    ghost origin = { λ ask. ask.0 };

    fn origin(&self) -> Origin {
        self.0
    }
}

/// What the entries below are written as.
const LINES: &str = "\
b 0 born 0 queue 2
b 0 enq 0 6 backlog EBUSY 2
b 0 enq 0 8.7 plain ENOSPC
b 16 deq 0 0 started 2
b 0 born 1 chain 2 16
b 0 mask 2 1a0f
b 0 shut
";

fn asked(rt: &impl Abort, alloc: Global, client: u32, line: u32) -> Arc<Line, Global> {
    Arc::new(alloc, Line(Origin { client, line })).expect(rt, "memory")
}

/// One entry, by its place among those lines.
fn entry_at(rt: &impl Abort, alloc: Global, place: usize) -> BoardEntry<Line> {
    match place {
        0 => BoardEntry::Born {
            caller: 0,
            pipe: 0,
            shape: Shape::Queue(2),
        },
        1 => BoardEntry::Enq {
            caller: 0,
            pipe: 0,
            ask: asked(rt, alloc, 0, 6),
            backlog: true,
            answer: Entered::Busy(2),
        },
        2 => BoardEntry::Enq {
            caller: 0,
            pipe: 0,
            ask: asked(rt, alloc, 8, 7),
            backlog: false,
            answer: Entered::NoSpace,
        },
        3 => BoardEntry::Deq {
            caller: 16,
            pipe: 0,
            number: 0,
            started: Some(2),
        },
        4 => BoardEntry::Born {
            caller: 0,
            pipe: 1,
            shape: Shape::Chain(2, 16),
        },
        5 => BoardEntry::Mask {
            caller: 0,
            pipe: 2,
            mask: 0x1a0f,
        },
        _ => BoardEntry::Shut { caller: 0 },
    }
}

/// The entry of that place is written as the line.
fn is_written(rt: &impl Abort, alloc: Global, place: usize, line: &str) {
    let written = board_line(alloc, &entry_at(rt, alloc, place)).expect(rt, "memory");
    let want = format!(in alloc; "{line}\n").expect(rt, "memory");
    assert!(rt; written.as_slice() == want.as_bytes(), "{line}");
}

#[test]
fn a_board_is_written_line_by_line(rt: HostRuntime) {
    for (place, line) in LINES.lines().enumerate() {
        is_written(&rt, rt.alloc(), place, line);
    }
}

fn look(rt: &impl Abort, registry: &mut Registry, text: &str, plain: bool) {
    registry
        .look(0, text.as_bytes(), plain)
        .expect(rt, "memory");
}

fn claim(rt: &impl Abort, registry: &mut Registry) {
    registry.claim(0, Some(0)).expect(rt, "memory");
}

fn unlist_none(registry: &mut Registry) -> bool {
    registry.unlist(0, b"aes-none").is_ok()
}

/// A registry in which a name was looked up, claimed and looked for what it asks for.
fn looked(rt: &impl Abort, alloc: Global) -> Registry {
    let mut registry = Registry::new(alloc).expect(rt, "memory");
    look(rt, &mut registry, "cbc(aes)", false);
    claim(rt, &mut registry);
    look(rt, &mut registry, "aes", true);
    assert!(rt; !unlist_none(&mut registry));
    registry
}

/// What it writes.
const LOOKED: &str = "\
r 0 look cbc(aes) any began 0
r 0 claim 0
r 0 look aes plain found 0
r 0 unlist aes-none ENOENT
";

#[test]
fn a_look_is_written(rt: HostRuntime) {
    let registry = looked(&rt, rt.alloc());
    let board = BoardLog::empty(rt.alloc());
    let text = write_trace(rt.alloc(), registry.history(), &board).expect(&rt, "memory");
    assert!(rt; text.as_slice() == LOOKED.as_bytes());
}
