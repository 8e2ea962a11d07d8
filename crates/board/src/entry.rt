//! What happens on a board.

use std::alloc::Global;
use std::sync::Arc;

/// What a pipeline is.
#[derive(Clone, Copy, Debug, PartialEq, Eq)]
pub enum Shape {
    /// A pad: its jobs run in any order. It has so many reorder lists, 1 to 16.
    Pad(u32),
    /// A queue: its jobs run one at a time, in order. So many requests wait before its backlog begins, at least 1.
    Queue(u32),
    /// A chain: a queue of so many before its backlog begins, at least 1, whose requests go on to a pad within, of so
    /// many reorder lists, 1 to 16.
    Chain(u32, u32),
}

/// What a queue answers to a request, with its number where it is accepted.
#[derive(Clone, Copy, Debug, PartialEq, Eq)]
pub enum Entered {
    /// It is accepted within the queue's bound.
    InProgress(u64),
    /// It is accepted into the backlog.
    Busy(u64),
    /// It is refused.
    NoSpace,
}

/// One event of a board. The pipelines are numbered from 0 as they are made, and the requests of each from 0 as they
/// are accepted. The callers 1 to 16 are workers.
#[derive(Debug, Drop)]
pub enum BoardEntry<A> {
    /// A pipeline is made.
    Born {
        caller: u32,
        pipe: u64,
        shape: Shape,
    },
    /// A pad accepts a request.
    Submit {
        caller: u32,
        pipe: u64,
        number: u64,
        ask: Arc<A, Global>,
    },
    /// A pad's job is taken, or one on the pad within a chain, to be run.
    Take {
        caller: u32,
        pipe: u64,
        number: u64,
    },
    /// A job that was taken from a pad is done.
    Finish {
        caller: u32,
        pipe: u64,
        number: u64,
    },
    /// A queue answers a request, which has leave to wait in the backlog or not.
    Enq {
        caller: u32,
        pipe: u64,
        ask: Arc<A, Global>,
        backlog: bool,
        answer: Entered,
    },
    /// The first request leaves a queue, to be run, or goes on to the pad within a chain. By that `started` has left
    /// the backlog.
    Deq {
        caller: u32,
        pipe: u64,
        number: u64,
        started: Option<u64>,
    },
    /// A queue's job is done.
    Done {
        caller: u32,
        pipe: u64,
        number: u64,
    },
    /// From now on a queue's jobs are not run, and a chain's requests don't go on.
    Hold {
        caller: u32,
        pipe: u64,
    },
    /// A queue's jobs are run again, and a chain's requests go on again.
    Go {
        caller: u32,
        pipe: u64,
    },
    /// What a pipeline has told is handed out, up to the place `to`, counted from the pipeline's birth.
    Collect {
        caller: u32,
        pipe: u64,
        to: u64,
    },
    /// A pipeline is closed.
    Close {
        caller: u32,
        pipe: u64,
    },
    /// From now on others than its maker may submit to a pipeline.
    Share {
        caller: u32,
        pipe: u64,
    },
    /// From now on the workers whose bits are set may take a pad's jobs, besides its maker and who submits to it: bit i
    /// stands for caller i + 1.
    Mask {
        caller: u32,
        pipe: u64,
        mask: u16,
    },
    /// The board is shut.
    Shut {
        caller: u32,
    },
}
