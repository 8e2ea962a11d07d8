//! A chain on a board: a queue whose requests go on to a pad.

ghost use Rattle.std.specs.Prelude.{ℕ, IfOk};
ghost use Rattle.board.specs.Entries.{entries_of};
ghost use Rattle.board.specs.Legal.{MayFinish};
ghost use Rattle.board.specs.Shapes.{has_queue};
ghost use Rattle.board.specs.PipelineHistory.{IsOpenFor};

use crate::pads::{Echo, Said, new_board, saying, yes_or_no};
use crate::queues::{go, hold, offer, poll, serve, written};
use board::{BoardCore, BoardErr, Entered, Taken, Work, pipelines_stay, slips_stay};
use kc_base::Callbacks;
use std::alloc::Global;
use std::process::Abort;

/// Makes a chain of bound 2 over three lists.
fn make<W: Work>(board: &mut BoardCore<W>) -> Result<u64, BoardErr>
    ensures { IfOk result (λ pipe. IsOpenFor has_queue board.new pipe 0) }
{
    pipelines_stay::<W::Ask>();
    let pipe = board.born_chain(0, 2, 3)?;
    Ok(pipe)
}

/// Passes a request on, if one may be.
fn pass<W: Work>(board: &mut BoardCore<W>, pipe: u64) -> bool
    requires { IsOpenFor has_queue board.old pipe 0 }
    ensures { IsOpenFor has_queue board.new pipe 0 }
{
    pipelines_stay::<W::Ask>();
    board.pass_on(1)
}

/// Worker 2 takes a job, worker 3 does the next, and only then worker 2 finishes its own.
fn work_around<W: Work>(board: &mut BoardCore<W>, pipe: u64)
    requires { IsOpenFor has_queue board.old pipe 0 }
    ensures open { IsOpenFor has_queue board.new pipe 0 }
    ensures first { (p n : ℕ) (out : W.Out) → MayFinish W.meaning (entries_of p board.old) 1 n out
        → MayFinish W.meaning (entries_of p board.new) 1 n out }
{
    pipelines_stay::<W::Ask>();
    slips_stay::<W::Ask, W::Out>();
    if let Some(Taken { slip, job }) = board.take(2) {
        serve(board, 3, pipe);
        let out = job.run();
        board.finish(2, slip, out);
    }
}

/// Three workers take a job each, and finish them in the other order, the first after a poll.
fn work_backwards<W: Work>(
    board: &mut BoardCore<W>,
    pipe: u64,
    into: &mut Callbacks<W::Out>,
) -> Result<(), BoardErr>
    requires { IsOpenFor has_queue board.old pipe 0 }
    ensures { IsOpenFor has_queue board.new pipe 0 }
{
    pipelines_stay::<W::Ask>();
    let Some(Taken { slip, job }) = board.take(1) else {
        return Ok(());
    };
    work_around(board, pipe);
    let polled = poll(board, pipe, into);
    let out = job.run();
    board.finish(1, slip, out);
    polled
}

/// One step on a chain: `h` a hold, `g` a go, `p` a passing on, `!` three workers that end in the other order, `.` a
/// poll, and any other letter a request, a great one with leave to wait in the backlog.
fn chain_step(
    board: &mut BoardCore<Echo>,
    pipe: u64,
    into: &mut Callbacks<char>,
    step: char,
) -> Result<Said, BoardErr>
    requires { IsOpenFor has_queue board.old pipe 0 }
    ensures { IsOpenFor has_queue board.new pipe 0 }
{
    match step {
        'h' => {
            hold(board, pipe)?;
            Ok(Said::Yes)
        }
        'g' => {
            go(board, pipe)?;
            Ok(Said::Yes)
        }
        'p' => Ok(yes_or_no(pass(board, pipe))),
        '!' => {
            work_backwards(board, pipe, into)?;
            Ok(Said::Told(into.as_slice().len()))
        }
        '.' => {
            poll(board, pipe, into)?;
            Ok(Said::Told(into.as_slice().len()))
        }
        letter => {
            let answer = offer(board, 0, pipe, saying(letter, 1), letter < 'a')?;
            Ok(Said::Entered(answer))
        }
    }
}

/// Makes the chain of a test.
fn open_chain(rt: &impl Abort, board: &mut BoardCore<Echo>) -> u64
    ensures { IsOpenFor has_queue board.new result 0 }
{
    make(board).expect(rt, "memory")
}

/// Steps on a new chain answer as their table says; the callbacks that were handed out.
fn play(rt: &impl Abort, alloc: Global, steps: &[(char, Said)]) -> Vec<(u64, char)> {
    let mut board = new_board(rt, alloc);
    let mut into = Callbacks::new(alloc);
    let pipe = open_chain(rt, &mut board);
    for (step, want) in steps {
        let said = chain_step(&mut board, pipe, &mut into, *step);
        assert!(rt; said == Ok(*want), "{step}");
    }
    written(rt, alloc, &into)
}

// While the first job runs, `started` of the third request alone was told.
const STEPS: [(char, Said); 13] = [
    ('h', Said::Yes),
    ('a', Said::Entered(Entered::InProgress(0))),
    ('b', Said::Entered(Entered::InProgress(1))),
    ('d', Said::Entered(Entered::NoSpace)),
    ('C', Said::Entered(Entered::Busy(2))),
    ('p', Said::No),
    ('g', Said::Yes),
    ('p', Said::Yes),
    ('p', Said::Yes),
    ('p', Said::Yes),
    ('p', Said::No),
    ('!', Said::Told(1)),
    ('.', Said::Told(4)),
];

#[test]
fn a_chain_completes_in_order_what_ends_backwards(rt: HostRuntime) {
    let told = play(&rt, rt.alloc(), &STEPS);
    let want = [(2, '-'), (0, 'a'), (1, 'b'), (2, 'C')];
    assert!(rt; told.as_slice() == want.as_slice());
}
