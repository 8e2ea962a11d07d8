//! A queue on a board.

ghost use Rattle.std.specs.Prelude.{◌≢◌, ℕ, ◌≤◌, IfOk};
ghost use Rattle.board.specs.Entries.{entries_of};
ghost use Rattle.board.specs.Legal.{IsNoWorker, MayFinish};
ghost use Rattle.board.specs.Shapes.{has_queue};
ghost use Rattle.board.specs.PipelineHistory.{IsOpenFor};

use crate::pads::{Echo, Said, new_board, saying, yes_or_no};
use board::{BoardCore, BoardErr, Entered, Taken, Work, pipelines_stay, slips_stay};
use kc_base::{Callback, Callbacks};
use std::alloc::Global;
use std::process::Abort;

/// Makes a queue.
fn make<W: Work>(board: &mut BoardCore<W>, caller: u32, max: u32) -> Result<u64, BoardErr>
    requires caller { IsNoWorker caller }
    requires max { 1 ≤ max }
    ensures { IfOk result (λ pipe. IsOpenFor has_queue board.new pipe caller) }
{
    pipelines_stay::<W::Ask>();
    let pipe = board.born_queue(caller, max)?;
    Ok(pipe)
}

/// Offers a job to a queue of the caller's own.
pub(crate) fn offer<W: Work>(
    board: &mut BoardCore<W>,
    caller: u32,
    pipe: u64,
    job: W,
    backlog: bool,
) -> Result<Entered, BoardErr>
    requires { IsOpenFor has_queue board.old pipe caller }
    ensures { IsOpenFor has_queue board.new pipe caller }
{
    pipelines_stay::<W::Ask>();
    let answer = board.enqueue(caller, pipe, job, backlog)?;
    Ok(answer)
}

/// Holds the queue.
pub(crate) fn hold<W: Work>(board: &mut BoardCore<W>, pipe: u64) -> Result<(), BoardErr>
    requires { IsOpenFor has_queue board.old pipe 0 }
    ensures { IsOpenFor has_queue board.new pipe 0 }
{
    pipelines_stay::<W::Ask>();
    board.hold(0, pipe)
}

/// Lets the queue go.
pub(crate) fn go<W: Work>(board: &mut BoardCore<W>, pipe: u64) -> Result<(), BoardErr>
    requires { IsOpenFor has_queue board.old pipe 0 }
    ensures { IsOpenFor has_queue board.new pipe 0 }
{
    pipelines_stay::<W::Ask>();
    board.go(0, pipe)
}

/// Takes a job, runs it and finishes it, if one may be taken. The jobs that others took stay theirs.
pub(crate) fn serve<W: Work>(board: &mut BoardCore<W>, worker: u32, pipe: u64) -> bool
    requires { IsOpenFor has_queue board.old pipe 0 }
    ensures open { IsOpenFor has_queue board.new pipe 0 }
    ensures others { (other p n : ℕ) (out : W.Out) → worker ≢ other → MayFinish W.meaning (entries_of p board.old) other n out
        → MayFinish W.meaning (entries_of p board.new) other n out }
{
    pipelines_stay::<W::Ask>();
    slips_stay::<W::Ask, W::Out>();
    match board.take(worker) {
        Some(Taken { slip, job }) => {
            let out = job.run();
            board.finish(worker, slip, out);
            true
        }
        None => false,
    }
}

/// Hands out what the queue told. The jobs that workers took stay theirs.
pub(crate) fn poll<W: Work>(
    board: &mut BoardCore<W>,
    pipe: u64,
    into: &mut Callbacks<W::Out>,
) -> Result<(), BoardErr>
    requires { IsOpenFor has_queue board.old pipe 0 }
    ensures open { IsOpenFor has_queue board.new pipe 0 }
    ensures others { (other p n : ℕ) (out : W.Out) → 0 ≢ other → MayFinish W.meaning (entries_of p board.old) other n out
        → MayFinish W.meaning (entries_of p board.new) other n out }
{
    pipelines_stay::<W::Ask>();
    slips_stay::<W::Ask, W::Out>();
    board.poll(0, pipe, into)
}

/// Hands out what the queue told, where all is done.
fn drain<W: Work>(
    board: &mut BoardCore<W>,
    pipe: u64,
    into: &mut Callbacks<W::Out>,
) -> Result<bool, BoardErr>
    requires { IsOpenFor has_queue board.old pipe 0 }
    ensures { IsOpenFor has_queue board.new pipe 0 }
{
    pipelines_stay::<W::Ask>();
    board.try_drain(0, pipe, into)
}

/// One worker takes a job, and another looks for one before it is finished. Answers whether the other found one.
fn serve_twice<W: Work>(board: &mut BoardCore<W>, pipe: u64) -> bool
    requires { IsOpenFor has_queue board.old pipe 0 }
    ensures { IsOpenFor has_queue board.new pipe 0 }
{
    pipelines_stay::<W::Ask>();
    let Some(first) = board.take(1) else {
        return true;
    };
    let found = serve(board, 2, pipe);
    let Taken { slip, job } = first;
    let out = job.run();
    board.finish(1, slip, out);
    found
}

/// One step on a queue: a digit is a worker that serves, `!` two that serve at once, `?` a drain, `.` a poll, `h` a
/// hold, `g` a go, a small letter else a request, and a great one a request that may wait in the backlog.
fn queue_step(
    board: &mut BoardCore<Echo>,
    pipe: u64,
    into: &mut Callbacks<char>,
    step: char,
) -> Result<Said, BoardErr>
    requires { IsOpenFor has_queue board.old pipe 0 }
    ensures { IsOpenFor has_queue board.new pipe 0 }
{
    match step {
        '1' => Ok(yes_or_no(serve(board, 1, pipe))),
        '!' => Ok(yes_or_no(serve_twice(board, pipe))),
        '?' => Ok(yes_or_no(drain(board, pipe, into)?)),
        '.' => {
            poll(board, pipe, into)?;
            Ok(Said::Told(into.as_slice().len()))
        }
        'h' => {
            hold(board, pipe)?;
            Ok(Said::Yes)
        }
        'g' => {
            go(board, pipe)?;
            Ok(Said::Yes)
        }
        letter => {
            let backlog = letter < 'a';
            let answer = offer(board, 0, pipe, saying(letter, 1), backlog)?;
            Ok(Said::Entered(answer))
        }
    }
}

/// A callback's number, and its letter or `-`.
fn pair_of(callback: &Callback<char>) -> (u64, char) {
    match callback {
        Callback::Started(number) => (*number, '-'),
        Callback::Done(number, letter) => (*number, *letter),
    }
}

pub(crate) fn written(
    rt: &impl Abort,
    alloc: Global,
    callbacks: &Callbacks<char>,
) -> Vec<(u64, char)> {
    let mut found = Vec::new(alloc);
    for callback in callbacks.as_slice() {
        found.push(pair_of(callback)).expect(rt, "memory");
    }
    found
}

/// Makes the queue of a test.
fn open_queue(rt: &impl Abort, board: &mut BoardCore<Echo>, max: u32) -> u64
    requires { 1 ≤ max }
    ensures { IsOpenFor has_queue board.new result 0 }
{
    make(board, 0, max).expect(rt, "memory")
}

/// Steps on a new queue of two answer as their table says; the callbacks that were handed out.
fn play(rt: &impl Abort, alloc: Global, steps: &[(char, Said)]) -> Vec<(u64, char)> {
    let mut board = new_board(rt, alloc);
    let mut into = Callbacks::new(alloc);
    let pipe = open_queue(rt, &mut board, 2);
    for (step, want) in steps {
        let said = queue_step(&mut board, pipe, &mut into, *step);
        assert!(rt; said == Ok(*want), "{step}");
    }
    written(rt, alloc, &into)
}

const AT_ONCE: [(char, Said); 5] = [
    ('a', Said::Entered(Entered::InProgress(0))),
    ('b', Said::Entered(Entered::InProgress(1))),
    ('!', Said::No),
    ('!', Said::No),
    ('?', Said::Yes),
];

#[test]
fn a_queue_serves_one_job_at_a_time(rt: HostRuntime) {
    let told = play(&rt, rt.alloc(), &AT_ONCE);
    assert!(rt; told.as_slice() == [(0, 'a'), (1, 'b')].as_slice());
}

const HELD: [(char, Said); 18] = [
    ('h', Said::Yes),
    ('a', Said::Entered(Entered::InProgress(0))),
    ('b', Said::Entered(Entered::InProgress(1))),
    ('C', Said::Entered(Entered::Busy(2))),
    ('d', Said::Entered(Entered::NoSpace)),
    ('1', Said::No),
    ('?', Said::No),
    ('g', Said::Yes),
    ('1', Said::Yes),
    ('.', Said::Told(2)),
    ('.', Said::Told(2)),
    ('1', Said::Yes),
    ('h', Said::Yes),
    ('1', Said::No),
    ('g', Said::Yes),
    ('1', Said::Yes),
    ('1', Said::No),
    ('?', Said::Yes),
];

#[test]
fn a_held_queue_tells_of_its_backlog_before_its_completions(rt: HostRuntime) {
    let told = play(&rt, rt.alloc(), &HELD);
    let want = [(2, '-'), (0, 'a'), (1, 'b'), (2, 'C')];
    assert!(rt; told.as_slice() == want.as_slice());
}

/// Requests of so many bytes to a queue, with and without leave to wait, are answered as the table says.
fn are_limited(
    board: &mut BoardCore<Echo>,
    pipe: u64,
    table: &[(u64, bool, Result<Entered, BoardErr>)],
) -> bool
    requires { IsOpenFor has_queue board.old pipe 0 }
{
    for (bytes, backlog, want) in table {
        if offer(board, 0, pipe, saying('a', *bytes), *backlog) != *want {
            return false;
        }
    }
    true
}

// What is refused for want of space uses nothing of the allowance.
const OFFERED: [(u64, bool, Result<Entered, BoardErr>); 8] = [
    (67_108_865, true, Err(BoardErr::TooBig)),
    (67_108_861, false, Ok(Entered::InProgress(0))),
    (4, false, Err(BoardErr::TooBig)),
    (3, false, Ok(Entered::NoSpace)),
    (3, true, Ok(Entered::Busy(1))),
    (1, true, Err(BoardErr::TooBig)),
    (0, true, Ok(Entered::Busy(2))),
    (0, false, Ok(Entered::NoSpace)),
];

#[test]
fn the_allowance_comes_before_the_verdict(rt: HostRuntime) {
    let mut board = new_board(&rt, rt.alloc());
    let queue = open_queue(&rt, &mut board, 1);
    assert!(rt; are_limited(&mut board, queue, &OFFERED));
}

/// Makes a queue with three requests of a letter, two of them in its backlog.
fn make_backlogged(board: &mut BoardCore<Echo>, letter: char) -> Result<(), BoardErr> {
    let queue = make(board, 0, 1)?;
    offer(board, 0, queue, saying(letter, 1), true)?;
    offer(board, 0, queue, saying(letter, 1), true)?;
    offer(board, 0, queue, saying(letter, 1), true)?;
    Ok(())
}

/// Takes a job, runs it and finishes it, if one may be taken: the letter that it says.
fn serve_next(board: &mut BoardCore<Echo>) -> Option<char> {
    let Taken { slip, job } = board.take(1)?;
    let letter = job.run();
    board.finish(1, slip, letter);
    Some(letter)
}

/// The letters of the jobs that a worker takes and finishes one after another.
fn served(rt: &impl Abort, alloc: Global, board: &mut BoardCore<Echo>, times: u32) -> Vec<char> {
    let mut letters = Vec::new(alloc);
    for _ in 0..times {
        let letter = serve_next(board).expect(rt, "a job");
        letters.push(letter).expect(rt, "memory");
    }
    letters
}

const NINE: [char; 9] = ['a', 'b', 'c', 'd', 'e', 'f', 'g', 'h', 'i'];

/// A board of nine backlogged queues.
fn new_nine(rt: &impl Abort, alloc: Global) -> BoardCore<Echo> {
    let mut board = new_board(rt, alloc);
    for letter in NINE {
        make_backlogged(&mut board, letter).expect(rt, "memory");
    }
    board
}

#[test]
fn nine_queues_take_turns(rt: HostRuntime) {
    let mut board = new_nine(&rt, rt.alloc());
    let letters = served(&rt, rt.alloc(), &mut board, 11);
    for queue in NINE {
        assert!(rt; letters.iter().any(|letter| *letter == queue), "{queue}");
    }
}

#[test]
fn a_new_queue_is_closed(rt: HostRuntime) {
    let mut board = new_board(&rt, rt.alloc());
    let queue = board.born_queue(0, 2).expect(&rt, "memory");
    board.close(0, queue);
    assert!(rt; board.finish_all().entries().len() == 2);
}
