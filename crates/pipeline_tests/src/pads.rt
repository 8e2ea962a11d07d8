//! A pad on a board.

ghost use Rattle.std.specs.Prelude.{◌≡◌, ◌≢◌, ℕ, [], IfOk};
ghost use Rattle.board.specs.Entries.{entries_of};
ghost use Rattle.board.specs.Legal.{IsNoWorker, MayFinish};
ghost use Rattle.board.specs.Shapes.{is_pad};
ghost use Rattle.board.specs.PipelineHistory.{IsOpenFor};

use board::{BoardCore, BoardErr, BoardLog, Entered, Taken, Work, pipelines_stay, slips_stay};
use kc_base::{Callback, Callbacks};
use std::alloc::{AllocError, Global};
use std::process::Abort;
use std::sync::Arc;

/// What is asked: a letter to be said again, for so many bytes of the allowance.
#[derive(Debug, Drop)]
pub(crate) struct Letter {
    letter: char,
    bytes: u64,
}

/// A job that says its letter again.
#[derive(Drop)]
pub(crate) struct Echo {
    letter: char,
    bytes: u64,
}

impl Work for Echo {
    type Ask = Letter;

    type Out = char;

    ghost asked = { λ job. record { letter = job.letter; bytes = job.bytes } };

    ghost meaning = { λ ask. ask.letter };

    ghost weight = { λ ask. ask.bytes };

    fn ask(&self, alloc: Global) -> Result<Arc<Letter, Global>, AllocError> {
        let letter = Letter {
            letter: self.letter,
            bytes: self.bytes,
        };
        Ok(Arc::new(alloc, letter)?)
    }

    fn size(&self) -> u64 {
        self.bytes
    }

    fn run(self) -> char {
        self.letter
    }
}

pub(crate) fn saying(letter: char, bytes: u64) -> Echo {
    Echo { letter, bytes }
}

/// Makes a pad.
fn make<W: Work>(board: &mut BoardCore<W>, caller: u32) -> Result<u64, BoardErr>
    requires { IsNoWorker caller }
    ensures { IfOk result (λ pipe. IsOpenFor is_pad board.new pipe caller) }
{
    pipelines_stay::<W::Ask>();
    let pipe = board.born_pad(caller, 2)?;
    Ok(pipe)
}

/// Submits a job to a pad of the caller's own.
fn submit<W: Work>(
    board: &mut BoardCore<W>,
    caller: u32,
    pipe: u64,
    job: W,
) -> Result<u64, BoardErr>
    requires { IsOpenFor is_pad board.old pipe caller }
    ensures { IsOpenFor is_pad board.new pipe caller }
{
    pipelines_stay::<W::Ask>();
    let number = board.submit(caller, pipe, job)?;
    Ok(number)
}

/// Takes a job, runs it and finishes it, if there is one. The jobs that others took stay theirs.
fn work<W: Work>(board: &mut BoardCore<W>, worker: u32, pipe: u64) -> bool
    requires { IsOpenFor is_pad board.old pipe 0 }
    ensures open { IsOpenFor is_pad board.new pipe 0 }
    ensures others { (other p n : ℕ) (out : W.Out) → worker ≢ other → MayFinish W.meaning (entries_of p board.old) other n out
        → MayFinish W.meaning (entries_of p board.new) other n out }
{
    pipelines_stay::<W::Ask>();
    slips_stay::<W::Ask, W::Out>();
    match board.take(worker) {
        Some(Taken { slip, job }) => {
            let out = job.run();
            board.finish(worker, slip, out);
            true
        }
        None => false,
    }
}

/// Hands out what is done, where all is. The jobs that workers took stay theirs.
fn drain<W: Work>(
    board: &mut BoardCore<W>,
    pipe: u64,
    into: &mut Callbacks<W::Out>,
) -> Result<bool, BoardErr>
    requires { IsOpenFor is_pad board.old pipe 0 }
    ensures open { IsOpenFor is_pad board.new pipe 0 }
    ensures others { (other p n : ℕ) (out : W.Out) → 0 ≢ other → MayFinish W.meaning (entries_of p board.old) other n out
        → MayFinish W.meaning (entries_of p board.new) other n out }
{
    pipelines_stay::<W::Ask>();
    slips_stay::<W::Ask, W::Out>();
    board.try_drain(0, pipe, into)
}

/// Hands out what is done up to the first request that isn't.
fn poll<W: Work>(
    board: &mut BoardCore<W>,
    pipe: u64,
    into: &mut Callbacks<W::Out>,
) -> Result<(), BoardErr>
    requires { IsOpenFor is_pad board.old pipe 0 }
    ensures { IsOpenFor is_pad board.new pipe 0 }
{
    pipelines_stay::<W::Ask>();
    board.poll(0, pipe, into)
}

/// Two workers take a job each, and the second finishes first. Answers whether the pad was drained before the first had
/// finished.
fn second_first<W: Work>(
    board: &mut BoardCore<W>,
    pipe: u64,
    into: &mut Callbacks<W::Out>,
) -> Result<bool, BoardErr>
    requires { IsOpenFor is_pad board.old pipe 0 }
    ensures { IsOpenFor is_pad board.new pipe 0 }
{
    pipelines_stay::<W::Ask>();
    let Some(first) = board.take(1) else {
        return Ok(true);
    };
    work(board, 2, pipe);
    let early = drain(board, pipe, into);
    let Taken { slip, job } = first;
    let out = job.run();
    board.finish(1, slip, out);
    early
}

/// The completions of a list: numbers with letters.
fn letters(rt: &impl Abort, alloc: Global, callbacks: &Callbacks<char>) -> Vec<(u64, char)> {
    let mut found = Vec::new(alloc);
    for callback in callbacks.as_slice() {
        if let Callback::Done(number, letter) = callback {
            found.push((*number, *letter)).expect(rt, "memory");
        }
    }
    found
}

/// What a step of a table answers.
#[derive(Clone, Copy, PartialEq, Eq)]
pub(crate) enum Said {
    Number(u64),
    Entered(Entered),
    Yes,
    No,
    /// How many callbacks were handed out so far.
    Told(usize),
}

pub(crate) fn yes_or_no(yes: bool) -> Said {
    if yes { Said::Yes } else { Said::No }
}

/// One step on a pad: a digit is a worker that does a job, `!` two that end in the other order, `?` a drain, `.` a
/// poll, and any other letter a request.
fn pad_step(
    board: &mut BoardCore<Echo>,
    pipe: u64,
    into: &mut Callbacks<char>,
    step: char,
) -> Result<Said, BoardErr>
    requires { IsOpenFor is_pad board.old pipe 0 }
    ensures { IsOpenFor is_pad board.new pipe 0 }
{
    match step {
        '1' => Ok(yes_or_no(work(board, 1, pipe))),
        '!' => Ok(yes_or_no(second_first(board, pipe, into)?)),
        '?' => Ok(yes_or_no(drain(board, pipe, into)?)),
        '.' => {
            poll(board, pipe, into)?;
            Ok(Said::Told(into.as_slice().len()))
        }
        letter => Ok(Said::Number(submit(board, 0, pipe, saying(letter, 1))?)),
    }
}

pub(crate) fn new_board(rt: &impl Abort, alloc: Global) -> BoardCore<Echo>
    ensures { result ≡ [] }
{
    BoardCore::new(alloc).expect(rt, "memory")
}

/// Makes the pad of a test.
fn open_pad(rt: &impl Abort, board: &mut BoardCore<Echo>, caller: u32) -> u64
    requires { IsNoWorker caller }
    ensures { IsOpenFor is_pad board.new result caller }
{
    make(board, caller).expect(rt, "memory")
}

/// Steps on a new pad answer as their table says; the completions that were handed out.
fn play(rt: &impl Abort, alloc: Global, steps: &[(char, Said)]) -> Vec<(u64, char)> {
    let mut board = new_board(rt, alloc);
    let mut into = Callbacks::new(alloc);
    let pipe = open_pad(rt, &mut board, 0);
    for (step, want) in steps {
        let said = pad_step(&mut board, pipe, &mut into, *step);
        assert!(rt; said == Ok(*want), "{step}");
    }
    letters(rt, alloc, &into)
}

const DRAINED: [(char, Said); 9] = [
    ('a', Said::Number(0)),
    ('b', Said::Number(1)),
    ('c', Said::Number(2)),
    ('!', Said::No),
    ('?', Said::No),
    ('1', Said::Yes),
    ('1', Said::No),
    ('?', Said::Yes),
    ('?', Said::Yes),
];

#[test]
fn completions_come_in_the_order_of_requests(rt: HostRuntime) {
    let said = play(&rt, rt.alloc(), &DRAINED);
    assert!(rt; said.as_slice() == [(0, 'a'), (1, 'b'), (2, 'c')].as_slice());
}

const POLLED: [(char, Said); 9] = [
    ('a', Said::Number(0)),
    ('b', Said::Number(1)),
    ('.', Said::Told(0)),
    ('1', Said::Yes),
    ('.', Said::Told(1)),
    ('1', Said::Yes),
    ('1', Said::No),
    ('.', Said::Told(2)),
    ('.', Said::Told(2)),
];

#[test]
fn a_poll_hands_out_what_is_ready(rt: HostRuntime) {
    let said = play(&rt, rt.alloc(), &POLLED);
    assert!(rt; said.as_slice() == [(0, 'a'), (1, 'b')].as_slice());
}

/// Requests of so many bytes to a pad are answered as the table says.
fn are_limited(
    board: &mut BoardCore<Echo>,
    caller: u32,
    pipe: u64,
    table: &[(u64, Result<u64, BoardErr>)],
) -> bool
    requires { IsOpenFor is_pad board.old pipe caller }
{
    for (bytes, want) in table {
        if submit(board, caller, pipe, saying('a', *bytes)) != *want {
            return false;
        }
    }
    true
}

// 2^26 bytes together.
const SUBMITTED: [(u64, Result<u64, BoardErr>); 6] = [
    (67_108_865, Err(BoardErr::TooBig)),
    (u64::MAX, Err(BoardErr::TooBig)),
    (67_108_861, Ok(0)),
    (4, Err(BoardErr::TooBig)),
    (3, Ok(1)),
    (1, Err(BoardErr::TooBig)),
];

/// A caller's requests to a pad of its own are answered as that table says.
fn is_limited(rt: &impl Abort, board: &mut BoardCore<Echo>, caller: u32)
    requires { IsNoWorker caller }
{
    let pipe = open_pad(rt, board, caller);
    assert!(rt; are_limited(board, caller, pipe, &SUBMITTED), "{caller}");
}

#[test]
fn each_caller_has_bytes_of_its_own(rt: HostRuntime) {
    let mut board = new_board(&rt, rt.alloc());
    is_limited(&rt, &mut board, 0);
    is_limited(&rt, &mut board, 17);
}

fn wanted_number(number: u64) -> Result<u64, BoardErr> {
    if number < 1_048_576 {
        Ok(number)
    } else {
        Err(BoardErr::TooBig)
    }
}

#[test]
fn each_caller_has_1048576_requests(rt: HostRuntime) {
    let mut board = new_board(&rt, rt.alloc());
    let pipe = open_pad(&rt, &mut board, 0);
    for number in 0..1_048_577u64 {
        let found = submit(&mut board, 0, pipe, saying('a', 0));
        assert!(rt; found == wanted_number(number));
    }
}

#[test]
fn a_board_is_shut_once_its_pads_are_closed(rt: HostRuntime) {
    let mut board = new_board(&rt, rt.alloc());
    let pad = board.born_pad(0, 2).expect(&rt, "memory");
    board.close(0, pad);
    board.shut(0);
    assert!(rt; board.is_shut(0));
    assert!(rt; board.finish_all().entries().len() == 3);
}

#[test]
fn nothing_happened_on_an_empty_board(rt: HostRuntime) {
    let none: BoardLog<Letter> = BoardLog::empty(rt.alloc());
    assert!(rt; none.entries().is_empty());
}
