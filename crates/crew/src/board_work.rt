//! The work of one thread on a board behind its lock.

ghost use Rattle.std.specs.Prelude.{◌≡◌, ◌++◌, true, length, IfSome, MatchBool, MatchResult};
ghost use Rattle.turn_lock.specs.Passes.{knows};
ghost use Rattle.board.specs.declared.board_core.BoardErr.TheVariants as BoardErr;
ghost use Rattle.board.specs.Entries.{entries_of};
ghost use Rattle.board.specs.Legal.{MayManage, IsOpen, is_shut};
ghost use Rattle.shared_board.specs.Passes.{IsPassOn};
ghost use Rattle.crew.specs.BoardWork.{HasTaken, FinishesFirst, WorksSome, FindsNone, Worked, Drained};

use crate::gate::Gate;
use board::{BoardErr, Taken, Work, others_leave, pipelines_stay};
use kc_base::Callbacks;
use shared_board::{BoardPass, Drowsy, Look, SharedBoard};
use std::sync::Wait;

/// So many jobs a caller does at most before it looks for something else.
const IN_A_ROW: u32 = 64;

/// Runs a job that the pass took, finishes it, and takes the next at the same turn, where there is one for this caller
/// and the board isn't to be shut. No memory is taken.
fn run_and_take<W: Work, G: Gate, R: Wait>(
    rt: &R,
    board: &SharedBoard<W>,
    pass: BoardPass<W>,
    gate: &G,
    taken: Taken<W>,
) -> (BoardPass<W>, Option<Taken<W>>)
    requires lock { IsPassOn board.now pass }
    requires took { HasTaken W.meaning (knows pass) taken.slip.pipe taken.slip.number (W.asked taken.job) }
    ensures lock { IsPassOn board.now result.0 }
    ensures finished { FinishesFirst (knows pass) taken.slip.pipe taken.slip.number (knows result.0) }
    ensures took { IfSome result.1 (λ next. HasTaken W.meaning (knows result.0) next.slip.pipe next.slip.number (W.asked next.job)) }
{
    pipelines_stay::<W::Ask>();
    let Taken { slip, job } = taken;
    gate.inside();
    let out = job.run();
    if board.may_be_shut() {
        return (board.finish(rt, pass, slip, out), None);
    }
    board.finish_and_take(rt, pass, slip, out)
}

/// Runs a job that the pass took and finishes it. No memory is taken.
fn run_and_finish<W: Work, G: Gate, R: Wait>(
    rt: &R,
    board: &SharedBoard<W>,
    pass: BoardPass<W>,
    gate: &G,
    taken: Taken<W>,
) -> BoardPass<W>
    requires lock { IsPassOn board.now pass }
    requires took { HasTaken W.meaning (knows pass) taken.slip.pipe taken.slip.number (W.asked taken.job) }
    ensures lock { IsPassOn board.now result }
    ensures finished { FinishesFirst (knows pass) taken.slip.pipe taken.slip.number (knows result) }
{
    let Taken { slip, job } = taken;
    gate.inside();
    let out = job.run();
    board.finish(rt, pass, slip, out)
}

/// Runs the job that the pass took, if it took one, and of those that it can take when it finishes one at most so many.
/// True where it left off at so many: then it finished the last without a look for the next. No memory is taken.
fn run_on<W: Work, G: Gate, R: Wait>(
    rt: &R,
    board: &SharedBoard<W>,
    pass: BoardPass<W>,
    gate: &G,
    taken: Option<Taken<W>>,
) -> (BoardPass<W>, bool)
    requires lock { IsPassOn board.now pass }
    requires took { IfSome taken (λ next. HasTaken W.meaning (knows pass) next.slip.pipe next.slip.number (W.asked next.job)) }
    ensures lock { IsPassOn board.now result.0 }
    ensures worked { Worked (knows pass) (knows result.0) }
{
    pipelines_stay::<W::Ask>();
    let mut mine = pass;
    let mut next = taken;
    for _ in 0..IN_A_ROW {
        let Some(job) = next else {
            return (mine, false);
        };
        let (worked, found) = run_and_take(rt, board, mine, gate, job);
        mine = worked;
        next = found;
    }
    match next {
        Some(job) => (run_and_finish(rt, board, mine, gate, job), true),
        None => (mine, false),
    }
}

/// Takes a job, runs it and finishes it, and goes on with those that are to be had at the turn at which it finishes
/// one, some sixty at most. Where there was none for this caller, it passes a request of a chain on. False exactly
/// where at the first turn there was no such job, and at the second no such request. No memory is taken.
pub fn work_some<W: Work, G: Gate, R: Wait>(
    rt: &R,
    board: &SharedBoard<W>,
    pass: BoardPass<W>,
    gate: &G,
) -> (BoardPass<W>, bool)
    requires { IsPassOn board.now pass }
    ensures lock { IsPassOn board.now result.0 }
    ensures some { MatchBool result.1 (WorksSome (knows pass) (knows result.0)) (FindsNone (knows pass) (knows result.0)) }
    ensures worked { Worked (knows pass) (knows result.0) }
{
    let (pass, found, _, _) = work_by(rt, board, pass, gate, Look::new());
    (pass, found)
}

/// The same by a look that is due. Where it found something, a wait that was announced is over before a job runs, and
/// else its caller may sleep. It answers also whether it left off with no look for the next job.
fn work_by<'a, W: Work, G: Gate, R: Wait>(
    rt: &R,
    board: &SharedBoard<W>,
    pass: BoardPass<W>,
    gate: &G,
    look: Look<'a>,
) -> (BoardPass<W>, bool, bool, Option<Drowsy<'a>>)
    requires { IsPassOn board.now pass }
    ensures lock { IsPassOn board.now result.0 }
    ensures some { MatchBool result.1 (WorksSome (knows pass) (knows result.0)) (FindsNone (knows pass) (knows result.0)) }
    ensures worked { Worked (knows pass) (knows result.0) }
{
    pipelines_stay::<W::Ask>();
    let (pass, taken, passed, drowsy) = board.take_or_pass_on(rt, pass, look);
    match taken {
        Some(job) => {
            drop(drowsy);
            let (pass, next) = run_and_take(rt, board, pass, gate, job);
            let (pass, more) = run_on(rt, board, pass, gate, next);
            (pass, true, more, None)
        }
        None => (pass, passed, passed, drowsy),
    }
}

/// Works some, and passes a request of a chain on also where it did jobs, so that a steady load of these doesn't keep
/// chains waiting. Answers whether it found anything, and whether it has to look again. Where it found nothing after it
/// had announced a wait, it may sleep.
pub(crate) fn work_in_turn<'a, W: Work, G: Gate, R: Wait>(
    rt: &R,
    board: &SharedBoard<W>,
    pass: BoardPass<W>,
    gate: &G,
    look: Look<'a>,
) -> (BoardPass<W>, bool, bool, Option<Drowsy<'a>>)
    requires { IsPassOn board.now pass }
    ensures lock { IsPassOn board.now result.0 }
    ensures worked { Worked (knows pass) (knows result.0) }
{
    pipelines_stay::<W::Ask>();
    let (pass, found, more, drowsy) = work_by(rt, board, pass, gate, look);
    if !found || !board.may_have_chains() {
        return (pass, found, more, drowsy);
    }
    let (pass, passed) = board.pass_on(rt, pass);
    (pass, true, more || passed, None)
}

/// Does one job after another, and passes requests on, until there is none to be had or the board may be shut. It
/// begins with the look that is due. No memory is taken.
fn work_while<W: Work, G: Gate, R: Wait>(
    rt: &R,
    board: &SharedBoard<W>,
    pass: BoardPass<W>,
    gate: &G,
    look: Look<'_>,
) -> BoardPass<W>
    requires { IsPassOn board.now pass }
    ensures lock { IsPassOn board.now result }
    ensures worked { Worked (knows pass) (knows result) }
{
    let mut mine = pass;
    let mut next = look;
    for _ in rt.forever() {
        let (worked, found, _, _) = work_by(rt, board, mine, gate, next);
        if !found || board.may_be_shut() {
            return worked;
        }
        mine = worked;
        next = Look::new();
    }
    unreachable!()
}

/// Works until each request of the pipeline is finished, and hands out what no call handed out before. A caller that
/// finds nothing to do sleeps until another has finished a job of the pipeline or passed a request on. The caller made
/// the pipeline, which isn't closed. On a queue or chain that is held while a request waits it never returns, since
/// only its maker may let it go. Only want of memory refuses, and hands out nothing.
pub fn drain<W: Work, G: Gate, R: Wait>(
    rt: &R,
    board: &SharedBoard<W>,
    pass: BoardPass<W>,
    pipe: u64,
    into: &mut Callbacks<W::Out>,
    gate: &G,
) -> (BoardPass<W>, Result<(), BoardErr>)
    requires lock { IsPassOn board.now pass }
    requires caller { MayManage (entries_of pipe (knows pass).seen) (knows pass).number }
    requires pipe { IsOpen (entries_of pipe (knows pass).seen) }
    ensures lock { IsPassOn board.now result.0 }
    ensures drained { MatchResult result.1
        (λ _. Drained W.meaning pipe (knows pass) (knows result.0) into.old.list into.new.list)
        (λ e. (e ≡ BoardErr.Memory) × (into.new.list ≡ into.old.list) × Worked (knows pass) (knows result.0)) }
{
    others_leave::<W::Ask, W::Out>();
    let mut mine = pass;
    let mut look = Look::new();
    for _ in rt.forever() {
        let worked = work_while(rt, board, mine, gate, look);
        let wait_token = board.prepare_wait_for_end(pipe);
        let (drained, answer) = board.try_drain(rt, worked, pipe, into);
        match answer {
            Ok(true) => return (drained, Ok(())),
            Ok(false) => {}
            Err(error) => return (drained, Err(error)),
        }
        let (tried, _, _, drowsy) = work_by(rt, board, drained, gate, wait_token.look());
        mine = tried;
        look = sleep(rt, drowsy);
    }
    unreachable!()
}

/// Sleeps, where its caller may, until something has happened since it announced a wait. Then a look is due.
pub(crate) fn sleep<'a, R: Wait>(rt: &R, drowsy: Option<Drowsy<'a>>) -> Look<'a> {
    match drowsy {
        Some(drowsy) => drowsy.sleep(rt),
        None => Look::new(),
    }
}
