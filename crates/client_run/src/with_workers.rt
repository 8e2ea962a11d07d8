//! All parts of an input beside workers: the first part alone, then the clients at once, and then the end of the first
//! one's input.

ghost use Rattle.std.specs.Prelude.{◌≡◌, ◌≤◌, ◌∷◌, ◌++◌, ◌||◌, ◌^◌, All, List, length, false, IfOk, IsOk, OnOk};
ghost use Rattle.std.specs.Arc.{arc_value};
ghost use Rattle.board.specs.Alone.{PeersGone};
ghost use Rattle.crew.specs.Both.{ArePassesOn, CrewedOnBoth};
ghost use Rattle.reply_text.specs.Answers.{heading};
ghost use Rattle.board.specs.Legal.{is_shut};
ghost use Rattle.script_run.specs.Runs.{AreNew};
ghost use Rattle.script_session.specs.SharedEnd.{IsJoined};
ghost use Rattle.script_text.specs.declared.commands.Line.{Line};
ghost use Rattle.script_text.specs.Script.{script_of};
ghost use Rattle.shared_board.specs.Passes.{IsPassOn};
ghost use Rattle.turn_lock.specs.Passes.{knows};
ghost use Rattle.turn_lock.specs.Turns.{fresh_pass};
ghost use Rattle.client_run.specs.WithWorkers.{printed_by, HasShutLast, HaveLeft, GaveWorkers, PutsTexts, EndsRest, AnswersRest, AnswersParts, PartsRan};
ghost use Rattle.client_run.specs.EndLaws.{PeerLaws, ShutLaws, EndLaws};
ghost use Rattle.client_run.specs.Parts.{FirstOpens};
ghost use Rattle.transforms.specs.declared.ask.Ask.{Ask};
ghost use Rattle.alg_registry.specs.declared.entry.RegEntry.{RegEntry};
ghost use Rattle.board.specs.declared.entry.BoardEntry.{BoardEntry};

use crate::client::{ClientRun, ClientText};
use crate::first::{Opened, open_first};
use crate::part::laws;
use alg_registry::{RegEntry, RegLog};
use board::{
    BoardEntry, BoardLog, histories_go_on, others_leave, shared_pipelines_stay, work_ends,
    workers_are_left,
};
use client_texts::requests_in_order;
use crew::{Gate, Passes, peers_end, run_crew, run_peers};
use recorded_calls::{Stop, shared_is_known};
use reply_text::Reply;
use script_run::first_locks;
use script_session::{Shared, end_first};
use script_text::Part;
use shared_board::{BoardPass, SharedBoard};
use shared_registry::SharedRegistry;
use std::alloc::{AllocError, Global};
use std::sync::Wait;
use std::thread::Threads;
use transforms::{Ask, Finished, Job};

/// What several scripts came to: the texts that they printed, one behind the other, and whether a line of any part is
/// malformed.
#[derive(Drop)]
pub struct Output {
    pub texts: Vec<Reply>,
    pub malformed: bool,
}

/// What the scripts of an input's parts came to, and all that happened in the registry and on the board.
#[derive(Drop)]
pub struct PartsRun {
    pub output: Result<Output, AllocError>,
    pub registry: RegLog,
    pub board: BoardLog<Ask>,
}

// what is known of passes that were split off a first one and joined into it
fn peer_laws()
    ensures registry { PeerLaws RegEntry }
    ensures board { PeerLaws (BoardEntry Ask) }
{
    peers_end::<RegEntry>();
    peers_end::<BoardEntry<Ask>>();
}

// what is known of a board that is left to workers, and shut
fn shut_laws()
    ensures { ShutLaws }
{
    workers_are_left::<Ask>();
    shared_pipelines_stay::<Ask>();
    work_ends::<Ask>();
    others_leave::<Ask, Finished>();
    histories_go_on::<Ask>();
}

// what is known at the end
fn end_laws()
    ensures { EndLaws }
{
    peer_laws();
    shut_laws();
    laws();
    requests_in_order();
}

impl Output {
    // What the first script came to.
    fn of(alloc: Global, first: ClientText) -> Result<Output, AllocError>
        ensures { IfOk result (λ now. (printed_by now ≡ first.reply.text) × (now.malformed ≡ first.malformed)) }
    {
        let ClientText { reply, malformed } = first;
        let mut texts = Vec::new(alloc);
        texts.push(reply)?;
        Ok(Output { texts, malformed })
    }

    // Adds a text at the end.
    fn put(&mut self, text: Reply) -> Result<(), AllocError>
        ensures text { OnOk result (printed_by self.new ≡ printed_by self.old ++ text.text) }
        ensures malformed { self.new.malformed ≡ self.old.malformed }
    {
        self.texts.push(text)?;
        Ok(())
    }

    // Adds what a client's script came to, its text under its heading.
    fn put_client(&mut self, alloc: Global, client: u32, said: ClientText) -> Result<(), AllocError>
        ensures text { OnOk result (printed_by self.new ≡ (printed_by self.old ++ heading client) ++ said.reply.text) }
        ensures malformed { OnOk result (self.new.malformed ≡ self.old.malformed || said.malformed) }
    {
        let ClientText { reply, malformed } = said;
        let mut above = Reply::new(alloc);
        above.put_heading(client)?;
        self.put(above)?;
        self.put(reply)?;
        self.malformed |= malformed;
        Ok(())
    }
}

// Adds the text of the end.
fn ended_with(output: Output, last: Reply) -> Result<Output, AllocError>
    ensures { IfOk result (λ now. (printed_by now ≡ printed_by output ++ last.text) × (now.malformed ≡ output.malformed)) }
{
    let mut output = output;
    output.put(last)?;
    Ok(output)
}

// Adds the texts of at most 8 clients to the first part's, each under its heading. The last client's stands first among
// these.
fn put_texts(
    alloc: Global,
    outs: Result<Vec<Result<ClientText, Stop>>, AllocError>,
    first: ClientText,
) -> Result<Output, AllocError>
    requires few { IfOk outs (λ outs. length outs.items ≤ 8) }
    ensures texts { IfOk result (λ now. IsOk outs × IfOk outs
        (λ outs. PutsTexts outs.items first.reply.text (printed_by now) first.malformed now.malformed)) }
{
    let mut left = outs?;
    let mut output = Output::of(alloc, first)?;
    let mut client = 1u32;
    while let Some(out) = left.pop() {
        let Ok(text) = out else {
            return Err(AllocError);
        };
        output.put_client(alloc, client, text)?;
        client += 1;
    }
    Ok(output)
}

// Puts all texts one behind the other, and the end of the first one's input behind them; the board is shut last,
// however it ends.
fn end_all<G: Gate, R: Wait>(
    rt: &R,
    alloc: Global,
    board: &SharedBoard<Job>,
    gate: &G,
    shared: &Shared,
    pass: BoardPass<Job>,
    outs: Result<Vec<Result<ClientText, Stop>>, AllocError>,
    first: ClientText,
) -> (BoardPass<Job>, Result<Output, AllocError>)
    requires lock { IsPassOn board.now pass }
    requires few { IfOk outs (λ outs. length outs.items ≤ 8) }
    requires joined { IsJoined shared.now (knows pass) }
    requires gone { PeersGone (knows pass) }
    requires unshut { is_shut (knows pass).seen ≡ false }
    ensures lock { IsPassOn board.now result.0 }
    ensures shut { HasShutLast (knows result.0) }
    ensures next { (knows result.0).next ≡ (knows pass).next }
    ensures ended { (knows result.0).ended ≡ (knows pass).ended }
    ensures done { IfOk result.1 (λ now. IsOk outs × IfOk outs (λ outs. EndsRest shared.now (knows pass) (knows result.0)
        outs.items first.reply.text (printed_by now) first.malformed now.malformed)) }
{
    end_laws();
    let output = match put_texts(alloc, outs, first) {
        Ok(output) => output,
        Err(error) => return (board.shut(rt, pass), Err(error)),
    };
    let mut last = Reply::new(alloc);
    let (pass, ended) = end_first(rt, alloc, board, gate, shared, pass, &mut last);
    match ended {
        Ok(()) => (pass, ended_with(output, last)),
        Err(Stop::Memory) => (board.shut(rt, pass), Err(AllocError)),
    }
}

// Runs the clients at once behind the first part, and then the end of the first one's input. The board is shut last,
// however it ends.
fn answer_rest<G: Gate + Sync, R: Threads + Wait + Sync>(
    rt: &R,
    alloc: Global,
    workers: u32,
    board: &SharedBoard<Job>,
    registry: &SharedRegistry,
    gate: &G,
    passes: Passes<Ask>,
    opened: Opened,
    parts: &[Part<'_>],
) -> (Passes<Ask>, Result<Output, AllocError>)
    requires lock { ArePassesOn board.now registry.now passes }
    requires few { workers ≤ 16 }
    requires clients { (1 ≤ length parts.now) × (length parts.now ≤ 8) }
    requires short { All (λ part. length part ≤ 2 ^ 28) parts.now }
    requires first { ((knows passes.registry).number ≡ 0) × ((knows passes.board).number ≡ 0) }
    requires gave { GaveWorkers workers passes }
    requires opens { (lines : List Line) × FirstOpens workers lines (arc_value opened.shared) passes opened.reply.text opened.malformed }
    ensures lock { ArePassesOn board.now registry.now result.0 }
    ensures left { HaveLeft workers (length parts.now) result.0 }
    ensures answers { IfOk result.1 (λ now. AnswersRest workers (arc_value opened.shared) parts.now passes result.0
        opened.reply.text (printed_by now) opened.malformed now.malformed) }
{
    end_laws();
    shared_is_known();
    let Opened {
        reply,
        malformed,
        shared,
    } = opened;
    let run = ClientRun {
        rt,
        alloc,
        workers,
        board,
        registry,
        gate,
        shared,
        parts,
    };
    let clients = parts.len() as u32;
    let (passes, outs) = run_peers(rt, alloc, board, registry, passes, 17, clients, &run);
    let Passes {
        board: on_board,
        registry: on_registry,
    } = passes;
    // A turn at which the pass has seen all that the clients did.
    let (on_board, _) = board.is_shut(rt, on_board);
    let first = ClientText { reply, malformed };
    let (on_board, output) = end_all(rt, alloc, board, gate, &run.shared, on_board, outs, first);
    let passes = Passes {
        board: on_board,
        registry: on_registry,
    };
    (passes, output)
}

// Answers all parts with passes of both locks: the first part, the clients' and the end of the first one's input. The
// board is shut last, however it ends.
fn answer_parts<G: Gate + Sync, R: Threads + Wait + Sync>(
    rt: &R,
    alloc: Global,
    workers: u32,
    board: &SharedBoard<Job>,
    registry: &SharedRegistry,
    gate: &G,
    passes: Passes<Ask>,
    first: &[u8],
    parts: &[Part<'_>],
) -> (Passes<Ask>, Result<Output, AllocError>)
    requires lock { ArePassesOn board.now registry.now passes }
    requires few { workers ≤ 16 }
    requires clients { (1 ≤ length parts.now) × (length parts.now ≤ 8) }
    requires short { (length first.now ≤ 2 ^ 28) × All (λ part. length part ≤ 2 ^ 28) parts.now }
    requires new { AreNew passes }
    requires gave { GaveWorkers workers passes }
    ensures lock { ArePassesOn board.now registry.now result.0 }
    ensures left { HaveLeft workers (length parts.now) result.0 }
    ensures answers { IfOk result.1 (λ now. AnswersParts workers (script_of first.now) parts.now result.0 (printed_by now) now.malformed) }
{
    end_laws();
    let (passes, opened) = open_first(rt, alloc, workers, board, registry, gate, passes, first);
    match opened {
        Ok(opened) => answer_rest(
            rt, alloc, workers, board, registry, gate, passes, opened, parts,
        ),
        Err(Stop::Memory) => {
            let Passes {
                board: on_board,
                registry: on_registry,
            } = passes;
            let passes = Passes {
                board: board.shut(rt, on_board),
                registry: on_registry,
            };
            (passes, Err(AllocError))
        }
    }
}

// Answers all parts with the first passes of both locks, beside so many workers.
fn crew_parts<G: Gate + Sync, R: Threads + Wait + Sync>(
    rt: &R,
    alloc: Global,
    workers: u32,
    board: &SharedBoard<Job>,
    registry: &SharedRegistry,
    gate: &G,
    passes: Passes<Ask>,
    first: &[u8],
    parts: &[Part<'_>],
) -> (Passes<Ask>, Result<Output, AllocError>)
    requires few { workers ≤ 16 }
    requires clients { (1 ≤ length parts.now) × (length parts.now ≤ 8) }
    requires short { (length first.now ≤ 2 ^ 28) × All (λ part. length part ≤ 2 ^ 28) parts.now }
    requires lock { ArePassesOn board.now registry.now passes }
    requires first { (knows passes.board ≡ fresh_pass) × (knows passes.registry ≡ fresh_pass) }
    ensures lock { ArePassesOn board.now registry.now result.0 }
    ensures crewed { (q : _) × HaveLeft workers (length parts.now) q
        × IfOk result.1 (λ now. AnswersParts workers (script_of first.now) parts.now q (printed_by now) now.malformed)
        × CrewedOnBoth workers passes q result.0 }
{
    let mut main = |passes: Passes<Ask>| -> (Passes<Ask>, Result<Output, AllocError>)
        requires lock { ArePassesOn board.now registry.now passes }
        requires few { workers ≤ 16 }
        requires clients { (1 ≤ length parts.now) × (length parts.now ≤ 8) }
        requires short { (length first.now ≤ 2 ^ 28) × All (λ part. length part ≤ 2 ^ 28) parts.now }
        requires new { AreNew passes }
        requires gave { GaveWorkers workers passes }
    {
        answer_parts(
            rt, alloc, workers, board, registry, gate, passes, first, parts,
        )
    };
    run_crew(rt, alloc, workers, board, registry, passes, gate, &mut main)
}

// Answers all parts on these locks, with their first passes, beside so many workers.
fn parts_with_workers<G: Gate + Sync, R: Threads + Wait + Sync>(
    rt: &R,
    alloc: Global,
    workers: u32,
    board: SharedBoard<Job>,
    registry: SharedRegistry,
    gate: &G,
    passes: Passes<Ask>,
    first: &[u8],
    parts: &[Part<'_>],
) -> PartsRun
    requires few { workers ≤ 16 }
    requires clients { (1 ≤ length parts.now) × (length parts.now ≤ 8) }
    requires short { (length first.now ≤ 2 ^ 28) × All (λ part. length part ≤ 2 ^ 28) parts.now }
    requires lock { ArePassesOn board registry passes }
    requires first { (knows passes.board ≡ fresh_pass) × (knows passes.registry ≡ fresh_pass) }
    ensures ran { PartsRan workers (length parts.now) (first.now ∷ parts.now) result.registry result.board result.output }
{
    end_laws();
    let (passes, output) = crew_parts(
        rt, alloc, workers, &board, &registry, gate, passes, first, parts,
    );
    let Passes {
        board: on_board,
        registry: on_registry,
    } = passes;
    PartsRun {
        output,
        registry: registry.finish_all(rt, on_registry),
        board: board.finish_all(rt, on_board),
    }
}

/// Answers all parts of an input, of at most 2^28 bytes each, beside at most 16 workers, on a board and a registry of
/// its own: the first part alone, those of one to eight clients at once, and then the end of the first one's input.
/// Only want of memory ends it before.
pub fn run_parts<G: Gate + Sync, R: Threads + Wait + Sync>(
    rt: &R,
    alloc: Global,
    workers: u32,
    gate: &G,
    first: &[u8],
    parts: &[Part<'_>],
) -> PartsRun
    requires few { workers ≤ 16 }
    requires clients { (1 ≤ length parts.now) × (length parts.now ≤ 8) }
    requires short { (length first.now ≤ 2 ^ 28) × All (λ part. length part ≤ 2 ^ 28) parts.now }
    ensures ran { PartsRan workers (length parts.now) (first.now ∷ parts.now) result.registry result.board result.output }
{
    let Ok((board, registry, passes)) = first_locks(alloc) else {
        return PartsRun {
            output: Err(AllocError),
            registry: RegLog::empty(alloc),
            board: BoardLog::empty(alloc),
        };
    };
    parts_with_workers(
        rt, alloc, workers, board, registry, gate, passes, first, parts,
    )
}
