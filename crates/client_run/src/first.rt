//! The first part: its script runs alone, and what it has made is shared.

ghost use Rattle.std.specs.Prelude.{◌≡◌, ◌≤◌, ◌^◌, length, IfOk};
ghost use Rattle.std.specs.Arc.{arc_value};
ghost use Rattle.crew.specs.Both.{ArePassesOn};
ghost use Rattle.script_run.specs.Runs.{AreNew};
ghost use Rattle.script_session.specs.PerformedDialogue.{HasSeenMore, SeesOn};
ghost use Rattle.script_text.specs.Script.{script_of};
ghost use Rattle.turn_lock.specs.Passes.{knows};
ghost use Rattle.client_run.specs.Parts.{FirstOpens};

use crate::part::{answer_part, laws};
use crew::{Gate, Passes};
use recorded_calls::Stop;
use reply_text::Reply;
use script_session::{Session, Shared};
use shared_board::SharedBoard;
use shared_registry::SharedRegistry;
use std::alloc::Global;
use std::sync::{Arc, Wait};
use std::thread::Threads;
use transforms::{Ask, Job};

/// What the first part came to: the text of its answers, whether a line of it is malformed, and the transforms that it
/// has made, which are shared.
#[derive(Drop)]
pub struct Opened {
    pub reply: Reply,
    pub malformed: bool,
    pub shared: Arc<Shared, Global>,
}

/// Answers the lines of the first part, of at most 2^28 bytes, as the script of client 0, and then shares what it has
/// made. The passes have made nothing yet. `Stop` comes for want of memory alone. However it ends, the board isn't
/// shut.
pub fn open_first<G: Gate, R: Threads + Wait + Sync>(
    rt: &R,
    alloc: Global,
    workers: u32,
    board: &SharedBoard<Job>,
    registry: &SharedRegistry,
    gate: &G,
    passes: Passes<Ask>,
    part: &[u8],
) -> (Passes<Ask>, Result<Opened, Stop>)
    requires lock { ArePassesOn board.now registry.now passes }
    requires few { workers ≤ 16 }
    requires new { AreNew passes }
    requires short { length part.now ≤ 2 ^ 28 }
    ensures lock { ArePassesOn board.now registry.now result.0 }
    ensures registry { HasSeenMore (knows passes.registry) (knows result.0.registry) }
    ensures board { SeesOn (knows passes.board) (knows result.0.board) }
    ensures opened { IfOk result.1 (λ opened. FirstOpens workers (script_of part.now) (arc_value opened.shared)
        result.0 opened.reply.text opened.malformed) }
{
    laws();
    let Passes {
        board: on_board,
        registry: on_registry,
    } = passes;
    let mut session = Session::new(alloc, workers, 0, on_registry, on_board);
    let mut reply = Reply::new(alloc);
    let answer = answer_part(
        rt,
        alloc,
        board,
        registry,
        gate,
        &mut session,
        part,
        &mut reply,
    );
    match answer {
        Ok(malformed) => {
            let (on_registry, on_board, shared) = session.share(rt, board);
            let passes = Passes {
                board: on_board,
                registry: on_registry,
            };
            match shared {
                Ok(shared) => {
                    let opened = Opened {
                        reply,
                        malformed,
                        shared,
                    };
                    (passes, Ok(opened))
                }
                Err(stop) => (passes, Err(stop)),
            }
        }
        Err(stop) => {
            let (on_registry, on_board) = session.into_passes();
            let passes = Passes {
                board: on_board,
                registry: on_registry,
            };
            (passes, Err(stop))
        }
    }
}
