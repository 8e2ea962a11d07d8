//! The clients after the first: the script of each runs beside the others, with passes of its own.

ghost use Rattle.std.specs.Prelude.{◌≡◌, ◌-◌, ◌≤◌, ◌^◌, length, IfOk, MatchResult};
ghost use Rattle.std.specs.Arc.{arc_value};
ghost use Rattle.std.specs.Option.{option_copied};
ghost use Rattle.crew.specs.Both.{ArePassesOn};
ghost use Rattle.crew.specs.Peers.{KeepNumbers};
ghost use Rattle.script_session.specs.PerformedDialogue.{Stops};
ghost use Rattle.script_session.specs.Replies.{IsReady};
ghost use Rattle.script_text.specs.Script.{script_of};
ghost use Rattle.client_run.specs.Parts.{MayRun, ClientAnswers};
ghost use Rattle.client_run.specs.Meets.{IsPartAt, HaveMet, AnswersPart};

use crate::part::{answer_part, laws};
use crew::{Gate, Passes, Peer};
use recorded_calls::{Stop, shared_is_known};
use reply_text::Reply;
use script_session::{Session, Shared};
use script_text::Part;
use shared_board::SharedBoard;
use shared_registry::SharedRegistry;
use std::alloc::Global;
use std::sync::{Arc, Wait};
use std::thread::Threads;
use transforms::{Ask, Job};

/// What a client's script came to: the text of its answers, and whether a line of it is malformed.
#[derive(Drop)]
pub struct ClientText {
    pub reply: Reply,
    pub malformed: bool,
}

/// The scripts of the clients after the first, which run at once: client K, counted from 1, as caller 16 + K of both
/// locks.
#[derive(Drop)]
pub struct ClientRun<'a, G, R> {
    pub rt: &'a R,
    pub alloc: Global,
    pub workers: u32,
    pub board: &'a SharedBoard<Job>,
    pub registry: &'a SharedRegistry,
    pub gate: &'a G,
    /// What all share.
    pub shared: Arc<Shared, Global>,
    /// The clients' parts, that of client 1 first.
    pub parts: &'a [Part<'a>],
}

// The part of the client with this number on both locks.
fn part_of<'a>(parts: &'a [Part<'a>], number: u32) -> Option<&'a [u8]>
    ensures { IsPartAt parts.now number (option_copied result) }
{
    let place = number.checked_sub(17)?;
    let part = parts.get(place as usize)?;
    Some(part.as_slice())
}

impl<'a, G: Gate, R: Threads + Wait + Sync> ClientRun<'a, G, R> {
    // Takes a turn on each lock, at which nothing is done. It shows that no entry was made under the passes' number.
    fn meet(&self, passes: Passes<Ask>) -> Passes<Ask>
        requires lock { ArePassesOn self.now.board.now self.now.registry.now passes }
        ensures lock { ArePassesOn self.now.board.now self.now.registry.now result }
        ensures met { HaveMet passes result }
    {
        let (on_board, _) = self.board.is_shut(self.rt, passes.board);
        let (on_registry, _) = self.registry.origin(self.rt, passes.registry, u64::MAX);
        Passes {
            board: on_board,
            registry: on_registry,
        }
    }

    // Answers a client's lines, and then the end of its input.
    fn answer_client(&self, session: &mut Session, part: &[u8]) -> Result<ClientText, Stop>
        requires ready { IsReady self.now.registry.now self.now.board.now session.old }
        requires short { length part.now ≤ 2 ^ 28 }
        ensures done { MatchResult result
            (λ text. AnswersPart (script_of part.now) session.old session.new text.reply.text text.malformed)
            (λ _. Stops session.old session.new) }
    {
        laws();
        let mut reply = Reply::new(self.alloc);
        let malformed = answer_part(
            self.rt,
            self.alloc,
            self.board,
            self.registry,
            self.gate,
            session,
            part,
            &mut reply,
        )?;
        session.end_client(self.rt, self.board, self.gate, &mut reply)?;
        Ok(ClientText { reply, malformed })
    }

    // Runs a client's script with its passes.
    fn run_part(
        &self,
        number: u32,
        part: &[u8],
        passes: Passes<Ask>,
    ) -> (Passes<Ask>, Result<ClientText, Stop>)
        requires lock { ArePassesOn self.now.board.now self.now.registry.now passes }
        requires client { 17 ≤ number }
        requires short { length part.now ≤ 2 ^ 28 }
        requires may { MayRun self.now.workers (arc_value self.now.shared) self.now.parts.now number passes }
        ensures lock { ArePassesOn self.now.board.now self.now.registry.now result.0 }
        ensures numbers { KeepNumbers passes result.0 }
        ensures answers { IfOk result.1 (λ text. ClientAnswers self.now.workers (number - 16) (arc_value self.now.shared)
            (script_of part.now) result.0 text.reply.text text.malformed) }
    {
        laws();
        shared_is_known();
        let Passes {
            board: on_board,
            registry: on_registry,
        } = self.meet(passes);
        let Ok(shared) = self.shared.clone() else {
            let passes = Passes {
                board: on_board,
                registry: on_registry,
            };
            return (passes, Err(Stop::Memory));
        };
        let mut session = Session::client(
            self.alloc,
            self.workers,
            number - 16,
            shared,
            on_registry,
            on_board,
        );
        let answer = self.answer_client(&mut session, part);
        let (on_registry, on_board) = session.into_passes();
        let passes = Passes {
            board: on_board,
            registry: on_registry,
        };
        (passes, answer)
    }
}

impl<'a, G: Gate, R: Threads + Wait + Sync> Peer<Passes<Ask>> for ClientRun<'a, G, R> {
    type Out = Result<ClientText, Stop>;

    ghost use Rattle.std.specs.Arc.{arc_value};
    ghost use Rattle.std.specs.Thread.{IsSync};
    ghost use Rattle.crew.specs.Both.{ArePassesOn};
    ghost use Rattle.client_run.specs.Parts.{MayRun, ClientRan};

    ghost can_run = { λ run n p. IsSync R.row × ArePassesOn run.board.now run.registry.now p
        × (17 ≤ n → MayRun run.workers (arc_value run.shared) run.parts.now n p) };

    ghost gives = { λ run n p q x. ArePassesOn run.board.now run.registry.now q
        × ClientRan run.workers (arc_value run.shared) run.parts.now n p q x };

    fn run(&self, number: u32, passes: Passes<Ask>) -> (Passes<Ask>, Result<ClientText, Stop>) {
        let Some(part) = part_of(self.parts, number) else {
            let nothing = ClientText {
                reply: Reply::new(self.alloc),
                malformed: false,
            };
            return (passes, Ok(nothing));
        };
        self.run_part(number, part, passes)
    }
}
