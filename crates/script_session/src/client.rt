//! The script of a client beside others.

ghost use Rattle.std.specs.Prelude.{◌≡◌, Some, OnOk, OnErr, MatchResult};
ghost use Rattle.std.specs.Arc.{arc_value};
ghost use Rattle.dialogues.specs.ScriptState.{start_beside};
ghost use Rattle.script_session.specs.EndOfInput.{AnswersEndBeside, EndsDelivered};
ghost use Rattle.script_session.specs.PerformedDialogue.{Stops};
ghost use Rattle.script_session.specs.ReplyText.{SaysTold};
ghost use Rattle.script_session.specs.States.{ReferencesMatch, PipelinesMatch};
ghost use Rattle.recorded_calls.specs.Passes.{known, CallsBoard};

use crate::collects::drain_last_said_all;
use crate::end_of_input::release_all;
use crate::lives::LiveTransforms;
use crate::scripts::Session;
use crate::shared_transforms::Shared;
use board::only_collects_hand_out;
use crew::Gate;
use recorded_calls::{BoardCaller, RegistryCaller, Stop};
use reply_text::Reply;
use shared_board::{BoardPass, SharedBoard};
use shared_registry::RegPass;
use std::alloc::Global;
use std::sync::{Arc, Wait};
use transforms::{Ask, Job};

impl Session {
    /// The script of a client beside others, with whom it shares these transforms; it has made nothing. So many workers
    /// stand beside it. No memory is taken.
    pub fn client(
        alloc: Global,
        workers: u32,
        client: u32,
        shared: Arc<Shared, Global>,
        registry: RegPass,
        board: BoardPass<Job>,
    ) -> Session
        ensures { result ≡ record {
          workers = workers;
          script_state = start_beside client (arc_value shared);
          registry = Some registry;
          board = Some board;
        } }
    {
        Session {
            alloc,
            workers,
            client,
            shared: Some(shared),
            lives: LiveTransforms::new(alloc),
            requests: 0,
            bytes: 0,
            registry: RegistryCaller::new(registry),
            board: BoardCaller::new(board),
        }
    }

    /// Answers the end of input of a client, as `end` does but that the board stays open for the others: held queues
    /// are let go, and each live transform of the client's own is drained, both in order of allocation. No line comes
    /// after it. `Stop` comes for want of memory alone. The reply has the text of what its pipelines handed out up to
    /// then, and no other callback.
    pub fn end_client<R: Wait, G: Gate>(
        &mut self,
        rt: &R,
        board: &SharedBoard<Job>,
        gate: &G,
        reply: &mut Reply,
    ) -> Result<(), Stop>
        requires at { CallsBoard board.now self.old.board }
        requires stands { ReferencesMatch self.old.script_state.lives (known self.old.registry) }
        requires posted { PipelinesMatch self.old.script_state (known self.old.board) }
        ensures done { MatchResult result
            (λ _. AnswersEndBeside self.old self.new reply.old.text reply.new.text)
            (λ _. Stops self.old self.new) }
        ensures paid { OnOk result (EndsDelivered (known self.new.board)) }
        ensures told { OnErr result (SaysTold (known self.old.board) (known self.new.board) reply.old.text reply.new.text) }
    {
        only_collects_hand_out::<Ask>();
        let mut lives = self.lives.take_all(self.alloc)?;
        release_all(rt, board, &mut self.board, &mut lives)?;
        drain_last_said_all(
            rt,
            self.alloc,
            board,
            gate,
            &mut self.board,
            self.bytes,
            &mut lives,
            reply,
        )?;
        // It has seen all that it did.
        self.board.meet(rt, board);
        Ok(())
    }
}
