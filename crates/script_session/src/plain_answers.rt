//! Lines, and their end, whose answers are handed out as they are, and not as text.

ghost use Rattle.std.specs.Prelude.{◌≡◌, false, OnOk, MatchResult};
ghost use Rattle.script_text.specs.Sizes.{IsShortLine};
ghost use Rattle.dialogues.specs.Lines.{line_dialogue};
ghost use Rattle.dialogues.specs.PipelineCommands.{end};
ghost use Rattle.dialogues.specs.Widths.{width_of};
ghost use Rattle.script_session.specs.EndOfInput.{EndsWith, EndsShut};
ghost use Rattle.script_session.specs.PerformedDialogue.{PerformsBy, StopsIn};
ghost use Rattle.script_session.specs.Replies.{IsReady};
ghost use Rattle.script_session.specs.ReplyText.{hands_out};
ghost use Rattle.script_session.specs.States.{ReferencesMatch, PipelinesMatch};
ghost use Rattle.recorded_calls.specs.Passes.{known, CallsBoard};

use crate::answers::say;
use crate::end_of_input::{drain_last_all, release_all};
use crate::scripts::Session;
use board::only_collects_hand_out;
use crew::Gate;
use recorded_calls::{Stop, shared_is_known};
use reply_text::Answer;
use script_text::Line;
use shared_board::SharedBoard;
use shared_registry::SharedRegistry;
use std::sync::Wait;
use std::thread::Threads;
use transforms::{Ask, Job};

impl Session {
    /// Answers a line other than `poll` and `drain` as `line` does, and adds its answers, not their text, to those that
    /// are there. `Stop` comes for want of memory alone: the calls that were made are then the first of the line's
    /// dialogue, what `answers` has isn't told, and the session takes no line after it.
    pub fn answer_line<R: Threads + Wait + Sync>(
        &mut self,
        rt: &R,
        board: &SharedBoard<Job>,
        registry: &SharedRegistry,
        number: u32,
        line: Line,
        answers: &mut Vec<Answer>,
    ) -> Result<(), Stop>
        requires ready { IsReady registry.now board.now self.old }
        requires short { IsShortLine line }
        requires no_collect { hands_out line ≡ false }
        ensures done { MatchResult result
            (λ _. PerformsBy (width_of line) (line_dialogue self.old.workers self.old.script_state number line)
            self.old self.new answers.old.items answers.new.items)
            (λ _. StopsIn (line_dialogue self.old.workers self.old.script_state number line) self.old self.new) }
        // It is ready for the next line.
        ensures ready { OnOk result (IsReady registry.now board.now self.new) }
    {
        shared_is_known();
        match line {
            Line::Nothing => Ok(()),
            Line::Malformed => say(answers, Answer::Malformed { line: number }),
            Line::Cmd(command) => self.command(rt, board, registry, number, command, answers),
        }
    }

    /// Does what `end` does, and adds its answers, not their text, to those that are there. `Stop` comes for want of
    /// memory alone: the calls that were made are then the first of the end's dialogue, and the board isn't shut. What
    /// `answers` has isn't told, and what was handed out may be lost.
    pub fn answer_end<R: Wait, G: Gate>(
        &mut self,
        rt: &R,
        board: &SharedBoard<Job>,
        gate: &G,
        answers: &mut Vec<Answer>,
    ) -> Result<(), Stop>
        requires at { CallsBoard board.now self.old.board }
        requires stands { ReferencesMatch self.old.script_state.lives (known self.old.registry) }
        requires posted { PipelinesMatch self.old.script_state (known self.old.board) }
        requires first { (known self.old.board).number ≡ 0 }
        ensures done { MatchResult result
            (λ _. EndsWith self.old self.new answers.old.items answers.new.items)
            (λ _. StopsIn (end self.old.script_state) self.old self.new) }
        ensures shut { OnOk result (EndsShut (known self.new.board)) }
    {
        only_collects_hand_out::<Ask>();
        let mut lives = self.lives.take_all(self.alloc)?;
        release_all(rt, board, &mut self.board, &mut lives)?;
        drain_last_all(
            rt,
            self.alloc,
            board,
            gate,
            &mut self.board,
            &mut lives,
            answers,
        )?;
        self.board.shut(rt, board);
        Ok(())
    }
}
