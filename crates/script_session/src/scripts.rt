//! One script over a registry and a board that others call too.

ghost use Rattle.std.specs.Prelude.{◌≡◌, ◌≤◌, [], true, false, OnOk, OnErr, MatchResult, IsSome, Some};
ghost use Rattle.script_text.specs.Sizes.{IsShortCommand, IsShortLine};
ghost use Rattle.script_text.specs.declared.commands.Line.TheVariants.{Cmd};
ghost use Rattle.dialogues.specs.ScriptState.{start};
ghost use Rattle.dialogues.specs.Lines.{command_dialogue, line_dialogue};
ghost use Rattle.dialogues.specs.Widths.{command_width, width_of};
ghost use Rattle.script_session.specs.Replies.{IsReady, Replies};
ghost use Rattle.recorded_calls.specs.Passes.{CallsRegistry, known, CallsBoard};
ghost use Rattle.script_session.specs.States.{StateMatches, PadsHaveAListPerWorker, AreShared};
ghost use Rattle.script_session.specs.PerformedDialogue.{PerformsBy, StopsIn};
ghost use Rattle.script_session.specs.ReplyText.{SaysBy, hands_out};
ghost use Rattle.recorded_calls.specs.Pipelines.{Called};

use crate::alloc_and_free::Wanted;
use crate::answers::put_all;
use crate::lives::LiveTransforms;
use crate::request_forms::mac_request;
use crate::settings::Setting;
use crate::shared_transforms::Shared;
use crew::Gate;
use recorded_calls::{BoardCaller, RegistryCaller, Stop, shared_is_known};
use reply_text::{Answer, Reply};
use script_text::{Command, Line};
use shared_board::{BoardPass, SharedBoard};
use shared_registry::{RegPass, SharedRegistry};
use std::alloc::Global;
use std::marker::Model;
use std::sync::{Arc, Wait};
use std::thread::Threads;
use transforms::{Dir, Job, Request};

/// One script, which contracts see as what it has made so far and what its passes know.
#[derive(Drop)]
pub struct Session {
    pub(crate) alloc: Global,
    pub(crate) workers: u32,
    pub(crate) client: u32,
    /// What it shares with other scripts, where there are any.
    pub(crate) shared: Option<Arc<Shared, Global>>,
    pub(crate) lives: LiveTransforms,
    /// How many requests pipelines accepted, and of how many bytes.
    pub(crate) requests: u64,
    pub(crate) bytes: u64,
    pub(crate) registry: RegistryCaller,
    pub(crate) board: BoardCaller,
}

impl Model for Session {
    ghost use Rattle.script_session.specs.Filed.{AreFiled, lives_of};
    ghost use Rattle.script_session.specs.SharedTransforms.{shared_in};
    ghost use Rattle.script_session.specs.States.{State};

    ghost Value = { State };

    ghost view = { λ s. record {
      workers = s.workers;
      script_state = record {
        client = s.client;
        shared = shared_in s.shared;
        lives = lives_of s.lives;
        requests = s.requests;
        bytes = s.bytes;
      };
      registry = s.registry;
      board = s.board;
    } };

    ghost invariant = { λ s. AreFiled s.lives };
}

impl Session {
    /// A script that has made nothing, as this client, with so many workers beside it and these passes. No memory is
    /// taken.
    pub fn new(
        alloc: Global,
        workers: u32,
        client: u32,
        registry: RegPass,
        board: BoardPass<Job>,
    ) -> Session
        ensures { result ≡ record { workers = workers; script_state = start client; registry = Some registry; board = Some board } }
    {
        Session {
            alloc,
            workers,
            client,
            shared: None,
            lives: LiveTransforms::new(alloc),
            requests: 0,
            bytes: 0,
            registry: RegistryCaller::new(registry),
            board: BoardCaller::new(board),
        }
    }

    /// The passes of the script, which has gone its way. No memory is taken.
    pub fn into_passes(self) -> (RegPass, BoardPass<Job>)
        requires { IsSome self.registry × IsSome self.board }
        ensures { (self.registry ≡ Some result.0) × (self.board ≡ Some result.1) }
    {
        (self.registry.into_pass(), self.board.into_pass())
    }

    // The answers of a command that collects nothing. A request takes the command's bytes.
    pub(crate) fn command<R: Threads + Wait + Sync>(
        &mut self,
        rt: &R,
        board: &SharedBoard<Job>,
        registry: &SharedRegistry,
        number: u32,
        command: Command,
        answers: &mut Vec<Answer>,
    ) -> Result<(), Stop>
        requires at_registry { CallsRegistry registry.now self.old.registry }
        requires at_board { CallsBoard board.now self.old.board }
        requires state { StateMatches self.old }
        requires few { self.old.workers ≤ 16 }
        requires wide { PadsHaveAListPerWorker self.old }
        requires shared { AreShared self.old.script_state.shared (known self.old.board) }
        requires short { IsShortCommand command }
        requires no_collect { hands_out (Cmd command) ≡ false }
        ensures { MatchResult result
            (λ _. PerformsBy (command_width command) (command_dialogue self.old.workers self.old.script_state number command)
            self.old self.new answers.old.items answers.new.items)
            (λ _. StopsIn (command_dialogue self.old.workers self.old.script_state number command) self.old self.new) }
    {
        match command {
            Command::Aes { key, block } => self.aes(number, &key, &block, answers),
            Command::Register { driver, priority } => {
                self.register(rt, registry, number, &driver, priority, answers)
            }
            Command::Unregister { driver } => {
                self.unregister(rt, registry, number, &driver, answers)
            }
            Command::Probe { names } => self.probe(rt, board, registry, number, &names, answers),
            Command::Alloc {
                label,
                name,
                length,
            } => {
                let wanted = Wanted {
                    label: &label,
                    length,
                };
                self.alloc(rt, board, registry, number, &wanted, &name, answers)
            }
            Command::Key { label, key } => {
                self.set(rt, board, number, &label, Setting::Key(key), answers)
            }
            Command::Authsize { label, size } => {
                self.set(rt, board, number, &label, Setting::TagSize(size), answers)
            }
            Command::Enc {
                label,
                iv,
                aad,
                text,
                backlog,
            } => {
                let dir = Dir::Enc;
                let asked = Request { dir, iv, aad, text };
                self.request(rt, board, number, &label, asked, backlog, answers)
            }
            Command::Dec {
                label,
                iv,
                aad,
                text,
                backlog,
            } => {
                let dir = Dir::Dec;
                let asked = Request { dir, iv, aad, text };
                self.request(rt, board, number, &label, asked, backlog, answers)
            }
            Command::Mac {
                label,
                text,
                backlog,
            } => {
                let asked = mac_request(self.alloc, text);
                self.request(rt, board, number, &label, asked, backlog, answers)
            }
            Command::Bulk { label, size, seed } => {
                self.bulk(rt, number, &label, size, seed, answers)
            }
            Command::Mask { label, mask } => {
                self.set(rt, board, number, &label, Setting::Mask(mask), answers)
            }
            Command::Hold { label } => {
                self.set(rt, board, number, &label, Setting::Held(true), answers)
            }
            Command::Go { label } => {
                self.set(rt, board, number, &label, Setting::Held(false), answers)
            }
            // What they collect goes into a reply.
            Command::Poll { .. } => unreachable!(),
            Command::Drain { .. } => unreachable!(),
            Command::Free { label } => self.free(rt, board, registry, number, &label, answers),
            Command::Refs { driver } => self.refs(rt, registry, number, &driver, answers),
            Command::List => self.list(rt, registry, number, answers),
        }
    }

    // A line whose answers are put into the reply together.
    fn say_line<R: Threads + Wait + Sync>(
        &mut self,
        rt: &R,
        board: &SharedBoard<Job>,
        registry: &SharedRegistry,
        number: u32,
        line: Line,
        reply: &mut Reply,
    ) -> Result<(), Stop>
        requires ready { IsReady registry.now board.now self.old }
        requires short { IsShortLine line }
        requires no_collect { hands_out line ≡ false }
        ensures done { MatchResult result
            (λ _. SaysBy (width_of line) (line_dialogue self.old.workers self.old.script_state number line)
            self.old self.new reply.old.text reply.new.text)
            (λ _. StopsIn (line_dialogue self.old.workers self.old.script_state number line) self.old self.new) }
        ensures unwritten { OnErr result (reply.new.text ≡ reply.old.text) }
    {
        let mut answers = Vec::new(self.alloc);
        self.answer_line(rt, board, registry, number, line, &mut answers)?;
        put_all(reply, &answers)?;
        Ok(())
    }

    /// Answers a line: it holds the line's dialogue with the registry and the board, and adds the text of what was
    /// answered to `reply`. Entries of others may lie between its calls.
    ///
    /// `number` is the line's place in the script, counted from 1. Its answers bear it, and completions of its request.
    /// Each list of bytes in the line is shorter than 2^32. `drain` does what jobs there are while it waits, `probe`
    /// builds, and `bulk` starts threads, which end in this call. A request keeps the line's bytes. `Stop` comes for
    /// want of memory alone, with the reply as it was. The calls that were made are then the first of the line's
    /// dialogue. `poll` and `drain` have made none on the board, but jobs may have been done. The session takes no line
    /// after it.
    pub fn line<R: Threads + Wait + Sync, G: Gate>(
        &mut self,
        rt: &R,
        board: &SharedBoard<Job>,
        registry: &SharedRegistry,
        gate: &G,
        number: u32,
        line: Line,
        reply: &mut Reply,
    ) -> Result<(), Stop>
        requires ready { IsReady registry.now board.now self.old }
        requires short { IsShortLine line }
        ensures done { MatchResult result
            (λ _. Replies (width_of line) (line_dialogue self.old.workers self.old.script_state number line)
            self.old self.new reply.old.text reply.new.text)
            (λ _. StopsIn (line_dialogue self.old.workers self.old.script_state number line) self.old self.new) }
        // It is ready for the next line.
        ensures ready { OnOk result (IsReady registry.now board.now self.new) }
        ensures unwritten { OnErr result (reply.new.text ≡ reply.old.text) }
        // What a pipeline hands out is in the reply, or was not handed out.
        ensures uncalled { OnErr result (hands_out line ≡ true → Called (known self.old.board) (known self.new.board) []) }
    {
        shared_is_known();
        match line {
            Line::Cmd(Command::Poll { label }) => {
                self.collect(rt, board, gate, number, &label, false, reply)
            }
            Line::Cmd(Command::Drain { label }) => {
                self.collect(rt, board, gate, number, &label, true, reply)
            }
            line => self.say_line(rt, board, registry, number, line, reply),
        }
    }
}
