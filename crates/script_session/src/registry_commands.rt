//! The lines that change the registry or show what it has.

ghost use Rattle.std.specs.Prelude.{MatchResult};
ghost use Rattle.dialogues.specs.RegistryCommands.{register, unregister, refs, listed};
ghost use Rattle.recorded_calls.specs.Passes.{CallsRegistry};
ghost use Rattle.script_session.specs.States.{StateMatches};
ghost use Rattle.script_session.specs.PerformedDialogue.{Performs, StopsIn};

use crate::answers::{answer_errno, enlisted_answer, refs_answer, say, unlisted_answer};
use crate::drivers::driver_of;
use crate::list_answers::list_rows;
use crate::scripts::Session;
use kc_base::{Bytes, Errno};
use recorded_calls::Stop;
use reply_text::Answer;
use shared_registry::SharedRegistry;
use std::sync::Wait;

/// The greatest priority of `register`.
const MOST_PRIORITY: u32 = 100_000;

impl Session {
    // `register DRIVER NUM`
    pub(crate) fn register<R: Wait>(
        &mut self,
        rt: &R,
        registry: &SharedRegistry,
        number: u32,
        driver: &Bytes,
        priority: u32,
        answers: &mut Vec<Answer>,
    ) -> Result<(), Stop>
        requires at { CallsRegistry registry.now self.old.registry }
        requires state { StateMatches self.old }
        ensures { MatchResult result
            (λ _. Performs (register self.old.script_state number driver.now priority)
            self.old self.new answers.old.items answers.new.items)
            (λ _. StopsIn (register self.old.script_state number driver.now priority) self.old self.new) }
    {
        let Some(spec) = driver_of(self.alloc, driver.as_slice(), priority)? else {
            return answer_errno(answers, number, Errno::ENOENT);
        };
        if priority > MOST_PRIORITY {
            return answer_errno(answers, number, Errno::EINVAL);
        }
        let how = self.registry.enlist(rt, registry, spec)?;
        say(answers, enlisted_answer(number, how))
    }

    // `unregister DRIVER`
    pub(crate) fn unregister<R: Wait>(
        &mut self,
        rt: &R,
        registry: &SharedRegistry,
        number: u32,
        driver: &Bytes,
        answers: &mut Vec<Answer>,
    ) -> Result<(), Stop>
        requires at { CallsRegistry registry.now self.old.registry }
        requires state { StateMatches self.old }
        ensures { MatchResult result
            (λ _. Performs (unregister self.old.script_state number driver.now) self.old self.new answers.old.items answers.new.items)
            (λ _. StopsIn (unregister self.old.script_state number driver.now) self.old self.new) }
    {
        let was_there = self.registry.unlist(rt, registry, driver.as_slice())?;
        say(answers, unlisted_answer(number, was_there))
    }

    // `refs DRIVER`
    pub(crate) fn refs<R: Wait>(
        &mut self,
        rt: &R,
        registry: &SharedRegistry,
        number: u32,
        driver: &Bytes,
        answers: &mut Vec<Answer>,
    ) -> Result<(), Stop>
        requires at { CallsRegistry registry.now self.old.registry }
        requires state { StateMatches self.old }
        ensures { MatchResult result
            (λ _. Performs (refs self.old.script_state number driver.now) self.old self.new answers.old.items answers.new.items)
            (λ _. StopsIn (refs self.old.script_state number driver.now) self.old self.new) }
    {
        let references = self.registry.refs(rt, registry, driver.as_slice())?;
        say(answers, refs_answer(number, references))
    }

    // `list`
    pub(crate) fn list<R: Wait>(
        &mut self,
        rt: &R,
        registry: &SharedRegistry,
        number: u32,
        answers: &mut Vec<Answer>,
    ) -> Result<(), Stop>
        requires at { CallsRegistry registry.now self.old.registry }
        requires state { StateMatches self.old }
        ensures { MatchResult result
            (λ _. Performs (listed self.old.script_state number) self.old self.new answers.old.items answers.new.items)
            (λ _. StopsIn (listed self.old.script_state number) self.old self.new) }
    {
        let listing = self.registry.list(rt, registry)?;
        list_rows(self.alloc, number, listing.rows(), answers)
    }
}
