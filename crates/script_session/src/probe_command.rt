//! `probe`: several names looked up at once.

ghost use Rattle.std.specs.Prelude.{◌≡◌, ◌++◌, ◌∷◌, [], List, length, MatchResult, IsFalse, All};
ghost use Rattle.alg_registry.specs.Legal.{is_worker};
ghost use Rattle.reply_text.specs.declared.answers.Answer.{Answer as Said};
ghost use Rattle.dialogues.specs.Probe.{found_said, probe};
ghost use Rattle.recorded_calls.specs.Looks.{Builds, Goes, found_result};
ghost use Rattle.recorded_calls.specs.Passes.{CallsRegistry, known};
ghost use Rattle.script_session.specs.PerformedDialogue.{PerformsBy, StopsIn};
ghost use Rattle.script_session.specs.Probe.{Searched, IsRead, entry_of, MaySettle, LooksFirst, LooksSome, SettlesThen};
ghost use Rattle.script_session.specs.States.{StateMatches};
ghost use Rattle.templates.specs.LookResults.{Found};

use crate::name_limits::read_name;
use crate::scripts::Session;
use alg_registry::Spec;
use dialogues::{calls_at_once, registry_calls_go_on};
use kc_base::{Bytes, Errno};
use recorded_calls::{Look, RegistryCaller, Stop};
use reply_text::Answer;
use script_text::Texts;
use shared_board::SharedBoard;
use shared_registry::SharedRegistry;
use std::alloc::Global;
use std::marker::Model;
use std::sync::Wait;
use templates::BuildErr;
use transforms::Job;

/// A name of a `probe`, with the look that was made for it, or why it is no name.
#[derive(Drop)]
struct Search {
    text: Bytes,
    look: Result<Look, Errno>,
}

impl Model for Search {
    ghost use Rattle.script_session.specs.Probe.{Searched};

    ghost Value = { Searched };

    ghost view = { λ s. record { text = s.text; look = s.look } };
}

// Looks a name up, where it is one.
fn look_for<R: Wait>(
    rt: &R,
    alloc: Global,
    registry: &SharedRegistry,
    caller: &mut RegistryCaller,
    text: &[u8],
) -> Result<Result<Look, Errno>, Stop>
    requires at { CallsRegistry registry.now caller.old }
    requires outsider { IsFalse (is_worker (known caller.old).number) }
    ensures { MatchResult result
        (λ look. IsRead text.now look × Goes caller.old caller.new (entry_of (known caller.old).number look)
        × MaySettle (known caller.new) look)
        (λ _. Goes caller.old caller.new []) }
{
    match read_name(alloc, text) {
        Ok(name) => Ok(Ok(caller.look(rt, alloc, registry, name)?)),
        Err(BuildErr::Fault(errno)) => Ok(Err(errno)),
        Err(BuildErr::Memory) => Err(Stop::Memory),
    }
}

// Looks each of the names up, one after the other.
fn look_for_all<R: Wait>(
    rt: &R,
    alloc: Global,
    registry: &SharedRegistry,
    caller: &mut RegistryCaller,
    texts: &[Bytes],
) -> Result<Vec<Search>, Stop>
    requires at { CallsRegistry registry.now caller.old }
    requires outsider { IsFalse (is_worker (known caller.old).number) }
    ensures { MatchResult result
        (λ searches. LooksFirst caller.old caller.new texts.now searches.items)
        (λ _. LooksSome caller.old caller.new texts.now) }
{
    let mut searches = Vec::new(alloc);
    for text in texts {
        let look = look_for(rt, alloc, registry, caller, text.as_slice())?;
        let copy = Bytes::copy_of(alloc, text.as_slice())?;
        searches.push(Search { text: copy, look })?;
    }
    Ok(searches)
}

// Wakes a worker for each search but the first, where something waits to be built: the caller begins with the first
// itself. No turn is taken.
fn call_workers(board: &SharedBoard<Job>, registry: &SharedRegistry, searches: usize) {
    for _ in 1..searches {
        if registry.may_build() {
            board.call_worker();
        }
    }
}

fn found_answer(line: u32, name: Bytes, found: Result<Spec, Errno>) -> Answer
    ensures { (came : Found) → found ≡ found_result came → result ≡ found_said line name came }
{
    match found {
        Ok(spec) => Answer::Probed {
            line,
            name,
            driver: spec.driver,
        },
        Err(errno) => Answer::Unprobed { line, name, errno },
    }
}

// The answer to what a name comes to, which is built or waited for.
fn settle<R: Wait>(
    rt: &R,
    alloc: Global,
    registry: &SharedRegistry,
    caller: &mut RegistryCaller,
    line: u32,
    search: &Search,
) -> Result<Answer, Stop>
    requires at { CallsRegistry registry.now caller.old }
    requires may { MaySettle (known caller.old) search.now.look }
    ensures { MatchResult result
        (λ answer. SettlesThen caller.old caller.new line (search.now ∷ []) (answer ∷ []))
        (λ _. Builds caller.old caller.new) }
{
    let name = Bytes::copy_of(alloc, search.text.as_slice())?;
    match &search.look {
        Ok(look) => {
            let found = caller.settle(rt, alloc, registry, look)?;
            Ok(found_answer(line, name, found))
        }
        Err(errno) => Ok(found_answer(line, name, Err(*errno))),
    }
}

// Adds the answer to what each of the names comes to.
fn settle_all<R: Wait>(
    rt: &R,
    alloc: Global,
    registry: &SharedRegistry,
    caller: &mut RegistryCaller,
    line: u32,
    searches: &[Search],
    answers: &mut Vec<Answer>,
) -> Result<(), Stop>
    requires at { CallsRegistry registry.now caller.old }
    requires may { All (λ (search : Searched). MaySettle (known caller.old) search.look) searches.now }
    ensures { MatchResult result
        (λ _. (said : List Said) × (answers.new.items ≡ answers.old.items ++ said)
        × SettlesThen caller.old caller.new line searches.now said)
        (λ _. Builds caller.old caller.new) }
{
    registry_calls_go_on();
    for search in searches {
        let answer = settle(rt, alloc, registry, caller, line, search)?;
        answers.push(answer)?;
    }
    Ok(())
}

impl Session {
    // `probe NAME ..`. Workers that sleep are woken for what it leaves to them.
    pub(crate) fn probe<R: Wait>(
        &mut self,
        rt: &R,
        board: &SharedBoard<Job>,
        registry: &SharedRegistry,
        number: u32,
        names: &Texts,
        answers: &mut Vec<Answer>,
    ) -> Result<(), Stop>
        requires at { CallsRegistry registry.now self.old.registry }
        requires state { StateMatches self.old }
        ensures { MatchResult result
            (λ _. PerformsBy (length names.now) (probe self.old.script_state number names.now)
            self.old self.new answers.old.items answers.new.items)
            (λ _. StopsIn (probe self.old.script_state number names.now) self.old self.new) }
    {
        calls_at_once();
        let searches = look_for_all(
            rt,
            self.alloc,
            registry,
            &mut self.registry,
            names.as_slice(),
        )?;
        call_workers(board, registry, searches.len());
        settle_all(
            rt,
            self.alloc,
            registry,
            &mut self.registry,
            number,
            &searches,
            answers,
        )
    }
}
