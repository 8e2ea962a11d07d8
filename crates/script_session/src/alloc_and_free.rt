//! The lines that take a transform into use and let it go.

ghost use Rattle.std.specs.Prelude.{◌≡◌, ◌≤◌, [], MatchResult, IsSome, None, Some, true, slice_get};
ghost use Rattle.alg_names.specs.Name.{spelling};
ghost use Rattle.alg_registry.specs.declared.spec.Spec.{Spec as Algorithm};
ghost use Rattle.alg_registry.specs.Rows.{registered};
ghost use Rattle.templates.specs.LookResults.{Entry};
ghost use Rattle.templates.specs.Nesting.{is_nested_well};
ghost use Rattle.dialogues.specs.AllocAndFree.{alloc, binds, binds_plan, free, is_chained, shape_for};
ghost use Rattle.dialogues.specs.Names.{is_queue_length};
ghost use Rattle.dialogues.specs.ScriptState.{live_of};
ghost use Rattle.board.specs.Legal.{IsNoWorker};
ghost use Rattle.script_session.specs.BrokenOff.{CallsOn, StopsMaking};
ghost use Rattle.script_session.specs.Creation.{CreatedLive};
ghost use Rattle.script_session.specs.Alloc.{looks, MakesLive, AddsLive};
ghost use Rattle.recorded_calls.specs.Passes.{CallsRegistry, known, lock_of, CallsBoard};
ghost use Rattle.script_session.specs.States.{PipelinesMatch, StateMatches};
ghost use Rattle.script_session.specs.PerformedDialogue.{Performs, StopsIn};

use crate::answers::{answer_errno, say};
use crate::name_limits::{fits_queue, plan_with, read_name};
use crate::pipeline_requests::{close_live, create_pipe, is_undelivered};
use crate::scripts::Session;
use crate::transform::Transform;
use alg_names::Name;
use alg_registry::Spec;
use kc_base::{Bytes, Errno};
use recorded_calls::{BoardCaller, Stop};
use reply_text::Answer;
use shared_board::SharedBoard;
use shared_registry::SharedRegistry;
use std::alloc::Global;
use std::sync::Wait;
use templates::{BuildErr, Plan};
use transforms::Job;

/// The most live transforms.
const MOST_LIVE: usize = 4096;

/// What an `alloc` asks for beside the name.
#[derive(Drop)]
pub struct Wanted<'a> {
    pub label: &'a Bytes,
    /// How many requests may wait in its queue, where the line says it.
    pub length: Option<u32>,
}

/// An entry that a look came to, and what its driver computes.
#[derive(Drop)]
struct Chosen {
    id: u64,
    spec: Spec,
    plan: Plan,
}

// A transform of an entry, with its pipeline, where it has one.
fn create_live<R: Wait>(
    rt: &R,
    alloc: Global,
    board: &SharedBoard<Job>,
    caller: &mut BoardCaller,
    workers: u32,
    wanted: &Wanted<'_>,
    chosen: &Chosen,
) -> Result<Transform, Stop>
    requires at { CallsBoard board.now caller.old }
    requires caller { IsNoWorker (known caller.old).number }
    requires fits { is_queue_length wanted.now.length ≡ true }
    requires few { workers ≤ 16 }
    ensures lock { lock_of caller.new ≡ lock_of caller.old }
    ensures created { MatchResult result
        (λ live. CreatedLive workers wanted.now.label.now wanted.now.length chosen.now.id chosen.now.spec chosen.now.plan
        live (known caller.old) (known caller.new))
        (λ _. CallsOn (known caller.old) (known caller.new) []) }
{
    let label = Bytes::copy_of(alloc, wanted.label.as_slice())?;
    let pipe = create_pipe(
        rt,
        alloc,
        board,
        caller,
        workers,
        &chosen.spec,
        wanted.length,
    )?;
    Ok(Transform::new(label, chosen.id, chosen.plan, pipe))
}

impl Session {
    // Makes the transform of an entry, and puts it behind the others.
    fn make_live<R: Wait>(
        &mut self,
        rt: &R,
        board: &SharedBoard<Job>,
        wanted: &Wanted<'_>,
        chosen: &Chosen,
    ) -> Result<(), Stop>
        requires at_board { CallsBoard board.now self.old.board }
        requires posted { PipelinesMatch self.old.script_state (known self.old.board) }
        requires few { self.old.workers ≤ 16 }
        requires free { live_of self.old.script_state wanted.now.label.now ≡ None }
        requires fits { is_queue_length wanted.now.length ≡ true }
        ensures { MatchResult result
            (λ _. MakesLive wanted.now.label.now wanted.now.length chosen.now.id chosen.now.spec chosen.now.plan self.old self.new)
            (λ _. StopsMaking (shape_for self.old.workers (is_chained chosen.now.spec.driver) chosen.now.spec.wrap wanted.now.length)
            self.old self.new) }
    {
        let live = create_live(
            rt,
            self.alloc,
            board,
            &mut self.board,
            self.workers,
            wanted,
            chosen,
        )?;
        self.lives.push(self.alloc, live)?;
        Ok(())
    }

    // Makes the transform of an entry, of which there is a reference, adds it behind the others, and answers.
    fn add_live<R: Wait>(
        &mut self,
        rt: &R,
        board: &SharedBoard<Job>,
        number: u32,
        wanted: &Wanted<'_>,
        chosen: Chosen,
        answers: &mut Vec<Answer>,
    ) -> Result<(), Stop>
        requires at_board { CallsBoard board.now self.old.board }
        requires posted { PipelinesMatch self.old.script_state (known self.old.board) }
        requires few { self.old.workers ≤ 16 }
        requires free { live_of self.old.script_state wanted.now.label.now ≡ None }
        requires fits { is_queue_length wanted.now.length ≡ true }
        ensures { MatchResult result
            (λ _. AddsLive number wanted.now.label.now wanted.now.length chosen.id chosen.spec chosen.plan
            self.old self.new answers.old.items answers.new.items)
            (λ _. StopsMaking (shape_for self.old.workers (is_chained chosen.spec.driver) chosen.spec.wrap wanted.now.length)
            self.old self.new) }
    {
        self.make_live(rt, board, wanted, &chosen)?;
        let driver = chosen.spec.driver;
        say(
            answers,
            Answer::Made {
                line: number,
                driver,
            },
        )
    }

    // Takes an entry of a plan into use, if there is a reference to it.
    fn take_entry<R: Wait>(
        &mut self,
        rt: &R,
        board: &SharedBoard<Job>,
        registry: &SharedRegistry,
        number: u32,
        wanted: &Wanted<'_>,
        chosen: Chosen,
        answers: &mut Vec<Answer>,
    ) -> Result<(), Stop>
        requires at_registry { CallsRegistry registry.now self.old.registry }
        requires at_board { CallsBoard board.now self.old.board }
        requires state { StateMatches self.old }
        requires few { self.old.workers ≤ 16 }
        requires free { live_of self.old.script_state wanted.now.label.now ≡ None }
        requires fits { is_queue_length wanted.now.length ≡ true }
        ensures { MatchResult result
            (λ _. Performs
            (binds_plan self.old.workers self.old.script_state number wanted.now.label.now wanted.now.length
            chosen.id chosen.spec (Some chosen.plan))
            self.old self.new answers.old.items answers.new.items)
            (λ _. StopsIn
            (binds_plan self.old.workers self.old.script_state number wanted.now.label.now wanted.now.length
            chosen.id chosen.spec (Some chosen.plan))
            self.old self.new) }
    {
        if !self.registry.take_ref(rt, registry, chosen.id)? {
            return answer_errno(answers, number, Errno::EAGAIN);
        }
        self.add_live(rt, board, number, wanted, chosen, answers)
    }

    // Takes an entry that a look came to into use.
    fn bind<R: Wait>(
        &mut self,
        rt: &R,
        board: &SharedBoard<Job>,
        registry: &SharedRegistry,
        number: u32,
        wanted: &Wanted<'_>,
        id: u64,
        answers: &mut Vec<Answer>,
    ) -> Result<(), Stop>
        requires at_registry { CallsRegistry registry.now self.old.registry }
        requires at_board { CallsBoard board.now self.old.board }
        requires state { StateMatches self.old }
        requires few { self.old.workers ≤ 16 }
        requires free { live_of self.old.script_state wanted.now.label.now ≡ None }
        requires seen { IsSome (slice_get (registered (known self.old.registry).seen) id) }
        requires fits { is_queue_length wanted.now.length ≡ true }
        ensures { MatchResult result
            (λ _. (spec : Algorithm) × (slice_get (registered (known self.old.registry).seen) id ≡ Some spec)
            × Performs (binds self.old.workers self.old.script_state number wanted.now.label.now wanted.now.length (Entry id spec))
            self.old self.new answers.old.items answers.new.items)
            (λ _. (spec : Algorithm) × (slice_get (registered (known self.old.registry).seen) id ≡ Some spec)
            × StopsIn (binds self.old.workers self.old.script_state number wanted.now.label.now wanted.now.length (Entry id spec))
            self.old self.new) }
    {
        let spec = self.registry.origin(rt, registry, id)?;
        let Some(plan) = plan_with(self.alloc, &spec, wanted.length)? else {
            return answer_errno(answers, number, Errno::EINVAL);
        };
        let chosen = Chosen { id, spec, plan };
        self.take_entry(rt, board, registry, number, wanted, chosen, answers)
    }

    // Looks a name up, and takes what is found into use.
    fn find<R: Wait>(
        &mut self,
        rt: &R,
        board: &SharedBoard<Job>,
        registry: &SharedRegistry,
        number: u32,
        wanted: &Wanted<'_>,
        name: &Name,
        answers: &mut Vec<Answer>,
    ) -> Result<(), Stop>
        requires at_registry { CallsRegistry registry.now self.old.registry }
        requires at_board { CallsBoard board.now self.old.board }
        requires state { StateMatches self.old }
        requires few { self.old.workers ≤ 16 }
        requires free { live_of self.old.script_state wanted.now.label.now ≡ None }
        requires nested { is_nested_well name.now ≡ true }
        requires fits { is_queue_length wanted.now.length ≡ true }
        ensures { MatchResult result
            (λ _. Performs (looks self.old.workers self.old.script_state number wanted.now.label.now (spelling name.now) wanted.now.length)
            self.old self.new answers.old.items answers.new.items)
            (λ _. StopsIn (looks self.old.workers self.old.script_state number wanted.now.label.now (spelling name.now) wanted.now.length)
            self.old self.new) }
    {
        match self.registry.resolve(rt, self.alloc, registry, name)? {
            Ok(id) => self.bind(rt, board, registry, number, wanted, id, answers),
            Err(errno) => answer_errno(answers, number, errno),
        }
    }

    // `alloc T NAME [NUM]`
    pub(crate) fn alloc<R: Wait>(
        &mut self,
        rt: &R,
        board: &SharedBoard<Job>,
        registry: &SharedRegistry,
        number: u32,
        wanted: &Wanted<'_>,
        name: &Bytes,
        answers: &mut Vec<Answer>,
    ) -> Result<(), Stop>
        requires at_registry { CallsRegistry registry.now self.old.registry }
        requires at_board { CallsBoard board.now self.old.board }
        requires state { StateMatches self.old }
        requires few { self.old.workers ≤ 16 }
        ensures { MatchResult result
            (λ _. Performs (alloc self.old.workers self.old.script_state number wanted.now.label.now name.now wanted.now.length)
            self.old self.new answers.old.items answers.new.items)
            (λ _. StopsIn (alloc self.old.workers self.old.script_state number wanted.now.label.now name.now wanted.now.length)
            self.old self.new) }
    {
        if self.has_label(wanted.label.as_slice()) {
            return answer_errno(answers, number, Errno::EEXIST);
        }
        if self.lives.len() >= MOST_LIVE {
            return answer_errno(answers, number, Errno::EMFILE);
        }
        let name = match read_name(self.alloc, name.as_slice()) {
            Ok(name) => name,
            Err(BuildErr::Fault(errno)) => return answer_errno(answers, number, errno),
            Err(BuildErr::Memory) => return Err(Stop::Memory),
        };
        if !fits_queue(wanted.length) {
            return answer_errno(answers, number, Errno::EINVAL);
        }
        self.find(rt, board, registry, number, wanted, &name, answers)
    }

    // `free T`
    pub(crate) fn free<R: Wait>(
        &mut self,
        rt: &R,
        board: &SharedBoard<Job>,
        registry: &SharedRegistry,
        number: u32,
        label: &Bytes,
        answers: &mut Vec<Answer>,
    ) -> Result<(), Stop>
        requires at_registry { CallsRegistry registry.now self.old.registry }
        requires at_board { CallsBoard board.now self.old.board }
        requires state { StateMatches self.old }
        ensures { MatchResult result
            (λ _. Performs (free self.old.script_state number label.now) self.old self.new answers.old.items answers.new.items)
            (λ _. StopsIn (free self.old.script_state number label.now) self.old self.new) }
    {
        let Some(place) = self.lives.place_of(label.as_slice()) else {
            let errno = self.missing(label.as_slice());
            return answer_errno(answers, number, errno);
        };
        if is_undelivered(self.lives.get(place)) {
            return answer_errno(answers, number, Errno::EBUSY);
        }
        // Memory is taken first: nothing stops the line once its pipeline is closed.
        say(answers, Answer::Ok { line: number })?;
        let live = self.lives.remove(place);
        close_live(rt, board, &mut self.board, &live);
        self.registry.put_ref(rt, registry, live.id());
        Ok(())
    }
}
