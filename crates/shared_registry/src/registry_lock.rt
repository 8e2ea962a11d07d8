//! The lock round the registry: each call takes a turn, and says what it met there and what it added.

ghost use Rattle.std.specs.Option.{option_map};
ghost use Rattle.std.specs.Prelude.{◌≡◌, ℕ, ◌+◌, ◌^◌, ◌<◌, ◌≤◌, ◌++◌, ◌∷◌, [], length, slice_get, IsTrue, IsFalse, IfOk, IfErr, OnOk, OnErr};
ghost use Rattle.alg_registry.specs.declared.entry.RegEntry.{RegEntry};
ghost use Rattle.alg_registry.specs.Rows.{rows_of, larvals_of, registered, is_listed, end_of, caller_of, texts};
ghost use Rattle.alg_registry.specs.Answers.{look_answer, enlist_answer, driver_place};
ghost use Rattle.alg_registry.specs.Legal.{is_worker, HasReference, ended_as};
ghost use Rattle.alg_registry.specs.Calls.{UnlessNoMemory, OnNoMemory, MayLack, enlist_result, end_given, unless_memory, unlist_result, get_result, claimed_number, claimed_answer, listing, refs_answer, refs_result};
ghost use Rattle.templates.specs.Table.{table};
ghost use Rattle.turn_lock.specs.Passes.{knows, turn_knows, turn_value, turn_lock};
ghost use Rattle.turn_lock.specs.PassLaws.{Leaves};
ghost use Rattle.turn_lock.specs.Turns.{fresh_pass, sees, Shows, StartsWith, gives_number, gets_number, joined};
ghost use Rattle.shared_registry.specs.Faithful.{IsFaithful};
ghost use Rattle.shared_registry.specs.Passes.{IsSound, EntersIf, recorded, given};
ghost use Rattle.shared_registry.specs.Learned.{RegistryLaws};
ghost use Rattle.shared_registry.specs.Own.{IsOpen, MayHand, MayLook};
ghost use Rattle.shared_registry.specs.Records.{AtRegistry, Adds, RecordsUnlessMemory, AnswersUnlessMemory};

use crate::faithful_registry::FaithfulRegistry;
use crate::laws::registry_laws;
use crate::wakeups::Wakeups;
use alg_registry::{
    Claimed, Ended, Listing, Looked, RefAnswer, RegEntry, RegErr, RegLog, Spec, Wrap,
};
use job_wakeups::{WaitToken, WorkerWakeup};
use std::alloc::{AllocError, Global};
use std::sync::Wait;
use turn_lock::{Pass, Turn, TurnLock};

/// What one caller knows of the registry's history, and its right to take a turn. Its number is the caller; 1 to 16 are
/// workers.
pub type RegPass = Pass<RegEntry>;

/// The registry of many callers. Each call takes one turn at the lock; its answer is the registry's for the history
/// that the turn meets, which is what the pass has seen and then entries of others. `Memory` records nothing.
#[derive(Drop)]
pub struct SharedRegistry {
    lock: TurnLock<FaithfulRegistry>,
    wakeups: Wakeups,
}

/// Whether the call recorded its answer.
fn is_recorded<A>(answer: &Result<A, RegErr>) -> bool
    ensures { result ≡ recorded answer.now }
{
    match answer {
        Err(RegErr::Memory) => false,
        _ => true,
    }
}

/// Whether the call answered something.
fn is_given<A>(answer: &Result<Option<A>, RegErr>) -> bool
    ensures { result ≡ given answer.now }
{
    match answer {
        Ok(Some(_)) => true,
        _ => false,
    }
}

/// Whether a larval began.
fn has_begun(answer: &Result<Looked, RegErr>) -> bool {
    matches!(answer, Ok(Looked::Began(_)))
}

impl SharedRegistry {
    ghost use Rattle.shared_registry.specs.Passes.{IsPassOn};

    /// A registry with the opening entries and no history, and its first pass, which has the number 0.
    pub fn new(alloc: Global) -> Result<(SharedRegistry, RegPass), AllocError>
        ensures { IfOk result (λ r. IsPassOn r.0 r.1 × (knows r.1 ≡ fresh_pass)) }
    {
        let registry = FaithfulRegistry::new(alloc)?;
        let (lock, pass) = TurnLock::new(alloc, registry)?;
        let wakeups = Wakeups::new();
        Ok((SharedRegistry { lock, wakeups }, pass))
    }

    /// Announces a wait for a larval to end.
    pub fn prepare_wait_for_end(&self) -> WaitToken<'_> {
        self.wakeups.prepare_wait_for_end()
    }

    /// From now on a look that begins a larval wakes a worker by these wake-ups, which wake those that sleep on a board
    /// and build for this registry. The first that is given stays.
    pub fn note_workers(&self, workers: WorkerWakeup) {
        self.wakeups.note_workers(workers);
    }

    /// Whether there may be a larval that nobody has claimed: a hint that takes no turn. It is no fact. While a larval
    /// stands that nobody has claimed it is true, from before its look gives the turn back.
    pub fn may_build(&self) -> bool {
        self.wakeups.may_build()
    }

    /// Waits for the pass's turn.
    fn turn<'a, R: Wait>(&'a self, rt: &R, pass: RegPass) -> Turn<'a, FaithfulRegistry>
        requires { IsPassOn self.now pass }
        ensures lock { turn_lock result ≡ self.now.lock }
        ensures sees { turn_knows result ≡ sees (knows pass) (turn_value result) }
        ensures shows { Shows caller_of (knows pass) (turn_value result) }
        ensures faithful { IsFaithful (turn_value result) }
        ensures laws { RegistryLaws }
    {
        registry_laws();
        let mut turn = self.lock.take(rt, pass);
        turn.get().learn();
        turn
    }

    /// Lists a driver of the table, of any priority, which stands on no other and isn't wrapped, and answers its id.
    ///
    /// `Exist` comes where its driver equals the name or the driver of a listed entry, or its name the driver of one;
    /// otherwise `NFile` where 4,096 entries are held. Both are recorded. No worker may call it.
    pub fn enlist<R: Wait>(
        &self,
        rt: &R,
        pass: RegPass,
        spec: Spec,
    ) -> (RegPass, Result<u64, RegErr>)
        requires lock { IsPassOn self.now pass }
        requires outsider { IsFalse (is_worker (knows pass).number) }
        requires alone { spec.below ≡ [] }
        requires plain { spec.wrap ≡ Wrap.Plain }
        requires driver { IsTrue (table.is_driver spec) }
        ensures lock { IsPassOn self.now result.0 }
        ensures turn { RecordsUnlessMemory (knows pass) result.1 (λ h. enlist_result (enlist_answer (rows_of h) spec))
            (λ h. RegEntry.Enlist (knows pass).number spec (enlist_answer (rows_of h) spec)) (knows result.0) }
        ensures sound { IsSound (knows result.0) }
    {
        let by = pass.number();
        let mut turn = self.turn(rt, pass);
        let answer = turn.get().enlist(by, spec);
        let added = is_recorded(&answer);
        (turn.give(added), answer)
    }

    /// Looks for the text of a name within the limits (127 bytes, 8 levels, 4 arguments at each template) that
    /// `nesting` takes: without `plain`, which no worker may do, for any entry; with it, for an entry that isn't
    /// wrapped, where the text is the next child of what the caller claimed last.
    ///
    /// A larval begins where nothing is found and the text has a parenthesis. That wakes a worker, where workers build
    /// for this registry (`note_workers`). `Memory` is the only refusal.
    pub fn look<R: Wait>(
        &self,
        rt: &R,
        pass: RegPass,
        text: &[u8],
        plain: bool,
    ) -> (RegPass, Result<Looked, RegErr>)
        requires lock { IsPassOn self.now pass }
        requires may { MayLook (knows pass) text.now plain }
        ensures lock { IsPassOn self.now result.0 }
        ensures turn { AnswersUnlessMemory (knows pass) result.1 (λ h. look_answer (rows_of h) (larvals_of h) text.now plain)
            (λ h answer. Adds (knows pass) h (RegEntry.Look (knows pass).number text.now plain answer) (knows result.0)) (knows result.0) }
        ensures sound { IsSound (knows result.0) }
    {
        let by = pass.number();
        let mut turn = self.turn(rt, pass);
        let answer = turn.get().look(by, text, plain);
        let began = has_begun(&answer);
        if began {
            self.wakeups.note_begin();
        }
        let added = answer.is_ok();
        let pass = turn.give(added);
        if began {
            self.wakeups.notify_begin();
        }
        (pass, answer)
    }

    /// Claims the larval of this number, or the oldest one that nobody has claimed.
    ///
    /// Answers `None`, and records nothing, where the named one isn't pending and unclaimed, or none is. `Memory` is
    /// the only refusal.
    pub fn claim<R: Wait>(
        &self,
        rt: &R,
        pass: RegPass,
        larval: Option<u64>,
    ) -> (RegPass, Result<Option<Claimed>, RegErr>)
        requires lock { IsPassOn self.now pass }
        ensures lock { IsPassOn self.now result.0 }
        ensures turn { AnswersUnlessMemory (knows pass) result.1 (λ h. claimed_answer (larvals_of h) larval)
            (λ h _. EntersIf (knows pass) h
            (option_map (λ number. RegEntry.Claim (knows pass).number number) (claimed_number (larvals_of h) larval)) (knows result.0))
            (knows result.0) }
        ensures sound { IsSound (knows result.0) }
    {
        let by = pass.number();
        let mut turn = self.turn(rt, pass);
        let answer = turn.get().claim(by, larval);
        let added = is_given(&answer);
        let pass = turn.give(added);
        if added {
            self.wakeups.note_claim();
        }
        (pass, answer)
    }

    /// Ends a larval that the caller is building, with what the templates make of its looks, or with `NoMemory`.
    ///
    /// Of an instance the answer is `Failed(EAGAIN)` where an entry below it is no longer listed; otherwise `Joined`
    /// where an entry of its driver is listed; then `Failed(EEXIST)` and `Failed(ENFILE)` as in `enlist`; otherwise
    /// `Built`, or `NoMemory` in its place. Each is recorded.
    pub fn end<R: Wait>(
        &self,
        rt: &R,
        pass: RegPass,
        larval: u64,
        built: Result<Spec, Ended>,
    ) -> (RegPass, Ended)
        requires lock { IsPassOn self.now pass }
        requires open { IsOpen (knows pass) larval }
        requires handed { MayHand (knows pass) larval built }
        ensures lock { IsPassOn self.now result.0 }
        ensures turn { AtRegistry (knows pass) (λ h. UnlessNoMemory result.1 (result.1 ≡ end_of (end_given (rows_of h) built))
            × OnNoMemory result.1 (MayLack (end_given (rows_of h) built))
            × Adds (knows pass) h (RegEntry.End (knows pass).number larval (unless_memory result.1 (end_given (rows_of h) built)))
            (knows result.0)) }
        ensures sound { IsSound (knows result.0) }
    {
        let by = pass.number();
        let mut turn = self.turn(rt, pass);
        let answer = turn.get().end(by, larval, built);
        let pass = turn.give(true);
        self.wakeups.notify_end();
        (pass, answer)
    }

    /// How the larval ended, of which the pass has seen that it began. Answers `None`, and records nothing, while it is
    /// pending. `Memory` is the only refusal.
    pub fn waited<R: Wait>(
        &self,
        rt: &R,
        pass: RegPass,
        larval: u64,
    ) -> (RegPass, Result<Option<Ended>, RegErr>)
        requires lock { IsPassOn self.now pass }
        requires began { larval < length (texts (knows pass).seen) }
        ensures lock { IsPassOn self.now result.0 }
        ensures turn { AnswersUnlessMemory (knows pass) result.1 (λ h. ended_as h larval)
            (λ h _. EntersIf (knows pass) h
            (option_map (λ _. RegEntry.Waited (knows pass).number larval) (ended_as h larval)) (knows result.0)) (knows result.0) }
        ensures sound { IsSound (knows result.0) }
    {
        let by = pass.number();
        let mut turn = self.turn(rt, pass);
        let answer = turn.get().waited(by, larval);
        let added = is_given(&answer);
        (turn.give(added), answer)
    }

    /// Takes the entry of the driver off the list, and with it what stands on it. `NoEnt` comes where no listed entry
    /// has the driver, and is recorded. No worker may call it.
    pub fn unlist<R: Wait>(
        &self,
        rt: &R,
        pass: RegPass,
        driver: &[u8],
    ) -> (RegPass, Result<(), RegErr>)
        requires lock { IsPassOn self.now pass }
        requires outsider { IsFalse (is_worker (knows pass).number) }
        ensures lock { IsPassOn self.now result.0 }
        ensures turn { RecordsUnlessMemory (knows pass) result.1 (λ h. unlist_result (driver_place (rows_of h) driver.now))
            (λ h. RegEntry.Unlist (knows pass).number driver.now (driver_place (rows_of h) driver.now)) (knows result.0) }
        ensures sound { IsSound (knows result.0) }
    {
        let by = pass.number();
        let mut turn = self.turn(rt, pass);
        let answer = turn.get().unlist(by, driver);
        let added = is_recorded(&answer);
        (turn.give(added), answer)
    }

    /// Takes a reference to a listed entry. `Again` comes where the entry isn't listed, and is recorded. No worker may
    /// call it.
    pub fn take_ref<R: Wait>(&self, rt: &R, pass: RegPass, id: u64) -> (RegPass, Result<(), RegErr>)
        requires lock { IsPassOn self.now pass }
        requires outsider { IsFalse (is_worker (knows pass).number) }
        ensures lock { IsPassOn self.now result.0 }
        ensures turn { RecordsUnlessMemory (knows pass) result.1 (λ h. get_result (is_listed h id))
            (λ h. RegEntry.Get (knows pass).number id (is_listed h id)) (knows result.0) }
        ensures sound { IsSound (knows result.0) }
    {
        let by = pass.number();
        let mut turn = self.turn(rt, pass);
        let answer = turn.get().take_ref(by, id);
        let added = is_recorded(&answer);
        (turn.give(added), answer)
    }

    /// Gives back a reference that the caller has by its own calls. No memory is taken.
    pub fn put_ref<R: Wait>(&self, rt: &R, pass: RegPass, id: u64) -> RegPass
        requires lock { IsPassOn self.now pass }
        requires outsider { IsFalse (is_worker (knows pass).number) }
        requires has { HasReference (knows pass).made (knows pass).number id }
        ensures lock { IsPassOn self.now result }
        ensures turn { AtRegistry (knows pass) (λ h. Adds (knows pass) h (RegEntry.Put (knows pass).number id) (knows result)) }
        ensures sound { IsSound (knows result) }
    {
        let by = pass.number();
        let mut turn = self.turn(rt, pass);
        turn.get().put_ref(by, id);
        turn.give(true)
    }

    /// The references of the newest held entry of the driver. `NoEnt` comes where there is none, and is recorded. No
    /// worker may call it.
    pub fn refs<R: Wait>(
        &self,
        rt: &R,
        pass: RegPass,
        driver: &[u8],
    ) -> (RegPass, Result<RefAnswer, RegErr>)
        requires lock { IsPassOn self.now pass }
        requires outsider { IsFalse (is_worker (knows pass).number) }
        ensures lock { IsPassOn self.now result.0 }
        ensures turn { RecordsUnlessMemory (knows pass) result.1 (λ h. refs_result (refs_answer (rows_of h) driver.now))
            (λ _. RegEntry.Refs (knows pass).number driver.now) (knows result.0) }
        ensures sound { IsSound (knows result.0) }
    {
        let by = pass.number();
        let mut turn = self.turn(rt, pass);
        let answer = turn.get().refs(by, driver);
        let added = is_recorded(&answer);
        (turn.give(added), answer)
    }

    /// The listed entries by id. `Memory` is the only refusal. No worker may call it.
    pub fn list<R: Wait>(&self, rt: &R, pass: RegPass) -> (RegPass, Result<Listing, RegErr>)
        requires lock { IsPassOn self.now pass }
        requires outsider { IsFalse (is_worker (knows pass).number) }
        ensures lock { IsPassOn self.now result.0 }
        ensures turn { AnswersUnlessMemory (knows pass) result.1 (λ h. listing (rows_of h))
            (λ h _. Adds (knows pass) h (RegEntry.List (knows pass).number) (knows result.0)) (knows result.0) }
        ensures sound { IsSound (knows result.0) }
    {
        let by = pass.number();
        let mut turn = self.turn(rt, pass);
        let answer = turn.get().list(by);
        let added = answer.is_ok();
        (turn.give(added), answer)
    }

    /// A copy of the entry as it came to be, held or not; `None` where no entry ever had the id. Nothing is recorded.
    /// `Memory` is the only refusal.
    pub fn origin<R: Wait>(
        &self,
        rt: &R,
        pass: RegPass,
        id: u64,
    ) -> (RegPass, Result<Option<Spec>, RegErr>)
        requires lock { IsPassOn self.now pass }
        ensures lock { IsPassOn self.now result.0 }
        ensures turn { AtRegistry (knows pass) (λ h. IfOk result.1 (λ origin. origin ≡ slice_get (registered h) id)
            × IfErr result.1 (λ e. e ≡ RegErr.Memory) × Leaves (knows pass) h (knows result.0)) }
        ensures sound { IsSound (knows result.0) }
    {
        let mut turn = self.turn(rt, pass);
        let answer = turn.get().origin(id);
        (turn.give(false), answer)
    }

    /// Two passes of one: the first keeps its number, and the second gets this one, which is at least the first's
    /// `next` and below 2^32 - 1. No turn is taken.
    pub fn split(&self, pass: RegPass, number: u32) -> (RegPass, RegPass)
        requires lock { IsPassOn self.now pass }
        requires number { ((knows pass).next ≤ number) × (number + 1 < 2 ^ 32) }
        ensures lock { IsPassOn self.now result.0 × IsPassOn self.now result.1 }
        ensures first { knows result.0 ≡ gives_number number (knows pass) }
        ensures second { knows result.1 ≡ gets_number number (knows pass) }
    {
        self.lock.split(pass, number)
    }

    /// One pass of two, of the number of the first. No turn is taken.
    pub fn join(&self, a: RegPass, b: RegPass) -> RegPass
        requires { IsPassOn self.now a × IsPassOn self.now b }
        ensures lock { IsPassOn self.now result }
        ensures joined { knows result ≡ joined (knows a) (knows b) }
        ensures seen { StartsWith (knows result).seen (knows a).seen × StartsWith (knows result).seen (knows b).seen }
    {
        self.lock.join(a, b)
    }

    /// The history, and no registry any more.
    pub fn finish_all<R: Wait>(self, rt: &R, pass: RegPass) -> RegLog
        requires { IsPassOn self pass }
        ensures shows { Shows caller_of (knows pass) result }
        ensures faithful { IsFaithful result }
    {
        let SharedRegistry { lock, .. } = self;
        lock.finish(rt, pass).into_history()
    }
}
