//! A registry whose instances are all built by the templates.

ghost use Rattle.std.specs.Prelude.{◌≡◌, ℕ, ◌<◌, ◌++◌, ◌∷◌, [], length, slice_get, ◌||◌, not, IsTrue, IsFalse, IfOk, IfErr, IfSome, OnOk, OnErr, Some, None};
ghost use Rattle.alg_registry.specs.Rows.{rows_of, larvals_of, registered, is_listed, end_of, caller_of};
ghost use Rattle.alg_registry.specs.Answers.{look_answer, enlist_answer, driver_place};
ghost use Rattle.alg_registry.specs.Legal.{LegalReg, is_worker, HasReference, claimer, ended_as};
ghost use Rattle.alg_registry.specs.Calls.{UnlessMemory, OnMemory, UnlessNoMemory, OnNoMemory, MayLack, IsFailure, enlist_result, end_given, unless_memory, unlist_result, get_result, claimed_number, claimed_answer, claim_entries, waited_entries, listing, refs_answer, refs_result};
ghost use Rattle.alg_registry.specs.Made.{Made, IsMade};
ghost use Rattle.alg_registry.specs.declared.entry.RegEntry.{RegEntry};
ghost use Rattle.templates.specs.Table.{table};

use alg_registry::{
    Claimed, Ended, Listing, Looked, RefAnswer, RegEntry, RegErr, RegLog, Registry, Spec, Wrap,
};
use std::alloc::{AllocError, Global};
use std::marker::Model;
use turn_lock::Told;

/// The registry behind the lock. Contracts see it as its history, which is legal, and in which every instance was built
/// by its template.
#[derive(Drop)]
pub struct FaithfulRegistry {
    registry: Registry,
}

impl Model for FaithfulRegistry {
    ghost use Rattle.std.specs.Prelude.{List};
    ghost use Rattle.alg_registry.specs.declared.entry.RegEntry.{RegEntry};
    ghost use Rattle.shared_registry.specs.Faithful.{IsFaithful};

    ghost Value = { List RegEntry };

    ghost view = { λ r. r.registry };

    ghost invariant = { λ r. IsFaithful r.registry };
}

impl Told for FaithfulRegistry {
    type Entry = RegEntry;

    ghost told = { λ history. history };

    ghost by = { caller_of };
}

impl FaithfulRegistry {
    ghost use Rattle.shared_registry.specs.Faithful.{IsFaithful};

    pub(crate) fn new(alloc: Global) -> Result<FaithfulRegistry, AllocError>
        ensures { IfOk result (λ registry. registry ≡ []) }
    {
        Ok(FaithfulRegistry {
            registry: Registry::new(alloc)?,
        })
    }

    /// What is known of every history.
    pub(crate) fn learn(&self)
        ensures { IsFaithful self.now }
    {
        let _ = self.registry.history();
    }

    /// As the registry's `enlist`, for a driver that may be listed.
    pub(crate) fn enlist(&mut self, caller: u32, spec: Spec) -> Result<u64, RegErr>
        requires outsider { IsFalse (is_worker caller) }
        requires alone { spec.below ≡ [] }
        requires plain { spec.wrap ≡ Wrap.Plain }
        requires driver { IsTrue (table.is_driver spec) }
        ensures answer { UnlessMemory result (result ≡ enlist_result (enlist_answer (rows_of self.old) spec)) }
        ensures history { UnlessMemory result
            (self.new ≡ self.old ++ RegEntry.Enlist caller spec (enlist_answer (rows_of self.old) spec) ∷ []) }
        ensures memory { OnMemory result (self.new ≡ self.old) }
        ensures faithful { IsFaithful self.new }
    {
        self.registry.enlist(caller, spec)
    }

    /// As the registry's `look`, for a name, and with `plain` for the next child of what the caller claimed last.
    pub(crate) fn look(&mut self, caller: u32, text: &[u8], plain: bool) -> Result<Looked, RegErr>
        requires caller { IsTrue (plain || not (is_worker caller)) }
        requires next { IsMade table self.old (RegEntry.Look caller text.now plain Looked.Absent) }
        ensures answer { IfOk result (λ answer. answer ≡ look_answer (rows_of self.old) (larvals_of self.old) text.now plain) }
        ensures history { IfOk result (λ answer. self.new ≡ self.old ++ RegEntry.Look caller text.now plain answer ∷ []) }
        ensures memory { IfErr result (λ e. e ≡ RegErr.Memory) }
        ensures unchanged { OnErr result (self.new ≡ self.old) }
        ensures faithful { IsFaithful self.new }
    {
        self.registry.look(caller, text, plain)
    }

    pub(crate) fn claim(
        &mut self,
        caller: u32,
        larval: Option<u64>,
    ) -> Result<Option<Claimed>, RegErr>
        ensures answer { IfOk result (λ claimed. claimed ≡ claimed_answer (larvals_of self.old) larval) }
        ensures history { OnOk result (self.new ≡ self.old ++ claim_entries caller (claimed_number (larvals_of self.old) larval)) }
        ensures memory { IfErr result (λ e. e ≡ RegErr.Memory) }
        ensures unchanged { OnErr result (self.new ≡ self.old) }
        ensures faithful { IsFaithful self.new }
    {
        self.registry.claim(caller, larval)
    }

    /// As the registry's `end`, with what the templates make of the larval.
    pub(crate) fn end(&mut self, caller: u32, larval: u64, built: Result<Spec, Ended>) -> Ended
        requires claimed { claimer self.old larval ≡ Some caller }
        requires unended { ended_as self.old larval ≡ None }
        requires handed { IfErr built (λ failure. IsFailure failure) }
        requires made { IsMade table self.old (RegEntry.End caller larval (end_given (rows_of self.old) built)) }
        ensures answer { UnlessNoMemory result (result ≡ end_of (end_given (rows_of self.old) built)) }
        ensures memory { OnNoMemory result (MayLack (end_given (rows_of self.old) built)) }
        ensures history { self.new
            ≡ self.old ++ RegEntry.End caller larval (unless_memory result (end_given (rows_of self.old) built)) ∷ [] }
        ensures faithful { IsFaithful self.new }
    {
        self.registry.end(caller, larval, built)
    }

    pub(crate) fn waited(&mut self, caller: u32, larval: u64) -> Result<Option<Ended>, RegErr>
        requires { larval < length (larvals_of self.old) }
        ensures answer { IfOk result (λ ended. ended ≡ ended_as self.old larval) }
        ensures history { OnOk result (self.new ≡ self.old ++ waited_entries caller larval (ended_as self.old larval)) }
        ensures memory { IfErr result (λ e. e ≡ RegErr.Memory) }
        ensures unchanged { OnErr result (self.new ≡ self.old) }
        ensures faithful { IsFaithful self.new }
    {
        self.registry.waited(caller, larval)
    }

    pub(crate) fn unlist(&mut self, caller: u32, driver: &[u8]) -> Result<(), RegErr>
        requires { IsFalse (is_worker caller) }
        ensures answer { UnlessMemory result (result ≡ unlist_result (driver_place (rows_of self.old) driver.now)) }
        ensures history { UnlessMemory result
            (self.new ≡ self.old ++ RegEntry.Unlist caller driver.now (driver_place (rows_of self.old) driver.now) ∷ []) }
        ensures memory { OnMemory result (self.new ≡ self.old) }
        ensures faithful { IsFaithful self.new }
    {
        self.registry.unlist(caller, driver)
    }

    pub(crate) fn take_ref(&mut self, caller: u32, id: u64) -> Result<(), RegErr>
        requires { IsFalse (is_worker caller) }
        ensures answer { UnlessMemory result (result ≡ get_result (is_listed self.old id)) }
        ensures history { UnlessMemory result (self.new ≡ self.old ++ RegEntry.Get caller id (is_listed self.old id) ∷ []) }
        ensures memory { OnMemory result (self.new ≡ self.old) }
        ensures faithful { IsFaithful self.new }
    {
        self.registry.take_ref(caller, id)
    }

    pub(crate) fn put_ref(&mut self, caller: u32, id: u64)
        requires outsider { IsFalse (is_worker caller) }
        requires has { HasReference self.old caller id }
        ensures history { self.new ≡ self.old ++ RegEntry.Put caller id ∷ [] }
        ensures faithful { IsFaithful self.new }
    {
        self.registry.put_ref(caller, id)
    }

    pub(crate) fn refs(&mut self, caller: u32, driver: &[u8]) -> Result<RefAnswer, RegErr>
        requires { IsFalse (is_worker caller) }
        ensures answer { UnlessMemory result (result ≡ refs_result (refs_answer (rows_of self.old) driver.now)) }
        ensures history { UnlessMemory result (self.new ≡ self.old ++ RegEntry.Refs caller driver.now ∷ []) }
        ensures memory { OnMemory result (self.new ≡ self.old) }
        ensures faithful { IsFaithful self.new }
    {
        self.registry.refs(caller, driver)
    }

    pub(crate) fn list(&mut self, caller: u32) -> Result<Listing, RegErr>
        requires { IsFalse (is_worker caller) }
        ensures answer { IfOk result (λ rows. rows ≡ listing (rows_of self.old)) }
        ensures history { OnOk result (self.new ≡ self.old ++ RegEntry.List caller ∷ []) }
        ensures memory { IfErr result (λ e. e ≡ RegErr.Memory) }
        ensures unchanged { OnErr result (self.new ≡ self.old) }
        ensures faithful { IsFaithful self.new }
    {
        self.registry.list(caller)
    }

    pub(crate) fn origin(&self, id: u64) -> Result<Option<Spec>, RegErr>
        ensures answer { IfOk result (λ origin. origin ≡ slice_get (registered self.now) id) }
        ensures memory { IfErr result (λ e. e ≡ RegErr.Memory) }
        ensures faithful { IsFaithful self.now }
    {
        self.registry.origin(id)
    }

    pub(crate) fn into_history(self) -> RegLog
        ensures entries { result ≡ self }
        ensures faithful { IsFaithful self }
    {
        let FaithfulRegistry { registry } = self;
        registry.into_history()
    }
}
