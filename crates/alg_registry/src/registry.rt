//! The registry and its calls.

ghost use Rattle.std.specs.Prelude.{◌≡◌, ℕ, ◌+◌, ◌^◌, ◌<◌, ◌++◌, All, ◌∷◌, [], IfOk, IfErr, IfSome, OnOk, OnErr, IsTrue, IsFalse, ◌||◌, not, length, slice_get, Ok, Some, None, is_some, false};
ghost use Rattle.std.specs.Option.{option_copied, option_map_or, option_map};
ghost use Rattle.alg_registry.specs.Rows.{standing, registered, registered_by, opened, end_of, is_held, is_held_at, rows_of, larvals_of, is_listed};
ghost use Rattle.alg_registry.specs.Answers.{driver_place, look_answer, enlist_answer, built_answer};
ghost use Rattle.alg_registry.specs.Legal.{LegalReg, is_worker, HasReference, claimer, ended_as, MayEnd};
ghost use Rattle.alg_registry.specs.Calls.{UnlessMemory, OnMemory, UnlessNoMemory, OnNoMemory, MayLack, Judges, IsFailure, enlist_result, end_given, unless_memory, unlist_result, get_result, claimed_number, claimed_answer, claim_entries, waited_entries, listing, refs_answer, refs_result, held_spec, new_row};

use crate::entry::{Claimed, EndAnswer, Ended, Enlisted, Looked, RefAnswer, RegEntry, RegErr};
use crate::history::RegLog;
use crate::ids::Ids;
use crate::larvals::Larvals;
use crate::listing::{Listing, listing_of, newest_held};
use crate::look_answers::look_up;
use crate::mark_counts::{are_listed, is_listed_at, is_row_held};
use crate::row::Row;
use crate::rows::Rows;
use crate::spec::{Kind, Spec, Wrap};
use kc_base::{Bytes, Errno};
use std::alloc::{AllocError, Global};
use std::marker::Model;

/// How many entries the registry holds at most.
const MOST_HELD: usize = 4096;

/// The registry. Contracts see it as its history, which is legal. The callers 1 to 16 are workers.
#[derive(Drop)]
pub struct Registry {
    alloc: Global,
    log: RegLog,
    /// Every entry that ever was, by id.
    rows: Rows,
    /// Every larval that ever was, by number.
    larvals: Larvals,
}

impl Model for Registry {
    ghost use Rattle.std.specs.Prelude.{List};
    ghost use Rattle.alg_registry.specs.declared.entry.RegEntry.{RegEntry};
    ghost use Rattle.alg_registry.specs.Kept.{IsRegistry};

    ghost Value = { List RegEntry };

    ghost view = { λ r. r.log };

    ghost invariant = { λ r. IsRegistry r.log r.rows.list r.larvals.list r.larvals.seen };
}

/// What is to become of an instance that was built.
#[derive(Clone, Copy, Debug, PartialEq, Eq)]
enum Judged {
    Fails(Errno),
    Joins(u64),
    Builds,
}

fn origin_of(alloc: Global, rows: &[Row], id: u64) -> Result<Option<Spec>, RegErr>
    ensures ok { IfOk result (λ origin. origin ≡ option_map (λ row. row.spec) (slice_get rows.now id)) }
    ensures err { IfErr result (λ e. e ≡ RegErr.Memory) }
{
    match rows.get(id as usize) {
        Some(row) => Ok(Some(row.spec.copy(alloc)?)),
        None => Ok(None),
    }
}

fn held_spec_at(rows: &[Row], id: u64) -> Option<&Spec>
    ensures held { is_some result ≡ option_map_or is_held (slice_get rows.now id) false }
    ensures spec { option_copied result ≡ held_spec rows.now id }
{
    match rows.get(id as usize) {
        Some(row) => {
            if is_row_held(row) {
                Some(&row.spec)
            } else {
                None
            }
        }
        None => None,
    }
}

/// What is to become of an instance that was built.
fn judge(rows: &Rows, spec: &Spec) -> Judged
    ensures { Judges rows.now.list spec.now result }
{
    if !are_listed(rows.all(), spec.below.as_slice()) {
        return Judged::Fails(Errno::EAGAIN);
    }
    if let Some(id) = rows.place_of_driver(spec.driver.as_slice()) {
        return Judged::Joins(id);
    }
    if rows.clashes(spec) {
        return Judged::Fails(Errno::EEXIST);
    }
    if rows.count_held() >= MOST_HELD {
        return Judged::Fails(Errno::ENFILE);
    }
    Judged::Builds
}

/// What enlisting an algorithm answers.
fn answer_to(rows: &Rows, spec: &Spec) -> Enlisted
    ensures { result ≡ enlist_answer rows.now.list spec.now }
{
    if rows.clashes(spec) {
        Enlisted::Exist
    } else if rows.count_held() >= MOST_HELD {
        Enlisted::NFile
    } else {
        Enlisted::Made(rows.count())
    }
}

/// The id of the new entry, or why there is none.
fn result_of(answer: Enlisted) -> Result<u64, RegErr>
    ensures { result ≡ enlist_result answer }
{
    match answer {
        Enlisted::Made(id) => Ok(id),
        Enlisted::Exist => Err(RegErr::Exist),
        Enlisted::NFile => Err(RegErr::NFile),
    }
}

/// Records a look. Want of memory leaves the history as it was.
fn record_look(
    alloc: Global,
    log: &mut RegLog,
    caller: u32,
    text: &[u8],
    plain: bool,
    answer: Looked,
) -> Result<(), RegErr>
    ensures ok { OnOk result (log.new ≡ log.old ++ RegEntry.Look caller text.now plain answer ∷ []) }
    ensures memory { IfErr result (λ e. e ≡ RegErr.Memory) }
    ensures unchanged { OnErr result (log.new ≡ log.old) }
{
    let text = Bytes::copy_of(alloc, text)?;
    log.record(RegEntry::Look {
        caller,
        text,
        plain,
        answer,
    })
}

/// An algorithm that is listed from the start.
fn opened_spec(alloc: Global, name: &[u8], driver: &[u8], kind: Kind) -> Result<Spec, AllocError>
    ensures { IfOk result (λ spec. spec ≡ opened name.now driver.now kind) }
{
    Ok(Spec {
        name: Bytes::copy_of(alloc, name)?,
        driver: Bytes::copy_of(alloc, driver)?,
        kind,
        wrap: Wrap::Plain,
        priority: 100,
        below: Ids::new(alloc),
    })
}

/// Lists an algorithm from the start.
fn open(
    alloc: Global,
    rows: &mut Rows,
    name: &[u8],
    driver: &[u8],
    kind: Kind,
) -> Result<(), AllocError>
    requires { All (λ row. row.taken < 2 ^ 61) rows.old.list }
    ensures { OnOk result (rows.new.list ≡ standing (rows.old.list ++ new_row (opened name.now driver.now kind) ∷ [])) }
{
    let spec = opened_spec(alloc, name, driver, kind)?;
    if rows.reserve().is_err() {
        return Err(AllocError);
    }
    rows.add(spec);
    Ok(())
}

impl Registry {
    /// The opening entries `aes`, `sha256` and `ghash`, with the ids 0 to 2, and no history.
    pub fn new(alloc: Global) -> Result<Registry, AllocError>
        ensures { IfOk result (λ registry. registry ≡ []) }
    {
        let mut rows = Rows::new(alloc);
        open(alloc, &mut rows, b"aes", b"aes-generic", Kind::Cipher)?;
        open(alloc, &mut rows, b"sha256", b"sha256-generic", Kind::Hash)?;
        open(alloc, &mut rows, b"ghash", b"ghash-generic", Kind::Ghash)?;
        Ok(Registry {
            alloc,
            log: RegLog::empty(alloc),
            rows,
            larvals: Larvals::new(alloc),
        })
    }

    /// Lists an algorithm that stands on no other and isn't wrapped, and answers its id. The caller is no worker.
    ///
    /// `Exist` comes where its driver equals the name or the driver of a listed entry, or its name equals the driver
    /// of one; otherwise `NFile` where 4,096 entries are held. Both are recorded. `Memory` leaves all as it was.
    pub fn enlist(&mut self, caller: u32, spec: Spec) -> Result<u64, RegErr>
        requires outsider { IsFalse (is_worker caller) }
        requires alone { spec.below ≡ [] }
        requires plain { spec.wrap ≡ Wrap.Plain }
        ensures answer { UnlessMemory result (result ≡ enlist_result (enlist_answer (rows_of self.old) spec)) }
        ensures history { UnlessMemory result
            (self.new ≡ self.old ++ RegEntry.Enlist caller spec (enlist_answer (rows_of self.old) spec) ∷ []) }
        ensures memory { OnMemory result (self.new ≡ self.old) }
        ensures legal { LegalReg self.new }
    {
        let answer = answer_to(&self.rows, &spec);
        if let Enlisted::Made(_) = answer {
            self.rows.reserve()?;
            let copy = spec.copy(self.alloc)?;
            self.log.record(RegEntry::Enlist {
                caller,
                spec,
                answer,
            })?;
            self.rows.add(copy);
            return result_of(answer);
        }
        self.log.record(RegEntry::Enlist {
            caller,
            spec,
            answer,
        })?;
        result_of(answer)
    }

    /// Looks for what answers to the text. With `plain` only entries that are not wrapped count; without it the caller
    /// is no worker.
    ///
    /// A listed entry whose driver is the text is found. Otherwise, of the listed entries whose name is the text, or
    /// with which a larval of the text ended, the one of greatest priority is found, and of equal priorities the
    /// newest. Where there is none, a larval of the text is pending, or begins where the text has a `(`. `Memory` is
    /// the only refusal, and leaves all as it was.
    pub fn look(&mut self, caller: u32, text: &[u8], plain: bool) -> Result<Looked, RegErr>
        requires { IsTrue (plain || not (is_worker caller)) }
        ensures answer { IfOk result (λ answer. answer ≡ look_answer (rows_of self.old) (larvals_of self.old) text.now plain) }
        ensures history { IfOk result (λ answer. self.new ≡ self.old ++ RegEntry.Look caller text.now plain answer ∷ []) }
        ensures memory { IfErr result (λ e. e ≡ RegErr.Memory) }
        ensures unchanged { OnErr result (self.new ≡ self.old) }
        ensures legal_before { LegalReg self.old }
        ensures legal { LegalReg self.new }
    {
        let answer = look_up(self.alloc, &self.rows, &self.larvals, text, plain)?;
        if let Looked::Began(_) = answer {
            self.larvals.reserve()?;
            let begun = Bytes::copy_of(self.alloc, text)?;
            record_look(self.alloc, &mut self.log, caller, text, plain, answer)?;
            self.larvals.begin(begun);
            return Ok(answer);
        }
        record_look(self.alloc, &mut self.log, caller, text, plain, answer)?;
        Ok(answer)
    }

    /// Claims the larval of this number, or the oldest one that nobody has claimed, for the caller to build and `end`.
    ///
    /// Answers `None`, and records nothing, where the named one isn't pending and unclaimed, or no larval is. `Memory`
    /// is the only refusal, and leaves all as it was. The room of the entry that `end` records is kept from here on.
    pub fn claim(&mut self, caller: u32, larval: Option<u64>) -> Result<Option<Claimed>, RegErr>
        ensures answer { IfOk result (λ claimed. claimed ≡ claimed_answer (larvals_of self.old) larval) }
        ensures history { OnOk result (self.new ≡ self.old ++ claim_entries caller (claimed_number (larvals_of self.old) larval)) }
        ensures memory { IfErr result (λ e. e ≡ RegErr.Memory) }
        ensures unchanged { OnErr result (self.new ≡ self.old) }

        // The larval that was claimed is the caller's to end.
        ensures claimed { IfOk result (λ claimed. IfSome claimed (λ it. claimer self.new it.larval ≡ Some caller)) }
        ensures unended { IfOk result (λ claimed. IfSome claimed (λ it. ended_as self.new it.larval ≡ None)) }
        ensures legal { LegalReg self.new }
    {
        match self.larvals.to_claim(larval) {
            Some(number) => {
                let text = self.larvals.copy_text(self.alloc, number)?;
                self.log.record(RegEntry::Claim {
                    caller,
                    larval: number,
                })?;
                self.larvals.claim(number, caller);
                Ok(Some(Claimed {
                    larval: number,
                    text,
                }))
            }
            None => Ok(None),
        }
    }

    /// Ends a larval with an answer that registers nothing.
    fn end_with(&mut self, caller: u32, larval: u64, answer: EndAnswer, ended: Ended)
        requires claimed { claimer self.old larval ≡ Some caller }
        requires unended { ended_as self.old larval ≡ None }
        requires may { MayEnd self.old answer }
        requires none { registered_by (RegEntry.End caller larval answer) ≡ None }
        requires same { ended ≡ end_of answer }
        ensures history { self.new ≡ self.old ++ RegEntry.End caller larval answer ∷ [] }
        ensures legal { LegalReg self.new }
    {
        self.log.settle(RegEntry::End {
            caller,
            larval,
            answer,
        });
        self.larvals.end(larval, ended);
    }

    /// Ends a larval with an instance that nothing stands against, or for want of memory.
    fn end_built(&mut self, caller: u32, larval: u64, spec: Spec) -> Ended
        requires claimed { claimer self.old larval ≡ Some caller }
        requires unended { ended_as self.old larval ≡ None }
        requires builds { built_answer (rows_of self.old) spec ≡ EndAnswer.Built (length (rows_of self.old)) spec }
        ensures answer { UnlessNoMemory result (result ≡ end_of (built_answer (rows_of self.old) spec)) }
        ensures history { self.new
            ≡ self.old ++ RegEntry.End caller larval (unless_memory result (built_answer (rows_of self.old) spec)) ∷ [] }
        ensures legal { LegalReg self.new }
    {
        let id = self.rows.count();
        let Ok(copy) = spec.copy(self.alloc) else {
            self.end_with(caller, larval, EndAnswer::NoMemory, Ended::NoMemory);
            return Ended::NoMemory;
        };
        if self.rows.reserve().is_err() {
            self.end_with(caller, larval, EndAnswer::NoMemory, Ended::NoMemory);
            return Ended::NoMemory;
        }
        self.log.settle(RegEntry::End {
            caller,
            larval,
            answer: EndAnswer::Built(id, spec),
        });
        self.larvals.end(larval, Ended::Built(id));
        self.rows.add(copy);
        Ended::Built(id)
    }

    /// Ends a larval that the caller claimed, with the instance that was built, or with why there is none.
    ///
    /// Of an instance the answer is `Failed(EAGAIN)` where an entry below it is no longer listed; otherwise `Joined`
    /// where an entry of its driver is listed; then `Failed(EEXIST)` and `Failed(ENFILE)` as in `enlist`; otherwise
    /// `Built`. `NoMemory` comes where it was handed in, or in place of `Built` for want of memory. Each is recorded,
    /// and recording takes no memory.
    pub fn end(&mut self, caller: u32, larval: u64, built: Result<Spec, Ended>) -> Ended
        requires claimed { claimer self.old larval ≡ Some caller }
        requires unended { ended_as self.old larval ≡ None }
        requires handed { IfErr built (λ failure. IsFailure failure) }
        ensures answer { UnlessNoMemory result (result ≡ end_of (end_given (rows_of self.old) built)) }
        ensures memory { OnNoMemory result (MayLack (end_given (rows_of self.old) built)) }
        ensures history { self.new
            ≡ self.old ++ RegEntry.End caller larval (unless_memory result (end_given (rows_of self.old) built)) ∷ [] }
        ensures legal { LegalReg self.new }
    {
        match built {
            Ok(spec) => match judge(&self.rows, &spec) {
                Judged::Fails(errno) => {
                    let ended = Ended::Failed(errno);
                    self.end_with(caller, larval, EndAnswer::Failed(errno), ended);
                    ended
                }
                Judged::Joins(id) => {
                    let Spec { below, .. } = spec;
                    let ended = Ended::Joined(id);
                    self.end_with(caller, larval, EndAnswer::Joined(id, below), ended);
                    ended
                }
                Judged::Builds => self.end_built(caller, larval, spec),
            },
            Err(Ended::Failed(errno)) => {
                let ended = Ended::Failed(errno);
                self.end_with(caller, larval, EndAnswer::Failed(errno), ended);
                ended
            }
            Err(_) => {
                self.end_with(caller, larval, EndAnswer::NoMemory, Ended::NoMemory);
                Ended::NoMemory
            }
        }
    }

    /// How the larval ended, which has begun. Answers `None`, and records nothing, while it is pending. `Memory` is the
    /// only refusal, and leaves all as it was.
    pub fn waited(&mut self, caller: u32, larval: u64) -> Result<Option<Ended>, RegErr>
        requires { larval < length (larvals_of self.old) }
        ensures answer { IfOk result (λ ended. ended ≡ ended_as self.old larval) }
        ensures history { OnOk result (self.new ≡ self.old ++ waited_entries caller larval (ended_as self.old larval)) }
        ensures memory { IfErr result (λ e. e ≡ RegErr.Memory) }
        ensures unchanged { OnErr result (self.new ≡ self.old) }
        ensures legal { LegalReg self.new }
    {
        match self.larvals.ended(larval) {
            Some(ended) => {
                self.log.record(RegEntry::Waited { caller, larval })?;
                Ok(Some(ended))
            }
            None => Ok(None),
        }
    }

    /// Takes the entry of the driver off the list, and with it what stands on it. Who has a reference keeps the entry.
    /// The caller is no worker.
    ///
    /// `NoEnt` comes where no listed entry has the driver, and is recorded. `Memory` leaves all as it was.
    pub fn unlist(&mut self, caller: u32, driver: &[u8]) -> Result<(), RegErr>
        requires { IsFalse (is_worker caller) }
        ensures answer { UnlessMemory result (result ≡ unlist_result (driver_place (rows_of self.old) driver.now)) }
        ensures history { UnlessMemory result
            (self.new ≡ self.old ++ RegEntry.Unlist caller driver.now (driver_place (rows_of self.old) driver.now) ∷ []) }
        ensures memory { OnMemory result (self.new ≡ self.old) }
        ensures legal { LegalReg self.new }
    {
        let text = Bytes::copy_of(self.alloc, driver)?;
        match self.rows.place_of_driver(driver) {
            Some(id) => {
                self.log.record(RegEntry::Unlist {
                    caller,
                    driver: text,
                    answer: Some(id),
                })?;
                self.rows.unlist(id as usize);
                self.larvals.forget_unlisted(self.rows.all());
                Ok(())
            }
            None => {
                self.log.record(RegEntry::Unlist {
                    caller,
                    driver: text,
                    answer: None,
                })?;
                Err(RegErr::NoEnt)
            }
        }
    }

    /// Takes a reference to a listed entry. The room of the entry that `put_ref` records is kept from here on.
    /// The caller is no worker.
    ///
    /// `Again` comes where the entry isn't listed, and is recorded. `Memory` leaves all as it was.
    pub fn take_ref(&mut self, caller: u32, id: u64) -> Result<(), RegErr>
        requires { IsFalse (is_worker caller) }
        ensures answer { UnlessMemory result (result ≡ get_result (is_listed self.old id)) }
        ensures history { UnlessMemory result (self.new ≡ self.old ++ RegEntry.Get caller id (is_listed self.old id) ∷ []) }
        ensures memory { OnMemory result (self.new ≡ self.old) }
        ensures legal { LegalReg self.new }
    {
        if is_listed_at(self.rows.all(), id) {
            self.log.record(RegEntry::Get {
                caller,
                id,
                ok: true,
            })?;
            self.rows.take(id as usize);
            Ok(())
        } else {
            self.log.record(RegEntry::Get {
                caller,
                id,
                ok: false,
            })?;
            Err(RegErr::Again)
        }
    }

    /// Gives a reference of the caller back. An entry that is neither listed nor referenced is gone. No memory is
    /// taken. The caller is no worker.
    pub fn put_ref(&mut self, caller: u32, id: u64)
        requires outsider { IsFalse (is_worker caller) }
        requires has { HasReference self.old caller id }
        ensures history { self.new ≡ self.old ++ RegEntry.Put caller id ∷ [] }
        ensures legal { LegalReg self.new }
    {
        self.log.settle(RegEntry::Put { caller, id });
        self.rows.put(id as usize);
    }

    /// The references of the newest held entry of the driver. The caller is no worker.
    ///
    /// `NoEnt` comes where no held entry has the driver, and is recorded. `Memory` leaves all as it was.
    pub fn refs(&mut self, caller: u32, driver: &[u8]) -> Result<RefAnswer, RegErr>
        requires { IsFalse (is_worker caller) }
        ensures answer { UnlessMemory result (result ≡ refs_result (refs_answer (rows_of self.old) driver.now)) }
        ensures history { UnlessMemory result (self.new ≡ self.old ++ RegEntry.Refs caller driver.now ∷ []) }
        ensures memory { OnMemory result (self.new ≡ self.old) }
        ensures legal { LegalReg self.new }
    {
        let text = Bytes::copy_of(self.alloc, driver)?;
        let found = newest_held(&self.rows, driver);
        self.log.record(RegEntry::Refs {
            caller,
            driver: text,
        })?;
        match found {
            Some(answer) => Ok(answer),
            None => Err(RegErr::NoEnt),
        }
    }

    /// The listed entries by id. `Memory` is the only refusal, and leaves all as it was. The caller is no worker.
    pub fn list(&mut self, caller: u32) -> Result<Listing, RegErr>
        requires { IsFalse (is_worker caller) }
        ensures answer { IfOk result (λ rows. rows ≡ listing (rows_of self.old)) }
        ensures history { OnOk result (self.new ≡ self.old ++ RegEntry.List caller ∷ []) }
        ensures memory { IfErr result (λ e. e ≡ RegErr.Memory) }
        ensures unchanged { OnErr result (self.new ≡ self.old) }
        ensures legal { LegalReg self.new }
    {
        let rows = listing_of(self.alloc, &self.rows)?;
        self.log.record(RegEntry::List { caller })?;
        Ok(rows)
    }

    /// The entry, while it is held.
    pub fn spec(&self, id: u64) -> Option<&Spec>
        ensures held { is_some result ≡ is_held_at self.now id }
        ensures spec { option_copied result ≡ held_spec (rows_of self.now) id }
    {
        held_spec_at(self.rows.all(), id)
    }

    /// A copy of the entry as it came to be, held or not. `None` where no entry ever had the id. `Memory` is the only
    /// refusal. Nothing is recorded.
    pub fn origin(&self, id: u64) -> Result<Option<Spec>, RegErr>
        ensures answer { IfOk result (λ origin. origin ≡ slice_get (registered self.now) id) }
        ensures memory { IfErr result (λ e. e ≡ RegErr.Memory) }
        ensures legal { LegalReg self.now }
    {
        origin_of(self.alloc, self.rows.all(), id)
    }

    /// The history so far.
    pub fn history(&self) -> &RegLog
        ensures entries { result.now ≡ self.now }
        ensures legal { LegalReg self.now }
    {
        &self.log
    }

    /// The history, and no registry any more. No memory is taken.
    pub fn into_history(self) -> RegLog
        ensures entries { result ≡ self }
        ensures legal { LegalReg self }
    {
        let Registry { log, .. } = self;
        log
    }
}
