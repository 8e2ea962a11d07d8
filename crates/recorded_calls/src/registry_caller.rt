//! A script's calls on the registry.

ghost use Rattle.std.specs.Prelude.{◌≡◌, ℕ, ◌∷◌, [], true, Option as Perhaps, Ok, Some, None, is_some, slice_get, MatchResult, IfOk, OnOk, IsSome, IsTrue, IsFalse};
ghost use Rattle.std.specs.Result.{IsErr};
ghost use Rattle.alg_registry.specs.declared.spec.Wrap.{Wrap};
ghost use Rattle.alg_registry.specs.Legal.{is_worker};
ghost use Rattle.alg_registry.specs.Rows.{registered};
ghost use Rattle.alg_names.specs.Name.{spelling};
ghost use Rattle.templates.specs.Nesting.{is_nested_well};
ghost use Rattle.templates.specs.Table.{table};
ghost use Rattle.shared_registry.specs.Builds.{WasAnswered};
ghost use Rattle.shared_registry.specs.Passes.{IsSound};
ghost use Rattle.dialogues.specs.RegistryCalls.{Enlists, Unlists, Gets, Puts, Counts, Lists};
ghost use Rattle.recorded_calls.specs.Passes.{CallsRegistry, known};
ghost use Rattle.recorded_calls.specs.RegistryCalls.{CallLaws, IsCaller, HasReferenceOf, Asks, Finds, SeesLook, IsResolved, enlisted_as, unlisted_as, got_as, counted_as, listed_as};
ghost use Rattle.recorded_calls.specs.Looks.{Goes, Builds, look_entry, Settles};

use crate::look::Look;
use crate::stop::Stop;
use alg_names::laws::computed_tree;
use alg_names::{Name, print_name};
use alg_registry::{Enlisted, Listing, Looked, RefAnswer, RegErr, Spec};
use dialogues::{calls_at_once, calls_in_turn, references_follow, registry_calls_go_on};
use kc_base::Errno;
use shared_registry::{RegPass, SharedRegistry, resolve, settle};
use std::alloc::Global;
use std::marker::Model;
use std::sync::Wait;
use templates::BuildErr;
use templates::laws::names_in_the_table;

/// Who calls the registry for a script. Its pass is at hand between two calls; contracts see it.
#[derive(Drop)]
pub struct RegistryCaller {
    pass: Option<RegPass>,
}

impl Model for RegistryCaller {
    ghost use Rattle.std.specs.Prelude.{Option};
    ghost use Rattle.recorded_calls.specs.Passes.{RegPass};

    ghost Value = { Option RegPass };

    ghost view = { λ c. c.pass };
}

// what the calls of a caller are
fn call_laws()
    ensures { CallLaws }
{
    calls_in_turn();
    calls_at_once();
    registry_calls_go_on();
}

fn enlisted(answer: Result<u64, RegErr>) -> Result<Enlisted, Stop>
    ensures { MatchResult result (λ how. enlisted_as answer ≡ Some how) (λ _. enlisted_as answer ≡ None) }
{
    match answer {
        Ok(id) => Ok(Enlisted::Made(id)),
        Err(RegErr::Exist) => Ok(Enlisted::Exist),
        Err(RegErr::NFile) => Ok(Enlisted::NFile),
        Err(_) => Err(Stop::Memory),
    }
}

fn unlisted(answer: Result<(), RegErr>) -> Result<bool, Stop>
    ensures { MatchResult result (λ was. unlisted_as answer ≡ Some was) (λ _. unlisted_as answer ≡ None) }
{
    match answer {
        Ok(()) => Ok(true),
        Err(RegErr::NoEnt) => Ok(false),
        Err(_) => Err(Stop::Memory),
    }
}

fn got(answer: Result<(), RegErr>) -> Result<bool, Stop>
    ensures { MatchResult result (λ ok. got_as answer ≡ Some ok) (λ _. got_as answer ≡ None) }
{
    match answer {
        Ok(()) => Ok(true),
        Err(RegErr::Again) => Ok(false),
        Err(_) => Err(Stop::Memory),
    }
}

fn counted(answer: Result<RefAnswer, RegErr>) -> Result<Option<RefAnswer>, Stop>
    ensures { MatchResult result (λ refs. counted_as answer ≡ Some refs) (λ _. counted_as answer ≡ None) }
{
    match answer {
        Ok(refs) => Ok(Some(refs)),
        Err(RegErr::NoEnt) => Ok(None),
        Err(_) => Err(Stop::Memory),
    }
}

fn listed(answer: Result<Listing, RegErr>) -> Result<Listing, Stop>
    ensures { MatchResult result (λ rows. listed_as answer ≡ Some rows) (λ _. listed_as answer ≡ None) }
{
    match answer {
        Ok(rows) => Ok(rows),
        Err(_) => Err(Stop::Memory),
    }
}

fn found(answer: Result<u64, BuildErr>) -> Result<Result<u64, Errno>, Stop>
    ensures { IsResolved answer result }
{
    match answer {
        Ok(id) => Ok(Ok(id)),
        Err(BuildErr::Fault(errno)) => Ok(Err(errno)),
        Err(BuildErr::Memory) => Err(Stop::Memory),
    }
}

fn origin_of(answer: Result<Option<Spec>, RegErr>) -> Result<Spec, Stop>
    requires { IfOk answer (λ origin. IsSome origin) }
    ensures { MatchResult result (λ spec. answer ≡ Ok (Some spec)) (λ _. IsErr answer) }
{
    match answer {
        Ok(origin) => Ok(origin.unwrap()),
        Err(_) => Err(Stop::Memory),
    }
}

fn looked(answer: Result<Looked, RegErr>) -> Result<Looked, Stop>
    ensures { MatchResult result (λ looked. answer ≡ Ok looked) (λ _. IsErr answer) }
{
    match answer {
        Ok(looked) => Ok(looked),
        Err(_) => Err(Stop::Memory),
    }
}

// The table has each name whose wraps stand at the root alone.
fn learn_name(name: &Name)
    requires { is_nested_well name.now ≡ true }
    ensures { table.is_name (spelling name.now) ≡ true }
{
    let _ = name.word();
    computed_tree();
    names_in_the_table();
}

impl RegistryCaller {
    /// A caller with this pass.
    pub fn new(pass: RegPass) -> RegistryCaller
        ensures { result ≡ Some pass }
    {
        RegistryCaller { pass: Some(pass) }
    }

    /// The caller's pass.
    pub fn into_pass(self) -> RegPass
        requires { IsSome self }
        ensures { self ≡ Some result }
    {
        self.pass.unwrap()
    }

    // Takes the caller's pass for a call, which gives one back.
    fn take_pass(&mut self) -> RegPass
        requires { IsSome self.old }
        ensures { self.old ≡ Some result }
    {
        self.pass.take().unwrap()
    }

    /// Lists a driver of the table that stands on no other, and answers its id. `Exist` comes where its driver equals
    /// the name or the driver of a listed entry, or its name the driver of one; otherwise `NFile` where 4,096 entries
    /// are held. Both are recorded. Only want of memory stops it, and then nothing is recorded.
    pub fn enlist<R: Wait>(
        &mut self,
        rt: &R,
        registry: &SharedRegistry,
        spec: Spec,
    ) -> Result<Enlisted, Stop>
        requires at { CallsRegistry registry.now self.old }
        requires caller { IsCaller (known self.old) }
        requires alone { spec.below ≡ [] }
        requires plain { spec.wrap ≡ Wrap.Plain }
        requires driver { IsTrue (table.is_driver spec) }
        ensures { MatchResult result (λ how. Asks self.old self.new (Enlists spec how ∷ [])) (λ _. Asks self.old self.new []) }
    {
        call_laws();
        let pass = self.take_pass();
        let (pass, answer) = registry.enlist(rt, pass, spec);
        self.pass = Some(pass);
        enlisted(answer)
    }

    /// Takes the entry of a driver off the list, and with it what stands on it, and says whether it was there. Only
    /// want of memory stops it, and then nothing is recorded.
    pub fn unlist<R: Wait>(
        &mut self,
        rt: &R,
        registry: &SharedRegistry,
        driver: &[u8],
    ) -> Result<bool, Stop>
        requires at { CallsRegistry registry.now self.old }
        requires caller { IsCaller (known self.old) }
        ensures { MatchResult result
            (λ was. (id : Perhaps ℕ) × (is_some id ≡ was) × Asks self.old self.new (Unlists driver.now id ∷ []))
            (λ _. Asks self.old self.new []) }
    {
        call_laws();
        let pass = self.take_pass();
        let (pass, answer) = registry.unlist(rt, pass, driver);
        self.pass = Some(pass);
        unlisted(answer)
    }

    /// Takes a reference of an entry where it is still listed, and says whether it was. Only want of memory stops it,
    /// and then nothing is recorded.
    pub fn take_ref<R: Wait>(
        &mut self,
        rt: &R,
        registry: &SharedRegistry,
        id: u64,
    ) -> Result<bool, Stop>
        requires at { CallsRegistry registry.now self.old }
        requires caller { IsCaller (known self.old) }
        ensures { MatchResult result (λ ok. Asks self.old self.new (Gets id ok ∷ [])) (λ _. Asks self.old self.new []) }
    {
        call_laws();
        let pass = self.take_pass();
        let (pass, answer) = registry.take_ref(rt, pass, id);
        self.pass = Some(pass);
        got(answer)
    }

    /// Gives back a reference that the caller has. No memory is taken.
    pub fn put_ref<R: Wait>(&mut self, rt: &R, registry: &SharedRegistry, id: u64)
        requires at { CallsRegistry registry.now self.old }
        requires caller { IsCaller (known self.old) }
        requires has { HasReferenceOf (known self.old) id }
        ensures { Asks self.old self.new (Puts id ∷ []) }
    {
        references_follow();
        call_laws();
        let pass = self.take_pass();
        self.pass = Some(registry.put_ref(rt, pass, id));
    }

    /// The references of the newest held entry of the driver, if there is one. Only want of memory stops it, and then
    /// nothing is recorded.
    pub fn refs<R: Wait>(
        &mut self,
        rt: &R,
        registry: &SharedRegistry,
        driver: &[u8],
    ) -> Result<Option<RefAnswer>, Stop>
        requires at { CallsRegistry registry.now self.old }
        requires caller { IsCaller (known self.old) }
        ensures { MatchResult result (λ refs. Asks self.old self.new (Counts driver.now refs ∷ [])) (λ _. Asks self.old self.new []) }
    {
        call_laws();
        let pass = self.take_pass();
        let (pass, answer) = registry.refs(rt, pass, driver);
        self.pass = Some(pass);
        counted(answer)
    }

    /// The listed entries by id. Only want of memory stops it, and then nothing is recorded.
    pub fn list<R: Wait>(&mut self, rt: &R, registry: &SharedRegistry) -> Result<Listing, Stop>
        requires at { CallsRegistry registry.now self.old }
        requires caller { IsCaller (known self.old) }
        ensures { MatchResult result (λ rows. Asks self.old self.new (Lists rows ∷ [])) (λ _. Asks self.old self.new []) }
    {
        call_laws();
        let pass = self.take_pass();
        let (pass, answer) = registry.list(rt, pass);
        self.pass = Some(pass);
        listed(answer)
    }

    /// Looks a name up, builds what is missing or waits for who builds it, and answers the id of the entry. An errno is
    /// what the look comes to where it comes to no entry. Only want of memory stops it: then the look alone may have
    /// been recorded, which may have come to nothing.
    pub fn resolve<R: Wait>(
        &mut self,
        rt: &R,
        alloc: Global,
        registry: &SharedRegistry,
        name: &Name,
    ) -> Result<Result<u64, Errno>, Stop>
        requires at { CallsRegistry registry.now self.old }
        requires caller { IsCaller (known self.old) }
        requires nested { is_nested_well name.now ≡ true }
        ensures { MatchResult result
            (λ found. Finds self.old self.new (spelling name.now) found)
            (λ _. SeesLook self.old self.new (spelling name.now)) }
    {
        call_laws();
        let pass = self.take_pass();
        let (pass, answer) = resolve(rt, alloc, registry, pass, name, false);
        self.pass = Some(pass);
        found(answer)
    }

    /// A copy of an entry that the caller has seen, as it came to be. Nothing is recorded. Only want of memory stops
    /// it.
    pub fn origin<R: Wait>(
        &mut self,
        rt: &R,
        registry: &SharedRegistry,
        id: u64,
    ) -> Result<Spec, Stop>
        requires at { CallsRegistry registry.now self.old }
        requires caller { IsCaller (known self.old) }
        requires seen { IsSome (slice_get (registered (known self.old).seen) id) }
        ensures { MatchResult result
            (λ spec. Asks self.old self.new [] × (slice_get (registered (known self.old).seen) id ≡ Some spec))
            (λ _. Asks self.old self.new []) }
    {
        registry_calls_go_on();
        call_laws();
        let pass = self.take_pass();
        let (pass, answer) = registry.origin(rt, pass, id);
        self.pass = Some(pass);
        origin_of(answer)
    }

    /// Looks a name up, and leaves what it comes to for `settle`. Only want of memory stops it, and then nothing is
    /// recorded.
    pub fn look<R: Wait>(
        &mut self,
        rt: &R,
        alloc: Global,
        registry: &SharedRegistry,
        name: Name,
    ) -> Result<Look, Stop>
        requires at { CallsRegistry registry.now self.old }
        requires outsider { IsFalse (is_worker (known self.old).number) }
        requires nested { is_nested_well name ≡ true }
        ensures looks { MatchResult result
            (λ look. (look.text ≡ spelling name) × Goes self.old self.new (look_entry (known self.old).number look ∷ []))
            (λ _. Goes self.old self.new []) }
        ensures sound { OnOk result (IsSound (known self.new)) }
    {
        learn_name(&name);
        let text = print_name(alloc, &name)?;
        let pass = self.take_pass();
        let (pass, answer) = registry.look(rt, pass, text.as_slice(), false);
        self.pass = Some(pass);
        let looked = looked(answer)?;
        Ok(Look { name, looked })
    }

    // A copy of an entry that the pass has seen, as it came to be.
    fn entry<R: Wait>(&mut self, rt: &R, registry: &SharedRegistry, id: u64) -> Result<Spec, Stop>
        requires at { CallsRegistry registry.now self.old }
        requires seen { IsSome (slice_get (registered (known self.old).seen) id) }
        ensures { MatchResult result
            (λ spec. Goes self.old self.new [] × (slice_get (registered (known self.old).seen) id ≡ Some spec))
            (λ _. Goes self.old self.new []) }
    {
        registry_calls_go_on();
        let pass = self.take_pass();
        let (pass, answer) = registry.origin(rt, pass, id);
        self.pass = Some(pass);
        origin_of(answer)
    }

    /// What a look of the caller's comes to: a copy of the entry as it came to be, or an errno. What is missing is
    /// built, or waited for where others build it. Only want of memory stops it, and then no further look was made.
    pub fn settle<R: Wait>(
        &mut self,
        rt: &R,
        alloc: Global,
        registry: &SharedRegistry,
        look: &Look,
    ) -> Result<Result<Spec, Errno>, Stop>
        requires at { CallsRegistry registry.now self.old }
        requires sound { IsSound (known self.old) }
        requires answered { WasAnswered (known self.old) look.now.text look.now.looked }
        ensures { MatchResult result (λ found. Settles self.old self.new look.now.looked found) (λ _. Builds self.old self.new) }
    {
        registry_calls_go_on();
        let pass = self.take_pass();
        let (pass, answer) = settle(rt, alloc, registry, pass, &look.name, look.looked);
        self.pass = Some(pass);
        match found(answer)? {
            Ok(id) => Ok(Ok(self.entry(rt, registry, id)?)),
            Err(errno) => Ok(Err(errno)),
        }
    }
}
