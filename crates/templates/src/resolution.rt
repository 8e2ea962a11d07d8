//! Looking an instance up, and building it where it isn't there, children first.

ghost use Rattle.std.specs.Prelude.{◌≡◌, ℕ, ◌+◌, ◌<◌, ◌++◌, ◌||◌, not, IsTrue, IsFalse, true, false, Ok, Err, Some, None, IfOk, IfErr, OnOk, length, List, [], ◌∷◌};
ghost use Rattle.std.specs.List.{filter_map, cons_option};
ghost use Rattle.alg_names.specs.Name.{spelling};
ghost use Rattle.alg_registry.specs.Rows.{rows_of, registered, larvals_of};
ghost use Rattle.alg_registry.specs.Calls.{claimed_number};
ghost use Rattle.alg_registry.specs.Answers.{built_answer, look_answer};
ghost use Rattle.alg_registry.specs.Legal.{LegalReg, is_worker, claimer, ended_as};
ghost use Rattle.alg_registry.specs.declared.entry.RegEntry.{RegEntry};
ghost use Rattle.alg_registry.specs.Made.{Made, IsMade, with_spec};
ghost use Rattle.templates.specs.Names.{IsKnown};
ghost use Rattle.templates.specs.Nesting.{is_nested_well};
ghost use Rattle.templates.specs.Table.{table, children_of};
ghost use Rattle.templates.specs.Resolution.{weight, AreAbove, Resolves, IsOpen, Within, LooksCome, ChildFailed, Builds, EndsWith, Grows, AllEnded};
ghost use Rattle.templates.specs.LookResults.{Resolved, UnlessMemory, NonePending};

use crate::{BuildErr, children, derive};
use alg_names::laws::computed_tree;
use alg_names::{Name, print_name};
use alg_registry::{Ended, Looked, Registry, Spec};
use kc_base::Errno;
use std::alloc::Global;

/// What is known of every name.
fn learn_name(name: &Name)
    ensures { IsKnown name.now }
{
    let _ = name.word();
    computed_tree();
}

/// Looks for the spelling of the name. Want of memory leaves the history as it was.
fn look_for(
    alloc: Global,
    registry: &mut Registry,
    caller: u32,
    name: &Name,
    plain: bool,
) -> Result<Looked, BuildErr>
    requires { IsTrue (plain || not (is_worker caller)) }
    ensures answer { IfOk result
        (λ answer. look_answer (rows_of registry.old) (larvals_of registry.old) (spelling name.now) plain ≡ answer) }
    ensures history { IfOk result (λ answer. registry.new ≡ registry.old ++ RegEntry.Look caller (spelling name.now) plain answer ∷ []) }
    ensures legal { OnOk result (LegalReg registry.old) }
    ensures memory { IfErr result (λ e. (e ≡ BuildErr.Memory) × (registry.new ≡ registry.old)) }
    ensures known { IsKnown name.now }
{
    learn_name(name);
    let text = print_name(alloc, name)?;
    match registry.look(caller, text.as_slice(), plain) {
        Ok(answer) => Ok(answer),
        Err(_) => Err(BuildErr::Memory),
    }
}

/// Adds the entry with the id, as it came to be.
fn add_origin(registry: &Registry, below: &mut Vec<(u64, Spec)>, id: u64) -> Result<(), BuildErr>
    ensures ok { OnOk result (below.new.items ≡ below.old.items ++ cons_option (with_spec (registered registry.now) id) []) }
    ensures err { IfErr result (λ e. e ≡ BuildErr.Memory) }
{
    match registry.origin(id) {
        Ok(Some(spec)) => {
            below.push((id, spec))?;
            Ok(())
        }
        Ok(None) => Ok(()),
        Err(_) => Err(BuildErr::Memory),
    }
}

/// The entries with these ids, as they came to be.
fn origins(alloc: Global, registry: &Registry, ids: &[u64]) -> Result<Vec<(u64, Spec)>, BuildErr>
    ensures ok { IfOk result (λ below. below.items ≡ filter_map (with_spec (registered registry.now)) ids.now) }
    ensures err { IfErr result (λ e. e ≡ BuildErr.Memory) }
{
    let mut below = Vec::new(alloc);
    for id in ids {
        add_origin(registry, &mut below, *id)?;
    }
    Ok(below)
}

/// Claims the larval that has just begun.
fn claim_begun(registry: &mut Registry, caller: u32, larval: u64) -> Result<(), BuildErr>
    requires { claimed_number (larvals_of registry.old) (Some larval) ≡ Some larval }
    ensures ok { OnOk result (registry.new ≡ registry.old ++ RegEntry.Claim caller larval ∷ []) }
    ensures err { IfErr result (λ e. (e ≡ BuildErr.Memory) × (registry.new ≡ registry.old)) }
{
    match registry.claim(caller, Some(larval)) {
        Ok(Some(_)) => Ok(()),
        Ok(None) => unreachable!(),
        Err(_) => Err(BuildErr::Memory),
    }
}

/// Ends the larval with what was built, or with why nothing was.
fn finish(
    registry: &mut Registry,
    caller: u32,
    larval: u64,
    built: Result<Spec, BuildErr>,
) -> Result<u64, BuildErr>
    requires claimed { claimer registry.old larval ≡ Some caller }
    requires unended { ended_as registry.old larval ≡ None }
    ensures { EndsWith caller larval registry.old registry.new built result }
{
    let given = match built {
        Ok(spec) => Ok(spec),
        Err(BuildErr::Fault(errno)) => Err(Ended::Failed(errno)),
        Err(BuildErr::Memory) => Err(Ended::NoMemory),
    };
    match registry.end(caller, larval, given) {
        Ended::Built(id) | Ended::Joined(id) => Ok(id),
        Ended::Failed(errno) => Err(BuildErr::Fault(errno)),
        Ended::NoMemory => Err(BuildErr::Memory),
    }
}

/// Looks for each child in turn, until one comes to a failure.
#[cycle(resolve)]
fn resolve_children(
    alloc: Global,
    registry: &mut Registry,
    caller: u32,
    name: &Name,
    larval: u64,
    asked: &[Name],
) -> Result<Vec<u64>, BuildErr>
    requires known { IsKnown name.now }
    requires begun { IsOpen caller larval name.now registry.old }
    requires asked { children_of name.now ≡ Ok asked.now }
    requires nested { is_nested_well name.now ≡ true }
    ensures ok { IfOk result (λ ids. LooksCome caller larval (Ok ids.items) registry.old registry.new
        × (length ids.items ≡ length asked.now)) }
    ensures err { IfErr result (λ e. ChildFailed caller larval registry.old registry.new e) }
{
    let mut ids = Vec::new(alloc);
    for child in asked {
        learn_name(child);
        let id = resolve_within(alloc, registry, caller, child, true)?;
        ids.push(id)?;
    }
    Ok(ids)
}

/// Builds the instance of the name for the larval that the caller has claimed.
#[cycle(resolve)]
fn build(
    alloc: Global,
    registry: &mut Registry,
    caller: u32,
    name: &Name,
    larval: u64,
) -> Result<Spec, BuildErr>
    requires known { IsKnown name.now }
    requires begun { IsOpen caller larval name.now registry.old }
    requires nested { is_nested_well name.now ≡ true }
    ensures { Builds caller larval registry.old registry.new result }
{
    let asked = children(alloc, name)?;
    let ids = resolve_children(alloc, registry, caller, name, larval, &asked)?;
    let below = origins(alloc, registry, &ids)?;
    derive(alloc, name, &below)
}

/// Looks for the name, and builds it where a larval began.
#[cycle(resolve)]
fn resolve_within(
    alloc: Global,
    registry: &mut Registry,
    caller: u32,
    name: &Name,
    plain: bool,
) -> Result<u64, BuildErr>
    requires caller { IsTrue (plain || not (is_worker caller)) }
    requires made { Made table registry.old }
    requires next { IsMade table registry.old (RegEntry.Look caller (spelling name.now) plain Looked.Absent) }
    requires above { AreAbove registry.old (weight name.now + 1) }
    requires nested { is_nested_well name.now ≡ true }
    ensures { Resolves caller (spelling name.now) plain registry.old registry.new result }
{
    let answer = look_for(alloc, registry, caller, name, plain)?;
    match answer {
        Looked::Found(id) => Ok(id),
        Looked::Absent => Err(BuildErr::Fault(Errno::ENOENT)),
        Looked::Pending(_) => unreachable!(),
        Looked::Began(larval) => {
            claim_begun(registry, caller, larval)?;
            let built = build(alloc, registry, caller, name, larval);
            finish(registry, caller, larval, built)
        }
    }
}

/// Looks for the name, and builds it where it isn't there, children first from left to right: the id of the entry that
/// answers to it.
///
/// `nesting` takes the name. It may be called while the caller builds something heavier, for the next child of what it
/// claimed last (`plain` is true); where `plain` is false the caller is no worker. `Fault` is what the look comes to
/// where it comes to no entry: ENOENT where nothing answers to a word, or the number with which the name's building
/// ended. `Memory` leaves a legal history of faithful builds, and maybe pending larvals.
pub fn resolve_alone(
    alloc: Global,
    registry: &mut Registry,
    caller: u32,
    name: &Name,
    plain: bool,
) -> Result<u64, BuildErr>
    requires caller { IsTrue (plain || not (is_worker caller)) }
    requires made { Made table registry.old }
    requires next { IsMade table registry.old (RegEntry.Look caller (spelling name.now) plain Looked.Absent) }
    requires above { AreAbove registry.old (weight name.now + 1) }
    requires nested { is_nested_well name.now ≡ true }
    ensures looked { Resolved registry.old registry.new caller (spelling name.now) plain result }
    ensures grows { Grows caller registry.old registry.new }
    ensures ended { UnlessMemory result (AllEnded registry.old registry.new) }
    ensures legal { LegalReg registry.new }
{
    let found = resolve_within(alloc, registry, caller, name, plain);
    // What the registry says of its history.
    let _ = registry.history();
    found
}

/// The same where nothing is being built, as for a script's line: nothing is pending then afterwards, unless memory ran
/// out. The caller is no worker.
pub fn resolve_outright(
    alloc: Global,
    registry: &mut Registry,
    caller: u32,
    name: &Name,
) -> Result<u64, BuildErr>
    requires caller { IsFalse (is_worker caller) }
    requires made { Made table registry.old }
    requires none { NonePending registry.old }
    requires nested { is_nested_well name.now ≡ true }
    ensures looked { Resolved registry.old registry.new caller (spelling name.now) false result }
    ensures grows { Grows caller registry.old registry.new }
    ensures none { UnlessMemory result (NonePending registry.new) }
{
    learn_name(name);
    resolve_alone(alloc, registry, caller, name, false)
}
