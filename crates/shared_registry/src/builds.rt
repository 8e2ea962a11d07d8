//! Looking an instance up, and building it where it isn't there, children first, beside others who do the same.

ghost use Rattle.std.specs.Prelude.{◌≡◌, ℕ, ◌+◌, ◌<◌, ◌++◌, IsTrue, Ok, Err, Some, None, IfOk, IfErr, OnOk, MatchResult, length, slice_get, List, [], ◌∷◌, true};
ghost use Rattle.std.specs.List.{filter_map, AllByRecursion};
ghost use Rattle.alg_names.specs.Name.{spelling};
ghost use Rattle.alg_registry.specs.declared.entry.RegEntry.{RegEntry};
ghost use Rattle.alg_registry.specs.Rows.{registered, texts};
ghost use Rattle.alg_registry.specs.Made.{with_spec};
ghost use Rattle.alg_registry.specs.Legal.{ended_as};
ghost use Rattle.templates.specs.Nesting.{is_nested_well};
ghost use Rattle.templates.specs.Table.{table, children_of};
ghost use Rattle.turn_lock.specs.Passes.{knows};
ghost use Rattle.shared_registry.specs.Passes.{IsSound, IsPassOn};
ghost use Rattle.shared_registry.specs.Learned.{IsLearned, RegistryLaws};
ghost use Rattle.shared_registry.specs.Own.{IsOpen, MayLook};
ghost use Rattle.shared_registry.specs.Builds.{Works, Looks, Comes, Resolves, Ends, Resolved, Settled, WasAnswered, HasText, BuiltOne};
ghost use Rattle.shared_registry.specs.Ready.{IsSoundOn, CanBuild};
ghost use Rattle.shared_registry.specs.Within.{MayResolve, Idles, Within, Begins, ChildrenCome, Builds, EndsAs, ended_result, given_result, HasCome, Closes, BeginsText};

use crate::laws::registry_laws;
use crate::registry_lock::{RegPass, SharedRegistry};
use alg_names::laws::{computed_tree, one_name};
use alg_names::{Name, parse_name, print_name};
use alg_registry::{Claimed, Ended, Looked, Spec};
use kc_base::Errno;
use std::alloc::{AllocError, Global};
use std::sync::Wait;
use templates::laws::names_in_the_table;
use templates::{BuildErr, children, derive};

/// What is known of every name, and of every history.
fn learn_name(name: &Name)
    ensures { IsLearned name.now }
{
    let _ = name.word();
    computed_tree();
    names_in_the_table();
    registry_laws();
}

/// What a larval that ended so came to.
fn came_of(ended: Ended) -> Result<u64, BuildErr>
    ensures { result ≡ ended_result ended }
{
    match ended {
        Ended::Built(id) | Ended::Joined(id) => Ok(id),
        Ended::Failed(errno) => Err(BuildErr::Fault(errno)),
        Ended::NoMemory => Err(BuildErr::Memory),
    }
}

/// What is handed in where this came of building.
pub(crate) fn given_of(built: Result<Spec, BuildErr>) -> Result<Spec, Ended>
    ensures { result ≡ given_result built }
{
    match built {
        Ok(spec) => Ok(spec),
        Err(BuildErr::Fault(errno)) => Err(Ended::Failed(errno)),
        Err(BuildErr::Memory) => Err(Ended::NoMemory),
    }
}

/// That a larval came to something.
fn has_come(came: Result<u64, BuildErr>) -> Result<bool, AllocError>
    ensures { MatchResult result (λ it. (it ≡ true) × HasCome came) (λ _. came ≡ Err BuildErr.Memory) }
{
    match came {
        Err(BuildErr::Memory) => Err(AllocError),
        _ => Ok(true),
    }
}

/// Looks for the spelling of the name.
pub(crate) fn look_for<R: Wait>(
    rt: &R,
    alloc: Global,
    registry: &SharedRegistry,
    pass: RegPass,
    name: &Name,
    plain: bool,
) -> (RegPass, Result<Looked, BuildErr>)
    requires lock { IsPassOn registry.now pass }
    requires may { MayResolve (knows pass) (spelling name.now) plain }
    requires nested { is_nested_well name.now ≡ true }
    ensures lock { IsPassOn registry.now result.0 }
    ensures sound { IsSound (knows pass) → IsSound (knows result.0) }
    ensures ok { IfOk result.1 (λ looked. Looks (knows pass) (knows result.0) (spelling name.now) plain looked
        × HasText (knows result.0).seen (spelling name.now) looked) }
    ensures err { IfErr result.1 (λ e. (e ≡ BuildErr.Memory) × Works (knows pass) (knows result.0)) }
    ensures known { IsLearned name.now }
{
    learn_name(name);
    match print_name(alloc, name) {
        Ok(text) => {
            let (pass, looked) = registry.look(rt, pass, text.as_slice(), plain);
            match looked {
                Ok(looked) => (pass, Ok(looked)),
                Err(_) => (pass, Err(BuildErr::Memory)),
            }
        }
        Err(_) => (pass, Err(BuildErr::Memory)),
    }
}

/// Waits until the larval has ended. It sleeps between two turns until some larval ends.
fn wait_for<R: Wait>(
    rt: &R,
    registry: &SharedRegistry,
    pass: RegPass,
    larval: u64,
) -> (RegPass, Result<u64, BuildErr>)
    requires ready { IsSoundOn registry.now pass }
    requires began { larval < length (texts (knows pass).seen) }
    requires laws { RegistryLaws }
    ensures ready { IsSoundOn registry.now result.0 }
    ensures works { Works (knows pass) (knows result.0) }
    ensures ends { Ends (knows result.0) larval result.1 }
{
    let mut mine = pass;
    for _ in rt.forever() {
        let wait_token = registry.prepare_wait_for_end();
        let (back, ended) = registry.waited(rt, mine, larval);
        match ended {
            Ok(answer) => match answer {
                Some(ended) => return (back, came_of(ended)),
                None => mine = back,
            },
            Err(_) => return (back, Err(BuildErr::Memory)),
        }
        wait_token.wait(rt);
    }
    unreachable!()
}

/// Adds the entry with the id, as it came to be.
fn add_origin<R: Wait>(
    rt: &R,
    registry: &SharedRegistry,
    pass: RegPass,
    below: &mut Vec<(u64, Spec)>,
    id: u64,
) -> (RegPass, Result<(), BuildErr>)
    requires lock { IsPassOn registry.now pass }
    requires exists { id < length (registered (knows pass).seen) }
    ensures lock { IsPassOn registry.now result.0 }
    ensures idles { Idles (knows pass) (knows result.0) }
    ensures ok { OnOk result.1 (below.new.items ≡ below.old.items ++ filter_map (with_spec (registered (knows result.0).seen)) (id ∷ [])) }
    ensures err { IfErr result.1 (λ e. e ≡ BuildErr.Memory) }
{
    let (pass, origin) = registry.origin(rt, pass, id);
    match origin {
        Ok(answer) => match answer {
            Some(spec) => match below.push((id, spec)) {
                Ok(()) => (pass, Ok(())),
                Err(_) => (pass, Err(BuildErr::Memory)),
            },
            None => unreachable!(),
        },
        Err(_) => (pass, Err(BuildErr::Memory)),
    }
}

/// The entries with these ids, as they came to be.
fn origins<R: Wait>(
    rt: &R,
    alloc: Global,
    registry: &SharedRegistry,
    pass: RegPass,
    ids: &[u64],
) -> (RegPass, Result<Vec<(u64, Spec)>, BuildErr>)
    requires ready { IsSoundOn registry.now pass }
    requires exist { AllByRecursion (λ id. id < length (registered (knows pass).seen)) ids.now }
    ensures lock { IsPassOn registry.now result.0 }
    ensures idles { Idles (knows pass) (knows result.0) }
    ensures ok { IfOk result.1 (λ below. below.items ≡ filter_map (with_spec (registered (knows result.0).seen)) ids.now) }
    ensures err { IfErr result.1 (λ e. e ≡ BuildErr.Memory) }
{
    let mut below = Vec::new(alloc);
    let mut mine = pass;
    for id in ids {
        let (back, added) = add_origin(rt, registry, mine, &mut below, *id);
        mine = back;
        match added {
            Ok(()) => {}
            Err(_) => return (mine, Err(BuildErr::Memory)),
        }
    }
    (mine, Ok(below))
}

/// Ends the larval with what was built, or with why nothing was.
fn finish<R: Wait>(
    rt: &R,
    registry: &SharedRegistry,
    pass: RegPass,
    larval: u64,
    built: Result<Spec, BuildErr>,
) -> (RegPass, Result<u64, BuildErr>)
    requires ready { IsSoundOn registry.now pass }
    requires open { IsOpen (knows pass) larval }
    requires builds { Builds (knows pass) larval built }
    ensures ready { IsSoundOn registry.now result.0 }
    ensures ended { EndsAs (knows pass) (knows result.0) larval result.1 }
{
    let (pass, ended) = registry.end(rt, pass, larval, given_of(built));
    (pass, came_of(ended))
}

/// Looks for each child in turn, until one comes to a failure.
#[cycle(resolve)]
fn resolve_children<R: Wait>(
    rt: &R,
    alloc: Global,
    registry: &SharedRegistry,
    pass: RegPass,
    name: &Name,
    larval: u64,
    asked: &[Name],
) -> (RegPass, Result<Vec<u64>, BuildErr>)
    requires ready { CanBuild registry.now pass name.now }
    requires begins { Begins larval name.now (knows pass) }
    requires asked { children_of name.now ≡ Ok asked.now }
    ensures ready { IsSoundOn registry.now result.0 }
    ensures within { Within larval (knows pass) (knows result.0) }
    ensures ok { IfOk result.1 (λ ids. ChildrenCome (knows result.0) larval (length asked.now) (Ok ids.items)) }
    ensures err { IfErr result.1 (λ e. ChildrenCome (knows result.0) larval (length asked.now) (Err e)) }
{
    let mut ids = Vec::new(alloc);
    let mut mine = pass;
    for child in asked {
        learn_name(child);
        let (back, found) = resolve_within(rt, alloc, registry, mine, child, true);
        mine = back;
        let id = match found {
            Ok(id) => id,
            Err(e) => return (mine, Err(e)),
        };
        match ids.push(id) {
            Ok(()) => {}
            Err(_) => return (mine, Err(BuildErr::Memory)),
        }
    }
    (mine, Ok(ids))
}

/// Builds the instance of the name for the larval that the caller claimed last.
#[cycle(resolve)]
pub(crate) fn build<R: Wait>(
    rt: &R,
    alloc: Global,
    registry: &SharedRegistry,
    pass: RegPass,
    name: &Name,
    larval: u64,
) -> (RegPass, Result<Spec, BuildErr>)
    requires ready { CanBuild registry.now pass name.now }
    requires begins { Begins larval name.now (knows pass) }
    ensures ready { IsSoundOn registry.now result.0 }
    ensures within { Within larval (knows pass) (knows result.0) }
    ensures builds { Builds (knows result.0) larval result.1 }
{
    let asked = match children(alloc, name) {
        Ok(asked) => asked,
        Err(e) => return (pass, Err(e)),
    };
    let (pass, ids) = resolve_children(rt, alloc, registry, pass, name, larval, &asked);
    let ids = match ids {
        Ok(ids) => ids,
        Err(e) => return (pass, Err(e)),
    };
    let (pass, below) = origins(rt, alloc, registry, pass, &ids);
    match below {
        Ok(below) => (pass, derive(alloc, name, &below)),
        Err(e) => (pass, Err(e)),
    }
}

/// Builds for the larval that the caller claimed last, and ends it.
#[cycle(resolve)]
fn build_claimed<R: Wait>(
    rt: &R,
    alloc: Global,
    registry: &SharedRegistry,
    pass: RegPass,
    name: &Name,
    larval: u64,
) -> (RegPass, Result<u64, BuildErr>)
    requires ready { CanBuild registry.now pass name.now }
    requires begins { Begins larval name.now (knows pass) }
    ensures ready { IsSoundOn registry.now result.0 }
    ensures closes { Closes larval (knows pass) (knows result.0) }
    ensures ends { Ends (knows result.0) larval result.1 }
    ensures wanting { result.1 ≡ Err BuildErr.Memory → ended_as (knows result.0).seen larval ≡ Some Ended.NoMemory }
{
    let (pass, built) = build(rt, alloc, registry, pass, name, larval);
    finish(rt, registry, pass, larval, built)
}

/// Builds for the larval, or waits until another caller has ended it.
#[cycle(resolve)]
fn settle_larval<R: Wait>(
    rt: &R,
    alloc: Global,
    registry: &SharedRegistry,
    pass: RegPass,
    name: &Name,
    larval: u64,
) -> (RegPass, Result<u64, BuildErr>)
    requires ready { CanBuild registry.now pass name.now }
    requires sound { IsSound (knows pass) }
    requires begun { slice_get (texts (knows pass).seen) larval ≡ Some (spelling name.now) }
    ensures ready { IsSoundOn registry.now result.0 }
    ensures works { Works (knows pass) (knows result.0) }
    ensures ends { Ends (knows result.0) larval result.1 }
{
    let (pass, claimed) = registry.claim(rt, pass, Some(larval));
    let answer = match claimed {
        Ok(answer) => answer,
        Err(_) => return (pass, Err(BuildErr::Memory)),
    };
    match answer {
        Some(_) => {}
        None => return wait_for(rt, registry, pass, larval),
    }
    build_claimed(rt, alloc, registry, pass, name, larval)
}

/// What the look comes to, which the caller builds itself where nobody else does.
#[cycle(resolve)]
fn settle_within<R: Wait>(
    rt: &R,
    alloc: Global,
    registry: &SharedRegistry,
    pass: RegPass,
    name: &Name,
    looked: Looked,
) -> (RegPass, Result<u64, BuildErr>)
    requires ready { CanBuild registry.now pass name.now }
    requires sound { IsSound (knows pass) }
    requires text { HasText (knows pass).seen (spelling name.now) looked }
    ensures ready { IsSoundOn registry.now result.0 }
    ensures works { Works (knows pass) (knows result.0) }
    ensures comes { Comes (knows result.0) looked result.1 }
{
    match looked {
        Looked::Found(id) => (pass, Ok(id)),
        Looked::Absent => (pass, Err(BuildErr::Fault(Errno::ENOENT))),
        Looked::Pending(larval) | Looked::Began(larval) => {
            settle_larval(rt, alloc, registry, pass, name, larval)
        }
    }
}

/// Looks for the name, and settles what was answered.
#[cycle(resolve)]
fn resolve_within<R: Wait>(
    rt: &R,
    alloc: Global,
    registry: &SharedRegistry,
    pass: RegPass,
    name: &Name,
    plain: bool,
) -> (RegPass, Result<u64, BuildErr>)
    requires lock { IsPassOn registry.now pass }
    requires may { MayResolve (knows pass) (spelling name.now) plain }
    requires nested { is_nested_well name.now ≡ true }
    ensures lock { IsPassOn registry.now result.0 }
    ensures sound { IsSound (knows pass) → IsSound (knows result.0) }
    ensures resolves { Resolves (knows pass) (knows result.0) (spelling name.now) plain result.1 }
{
    let (pass, looked) = look_for(rt, alloc, registry, pass, name, plain);
    match looked {
        Ok(looked) => settle_within(rt, alloc, registry, pass, name, looked),
        Err(e) => (pass, Err(e)),
    }
}

/// Looks for the name, and builds it where a larval of it is pending that nobody has claimed, children first from left
/// to right; where another caller builds it, waits for its end.
///
/// `nesting` takes the name. Without `plain` the caller is no worker; with it the name is the next child of what the
/// caller claimed last. `Fault` is what the look comes to where it comes to no entry. However it ends, no larval that
/// this call claimed is left unended.
pub fn resolve<R: Wait>(
    rt: &R,
    alloc: Global,
    registry: &SharedRegistry,
    pass: RegPass,
    name: &Name,
    plain: bool,
) -> (RegPass, Result<u64, BuildErr>)
    requires lock { IsPassOn registry.now pass }
    requires may { MayResolve (knows pass) (spelling name.now) plain }
    requires nested { is_nested_well name.now ≡ true }
    ensures lock { IsPassOn registry.now result.0 }
    ensures sound { IsSound (knows pass) → IsSound (knows result.0) }
    ensures looked { Resolved (knows pass) (knows result.0) (spelling name.now) plain result.1 }
{
    learn_name(name);
    resolve_within(rt, alloc, registry, pass, name, plain)
}

/// What `resolve` does after its look, with its errors, for a look of the name that this pass made. `nesting` takes the
/// name.
pub fn settle<R: Wait>(
    rt: &R,
    alloc: Global,
    registry: &SharedRegistry,
    pass: RegPass,
    name: &Name,
    looked: Looked,
) -> (RegPass, Result<u64, BuildErr>)
    requires lock { IsPassOn registry.now pass }
    requires sound { IsSound (knows pass) }
    requires answered { WasAnswered (knows pass) (spelling name.now) looked }
    requires nested { is_nested_well name.now ≡ true }
    ensures lock { IsPassOn registry.now result.0 }
    ensures sound { IsSound (knows result.0) }
    ensures works { Works (knows pass) (knows result.0) }
    ensures settled { Settled (knows result.0) looked result.1 }
{
    learn_name(name);
    settle_within(rt, alloc, registry, pass, name, looked)
}

/// Builds for the larval of the text that the caller claimed last, and ends it.
fn build_text<R: Wait>(
    rt: &R,
    alloc: Global,
    registry: &SharedRegistry,
    pass: RegPass,
    larval: u64,
    text: &[u8],
) -> (RegPass, Result<u64, BuildErr>)
    requires lock { IsPassOn registry.now pass }
    requires begins { BeginsText larval text.now (knows pass) }
    ensures ready { IsSoundOn registry.now result.0 }
    ensures closes { Closes larval (knows pass) (knows result.0) }
    ensures ends { Ends (knows result.0) larval result.1 }
    ensures wanting { result.1 ≡ Err BuildErr.Memory → ended_as (knows result.0).seen larval ≡ Some Ended.NoMemory }
{
    one_name();
    computed_tree();
    registry_laws();
    let name = match parse_name(alloc, text) {
        Ok(name) => name,
        // The text of a larval is a name within the limits, so memory ran out.
        Err(_) => return finish(rt, registry, pass, larval, Err(BuildErr::Memory)),
    };
    learn_name(&name);
    build_claimed(rt, alloc, registry, pass, &name, larval)
}

/// Claims the oldest larval that nobody has claimed and ends it, built as `resolve` builds. False where there is none.
///
/// The error is that memory ran out: a larval that was claimed is then ended with `NoMemory`.
pub fn build_one<R: Wait>(
    rt: &R,
    alloc: Global,
    registry: &SharedRegistry,
    pass: RegPass,
) -> (RegPass, Result<bool, AllocError>)
    requires lock { IsPassOn registry.now pass }
    ensures lock { IsPassOn registry.now result.0 }
    ensures sound { IsSound (knows result.0) }
    ensures works { Works (knows pass) (knows result.0) }
    ensures built { BuiltOne (knows pass) (knows result.0) result.1 }
{
    let (pass, claimed) = registry.claim(rt, pass, None);
    let answer = match claimed {
        Ok(answer) => answer,
        Err(_) => return (pass, Err(AllocError)),
    };
    let begun = match answer {
        Some(begun) => begun,
        None => return (pass, Ok(false)),
    };
    let Claimed { larval, text } = begun;
    let (pass, came) = build_text(rt, alloc, registry, pass, larval, text.as_slice());
    (pass, has_come(came))
}
