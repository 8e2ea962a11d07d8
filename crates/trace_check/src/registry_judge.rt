//! A registry's events judged by the checker's table.

ghost use Rattle.std.specs.Prelude.{◌≡◌, true, not, map, IfOk};
ghost use Rattle.alg_registry.specs.Answers.{look_answer, driver_place};
ghost use Rattle.alg_registry.specs.Legal.{is_worker};
ghost use Rattle.trace_check.specs.Pipes.{reason_of};
ghost use Rattle.trace_check.specs.Registers.{row_of, larval_of, enlisted_by, builds_by, same_made, alike_made, same_place, alike_place, end_numbered, end_answered, judged};

use crate::held::is_full;
use crate::pipe::is_worker;
use crate::reason::{Reason, reason_of};
use crate::register::{
    Entry, LarvalState, Reference, against_found, against_made, against_place, are_listed,
    do_clash, driver_place, has_ended_at, has_reference, is_being_built_at, is_claimed_at,
    is_free_at, is_listed, is_referenced, look, same_flag,
};
use alg_registry::{EndAnswer, Enlisted, RegEntry, Spec};
use std::alloc::{AllocError, Global};

fn enlisted_by(alloc: Global, entries: &[Entry], spec: &Spec) -> Result<Enlisted, AllocError>
    ensures { IfOk result (λ made. made ≡ enlisted_by (map row_of entries.now) spec.now) }
{
    if do_clash(entries, spec) {
        Ok(Enlisted::Exist)
    } else if is_full(alloc, entries)? {
        Ok(Enlisted::NFile)
    } else {
        Ok(Enlisted::Made(entries.len() as u64))
    }
}

fn builds_by(alloc: Global, entries: &[Entry], spec: &Spec) -> Result<bool, AllocError>
    ensures { IfOk result (λ builds. builds ≡ builds_by (map row_of entries.now) spec.now) }
{
    Ok(
        are_listed(entries, spec.below.as_slice())
            && (driver_place(entries, spec.driver.as_slice()).is_none()
                && (!do_clash(entries, spec) && !is_full(alloc, entries)?)),
    )
}

fn end_numbered(entries: &[Entry], answer: &EndAnswer) -> bool
    ensures { result ≡ end_numbered (map row_of entries.now) answer.now }
{
    match answer {
        EndAnswer::Built(id, _) => *id == entries.len() as u64,
        EndAnswer::Joined(id, _) => is_listed(entries, *id),
        EndAnswer::Failed(_) | EndAnswer::NoMemory => true,
    }
}

fn end_answered(alloc: Global, entries: &[Entry], answer: &EndAnswer) -> Result<bool, AllocError>
    ensures { IfOk result (λ answered. answered ≡ end_answered (map row_of entries.now) answer.now) }
{
    match answer {
        EndAnswer::Built(_, spec) => builds_by(alloc, entries, spec),
        EndAnswer::Joined(_, below) => Ok(are_listed(entries, below.as_slice())),
        EndAnswer::Failed(_) | EndAnswer::NoMemory => Ok(true),
    }
}

fn judge_enlist(
    alloc: Global,
    entries: &[Entry],
    caller: u32,
    spec: &Spec,
    answer: Enlisted,
) -> Result<Option<Reason>, AllocError>
    ensures { IfOk result (λ reason. reason ≡ reason_of true
        (not (is_worker caller))
        (same_made answer (enlisted_by (map row_of entries.now) spec.now))
        (alike_made answer (enlisted_by (map row_of entries.now) spec.now))) }
{
    if is_worker(caller) {
        return Ok(Some(Reason::Caller));
    }
    Ok(against_made(answer, enlisted_by(alloc, entries, spec)?))
}

fn judge_unlist(
    entries: &[Entry],
    caller: u32,
    driver: &[u8],
    answer: Option<u64>,
) -> Option<Reason>
    ensures { result ≡ reason_of true
        (not (is_worker caller))
        (same_place answer (driver_place (map row_of entries.now) driver.now))
        (alike_place answer (driver_place (map row_of entries.now) driver.now)) }
{
    if is_worker(caller) {
        return Some(Reason::Caller);
    }
    against_place(answer, driver_place(entries, driver))
}

/// The first reason against an event, where there is one.
pub(crate) fn judge_registry(
    alloc: Global,
    entries: &[Entry],
    larvals: &[LarvalState],
    references: &[Reference],
    event: &RegEntry,
) -> Result<Option<Reason>, AllocError>
    ensures { IfOk result (λ reason. reason ≡ judged (map row_of entries.now) (map larval_of larvals.now) references.now event.now) }
{
    match event {
        RegEntry::Enlist {
            caller,
            spec,
            answer,
        } => judge_enlist(alloc, entries, *caller, spec, *answer),
        RegEntry::Look {
            caller,
            text,
            plain,
            answer,
        } => {
            if !*plain && is_worker(*caller) {
                return Ok(Some(Reason::Caller));
            }
            let right = look(alloc, entries, larvals, text.as_slice(), *plain)?;
            Ok(against_found(*answer, right))
        }
        RegEntry::Claim { larval, .. } => {
            Ok(reason_of(is_free_at(larvals, *larval), true, true, true))
        }
        RegEntry::End {
            caller,
            larval,
            answer,
        } => Ok(reason_of(
            is_being_built_at(larvals, *larval),
            is_claimed_at(larvals, *caller, *larval),
            end_numbered(entries, answer),
            end_answered(alloc, entries, answer)?,
        )),
        RegEntry::Waited { larval, .. } => {
            Ok(reason_of(has_ended_at(larvals, *larval), true, true, true))
        }
        RegEntry::Unlist {
            caller,
            driver,
            answer,
        } => Ok(judge_unlist(entries, *caller, driver.as_slice(), *answer)),
        RegEntry::Get { caller, id, ok } => Ok(reason_of(
            true,
            !is_worker(*caller),
            true,
            same_flag(*ok, is_listed(entries, *id)),
        )),
        RegEntry::Put { caller, id } => Ok(reason_of(
            is_referenced(references, *id),
            !is_worker(*caller) && has_reference(references, *caller, *id),
            true,
            true,
        )),
        RegEntry::Refs { caller, .. } | RegEntry::List { caller } => {
            Ok(reason_of(true, !is_worker(*caller), true, true))
        }
    }
}
