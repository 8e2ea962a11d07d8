//! How the checker's table of a registry goes on with a right event.

ghost use Rattle.std.specs.Prelude.{◌≡◌, ◌<◌, ◌^◌, ◌++◌, ◌∷◌, [], All, OnOk, map};
ghost use Rattle.std.specs.List.{position_from};
ghost use Rattle.alg_registry.specs.Rows.{end_of};
ghost use Rattle.alg_registry.specs.Calls.{unlisted_row, taken_row, put_row_of, claimed_larval, ended_larval};
ghost use Rattle.trace_check.specs.Registers.{row_of, larval_of, is_of, change_at, without_first, table_after, new_larval, larvals_after, references_after};

use crate::register::{Entry, LarvalState, Reference, add_entry, is_of, mark_all};
use alg_registry::{EndAnswer, Ended, Enlisted, Looked, RegEntry};
use kc_base::Bytes;
use std::alloc::{AllocError, Global};

// Each of these changes one entry, where it is there.
fn unlist_entry(entries: &mut [Entry], id: u64)
    ensures { map row_of entries.new ≡ change_at unlisted_row (map row_of entries.old) id }
{
    let place = id as usize;
    if place < entries.len() {
        let entry = &mut entries[place];
        entry.unlisted = true;
    }
}

fn take_entry(entries: &mut [Entry], id: u64)
    requires { All (λ entry. entry.taken < 2 ^ 63) entries.old }
    ensures { map row_of entries.new ≡ change_at taken_row (map row_of entries.old) id }
{
    let place = id as usize;
    if place < entries.len() {
        let entry = &mut entries[place];
        entry.taken += 1;
    }
}

fn put_entry(entries: &mut [Entry], id: u64)
    ensures { map row_of entries.new ≡ change_at put_row_of (map row_of entries.old) id }
{
    let place = id as usize;
    if place < entries.len() {
        let entry = &mut entries[place];
        entry.taken = entry.taken.saturating_sub(1);
    }
}

/// Goes on by the entries. All marks are made again where one was added or unlisted.
pub(crate) fn advance_entries(
    alloc: Global,
    entries: &mut Vec<Entry>,
    event: &RegEntry,
) -> Result<(), AllocError>
    requires { All (λ entry. entry.taken < 2 ^ 63) entries.old.items }
    ensures { OnOk result (map row_of entries.new.items ≡ table_after (map row_of entries.old.items) event.now) }
{
    match event {
        RegEntry::Enlist {
            spec,
            answer: Enlisted::Made(_),
            ..
        }
        | RegEntry::End {
            answer: EndAnswer::Built(_, spec),
            ..
        } => add_entry(alloc, entries, spec)?,
        RegEntry::Unlist {
            answer: Some(id),
            ..
        } => {
            unlist_entry(entries, *id);
            mark_all(entries);
        }
        RegEntry::Get { id, ok: true, .. } => take_entry(entries, *id),
        RegEntry::Put { id, .. } => put_entry(entries, *id),
        _ => {}
    }
    Ok(())
}

fn claim_larval(larvals: &mut [LarvalState], caller: u32, number: u64)
    ensures { map larval_of larvals.new ≡ change_at (claimed_larval caller) (map larval_of larvals.old) number }
{
    let place = number as usize;
    if place < larvals.len() {
        let larval = &mut larvals[place];
        larval.claimed = Some(caller);
    }
}

fn end_larval(larvals: &mut [LarvalState], number: u64, ended: Ended)
    ensures { map larval_of larvals.new ≡ change_at (ended_larval ended) (map larval_of larvals.old) number }
{
    let place = number as usize;
    if place < larvals.len() {
        let larval = &mut larvals[place];
        larval.ended = Some(ended);
    }
}

fn end_of(answer: &EndAnswer) -> Ended
    ensures { result ≡ end_of answer.now }
{
    match answer {
        EndAnswer::Built(id, _) => Ended::Built(*id),
        EndAnswer::Joined(id, _) => Ended::Joined(*id),
        EndAnswer::Failed(errno) => Ended::Failed(*errno),
        EndAnswer::NoMemory => Ended::NoMemory,
    }
}

fn begin_larval(
    alloc: Global,
    larvals: &mut Vec<LarvalState>,
    text: &[u8],
) -> Result<(), AllocError>
    ensures { OnOk result (map larval_of larvals.new.items ≡ map larval_of larvals.old.items ++ new_larval text.now ∷ []) }
{
    larvals.push(LarvalState {
        text: Bytes::copy_of(alloc, text)?,
        claimed: None,
        ended: None,
    })?;
    Ok(())
}

/// Goes on by the larvals.
pub(crate) fn advance_larvals(
    alloc: Global,
    larvals: &mut Vec<LarvalState>,
    event: &RegEntry,
) -> Result<(), AllocError>
    ensures { OnOk result (map larval_of larvals.new.items ≡ larvals_after (map larval_of larvals.old.items) event.now) }
{
    match event {
        RegEntry::Look {
            text,
            answer: Looked::Began(_),
            ..
        } => begin_larval(alloc, larvals, text.as_slice())?,
        RegEntry::Claim { caller, larval } => claim_larval(larvals, *caller, *larval),
        RegEntry::End { larval, answer, .. } => end_larval(larvals, *larval, end_of(answer)),
        _ => {}
    }
    Ok(())
}

// Where the first reference of this caller to the entry stands.
fn reference_place(references: &[Reference], caller: u32, id: u64) -> Option<usize>
    ensures { result ≡ position_from (is_of caller id) 0 references.now }
{
    references
        .iter()
        .position(|reference| is_of(caller, id, *reference))
}

// Drops it.
fn drop_reference(references: &mut Vec<Reference>, caller: u32, id: u64)
    ensures { references.new.items ≡ without_first (is_of caller id) references.old.items }
{
    if let Some(place) = reference_place(references, caller, id) {
        references.remove(place);
    }
}

/// Goes on by the references.
pub(crate) fn advance_references(
    references: &mut Vec<Reference>,
    event: &RegEntry,
) -> Result<(), AllocError>
    ensures { OnOk result (references.new.items ≡ references_after references.old.items event.now) }
{
    match event {
        RegEntry::Get {
            caller,
            id,
            ok: true,
        } => references.push(Reference {
            caller: *caller,
            id: *id,
        })?,
        RegEntry::Put { caller, id } => drop_reference(references, *caller, *id),
        _ => {}
    }
    Ok(())
}
