//! What the checker keeps of a registry.

ghost use Rattle.std.specs.Prelude.{◌≡◌, ◌&&◌, ◌||◌, ◌<◌, ◌++◌, ◌∷◌, [], IfOk, OnOk, true, map, take, length, slice_index_or};
ghost use Rattle.std.specs.List.{list_any, list_all, position_from};
ghost use Rattle.std.specs.Str.{bytes_eq};
ghost use Rattle.alg_registry.specs.Rows.{listed_at, stays_listed, marked};
ghost use Rattle.alg_registry.specs.Answers.{may_find, better, best_from, not_found, clashes_with, is_pending, is_template, look_answer, driver_place};
ghost use Rattle.alg_registry.specs.Calls.{new_row};
ghost use Rattle.trace_check.specs.declared.register.Entry.{Entry};
ghost use Rattle.trace_check.specs.Held.{AreMarked, end_ids, AreJoined};
ghost use Rattle.trace_check.specs.Registers.{row_of, larval_of, is_to, is_of, is_free, is_being_built, has_ended, is_claimed_by, passes, same_made, alike_made, same_found, alike_found, same_place, alike_place, same_flag};
ghost use Rattle.trace_check.specs.Pipes.{reason_of};

use crate::event_parser::is_same;
use crate::held::mark_ids;
use crate::reason::{Reason, reason_of};
use alg_registry::{Ended, Enlisted, Looked, Spec, Wrap};
use kc_base::Bytes;
use std::alloc::{AllocError, Global};

/// An entry, listed or not: whether it was unlisted itself, and how many references callers have.
#[derive(Drop)]
pub(crate) struct Entry {
    pub(crate) spec: Spec,
    pub(crate) unlisted: bool,
    pub(crate) taken: u64,
    pub(crate) listed: bool,
}

/// A larval: its text, who claimed it, and how it ended.
#[derive(Drop)]
pub(crate) struct LarvalState {
    pub(crate) text: Bytes,
    pub(crate) claimed: Option<u32>,
    pub(crate) ended: Option<Ended>,
}

/// A reference that a caller has.
#[derive(Clone, Copy)]
pub(crate) struct Reference {
    pub(crate) caller: u32,
    pub(crate) id: u64,
}

fn may_find(entry: &Entry, plain: bool) -> bool
    ensures { result ≡ may_find plain (row_of entry.now) }
{
    entry.listed && (!plain || entry.spec.wrap == Wrap::Plain)
}

fn has_driver(entry: &Entry, driver: &[u8]) -> bool
    ensures { result ≡ bytes_eq entry.now.spec.driver driver.now }
{
    is_same(entry.spec.driver.as_slice(), driver)
}

fn has_name(entry: &Entry, name: &[u8]) -> bool
    ensures { result ≡ bytes_eq entry.now.spec.name name.now }
{
    is_same(entry.spec.name.as_slice(), name)
}

fn does_clash(entry: &Entry, spec: &Spec) -> bool
    ensures { result ≡ clashes_with spec.now (row_of entry.now) }
{
    entry.listed
        && (has_name(entry, spec.driver.as_slice())
            || has_driver(entry, spec.driver.as_slice())
            || has_driver(entry, spec.name.as_slice()))
}

pub(crate) fn do_clash(entries: &[Entry], spec: &Spec) -> bool
    ensures { result ≡ list_any (clashes_with spec.now) (map row_of entries.now) }
{
    for place in 0..entries.len() {
        if does_clash(&entries[place], spec) {
            return true;
        }
    }
    false
}

fn is_listed_driver(entry: &Entry, driver: &[u8]) -> bool
    ensures { result ≡ (entry.now.listed && bytes_eq entry.now.spec.driver driver.now) }
{
    entry.listed && has_driver(entry, driver)
}

// The id of the listed entry of the driver.
pub(crate) fn driver_place(entries: &[Entry], driver: &[u8]) -> Option<u64>
    ensures { result ≡ driver_place (map row_of entries.now) driver.now }
{
    for place in 0..entries.len() {
        if is_listed_driver(&entries[place], driver) {
            return Some(place as u64);
        }
    }
    None
}

pub(crate) fn is_listed(entries: &[Entry], id: u64) -> bool
    ensures { result ≡ listed_at (map row_of entries.now) id }
{
    match entries.get(id as usize) {
        Some(entry) => entry.listed,
        None => false,
    }
}

pub(crate) fn are_listed(entries: &[Entry], ids: &[u64]) -> bool
    ensures { result ≡ list_all (listed_at (map row_of entries.now)) ids.now }
{
    ids.iter().all(|id| is_listed(entries, *id))
}

/// Whether the larval is pending, and nobody claimed it.
pub(crate) fn is_free_at(larvals: &[LarvalState], number: u64) -> bool
    ensures { result ≡ passes is_free (map larval_of larvals.now) number }
{
    match larvals.get(number as usize) {
        Some(larval) => larval.ended.is_none() && larval.claimed.is_none(),
        None => false,
    }
}

/// Whether it was claimed, and hasn't ended.
pub(crate) fn is_being_built_at(larvals: &[LarvalState], number: u64) -> bool
    ensures { result ≡ passes is_being_built (map larval_of larvals.now) number }
{
    match larvals.get(number as usize) {
        Some(larval) => larval.claimed.is_some() && larval.ended.is_none(),
        None => false,
    }
}

pub(crate) fn has_ended_at(larvals: &[LarvalState], number: u64) -> bool
    ensures { result ≡ passes has_ended (map larval_of larvals.now) number }
{
    match larvals.get(number as usize) {
        Some(larval) => larval.ended.is_some(),
        None => false,
    }
}

pub(crate) fn is_claimed_at(larvals: &[LarvalState], caller: u32, number: u64) -> bool
    ensures { result ≡ passes (is_claimed_by caller) (map larval_of larvals.now) number }
{
    match larvals.get(number as usize) {
        Some(
            LarvalState {
                claimed: Some(claimer),
                ..
            },
        ) => *claimer == caller,
        _ => false,
    }
}

fn is_to(id: u64, reference: Reference) -> bool
    ensures { result ≡ is_to id reference }
{
    reference.id == id
}

pub(crate) fn is_of(caller: u32, id: u64, reference: Reference) -> bool
    ensures { result ≡ is_of caller id reference }
{
    reference.caller == caller && reference.id == id
}

/// Whether somebody has a reference of the entry.
pub(crate) fn is_referenced(references: &[Reference], id: u64) -> bool
    ensures { result ≡ list_any (is_to id) references.now }
{
    references.iter().any(|reference| is_to(id, *reference))
}

/// Whether this caller has one.
pub(crate) fn has_reference(references: &[Reference], caller: u32, id: u64) -> bool
    ensures { result ≡ list_any (is_of caller id) references.now }
{
    references
        .iter()
        .any(|reference| is_of(caller, id, *reference))
}

/// The reason against an answer where this is the right one, if there is any.
pub(crate) fn against_made(answer: Enlisted, right: Enlisted) -> Option<Reason>
    ensures { result ≡ reason_of true true (same_made answer right) (alike_made answer right) }
{
    match (answer, right) {
        (Enlisted::Made(id), Enlisted::Made(right)) => reason_of(true, true, id == right, true),
        (Enlisted::Exist, Enlisted::Exist) | (Enlisted::NFile, Enlisted::NFile) => None,
        _ => Some(Reason::Answer),
    }
}

pub(crate) fn against_found(answer: Looked, right: Looked) -> Option<Reason>
    ensures { result ≡ reason_of true true (same_found answer right) (alike_found answer right) }
{
    match (answer, right) {
        (Looked::Found(number), Looked::Found(right))
        | (Looked::Pending(number), Looked::Pending(right))
        | (Looked::Began(number), Looked::Began(right)) => {
            reason_of(true, true, number == right, true)
        }
        (Looked::Absent, Looked::Absent) => None,
        _ => Some(Reason::Answer),
    }
}

pub(crate) fn against_place(answer: Option<u64>, right: Option<u64>) -> Option<Reason>
    ensures { result ≡ reason_of true true (same_place answer right) (alike_place answer right) }
{
    match (answer, right) {
        (Some(id), Some(right)) => reason_of(true, true, id == right, true),
        (None, None) => None,
        _ => Some(Reason::Answer),
    }
}

pub(crate) fn same_flag(answer: bool, right: bool) -> bool
    ensures { result ≡ same_flag answer right }
{
    if answer { right } else { !right }
}

// Whether the entry stays listed, where the older ones have their marks.
fn stays(entries: &[Entry], place: usize) -> bool
    requires { place < length entries.now }
    ensures { (d : Entry) → result ≡ stays_listed (map row_of (take place entries.now)) (row_of (slice_index_or entries.now place d)) }
{
    let (older, _newer) = entries.split_at(place);
    !entries[place].unlisted && are_listed(older, entries[place].spec.below.as_slice())
}

/// Gives each entry its mark.
pub(crate) fn mark_all(entries: &mut [Entry])
    ensures { map row_of entries.new ≡ marked [] (map row_of entries.old) }
{
    for place in 0..entries.len() {
        let listed = stays(entries, place);
        let entry = &mut entries[place];
        entry.listed = listed;
    }
}

fn mark_end(marks: &mut Vec<bool>, ended: Option<Ended>)
    ensures { AreMarked marks.old.items marks.new.items (end_ids ended) }
{
    match ended {
        Some(Ended::Built(id)) | Some(Ended::Joined(id)) => mark_ids(marks, &[id]),
        Some(Ended::Failed(_)) | Some(Ended::NoMemory) | None => {}
    }
}

// Of each id below the count, whether a larval of the text ended with it.
fn joined_marks(
    alloc: Global,
    larvals: &[LarvalState],
    text: &[u8],
    count: usize,
) -> Result<Vec<bool>, AllocError>
    ensures { IfOk result (λ marks. AreJoined (map larval_of larvals.now) text.now count marks.items) }
{
    let mut marks = vec![in alloc; false; count]?;
    for larval in larvals {
        if is_same(larval.text.as_slice(), text) {
            mark_end(&mut marks, larval.ended);
        }
    }
    Ok(marks)
}

fn answers_to(entry: &Entry, text: &[u8], plain: bool, joined: bool) -> bool
    ensures { result ≡ (may_find plain (row_of entry.now) && (bytes_eq entry.now.spec.name text.now || joined)) }
{
    may_find(entry, plain) && (has_name(entry, text) || joined)
}

fn better(id: u64, entry: &Entry, best: Option<(u64, u32)>) -> Option<(u64, u32)>
    ensures { result ≡ better id (row_of entry.now) best }
{
    match best {
        Some((other, priority)) => {
            if priority < entry.spec.priority {
                Some((id, entry.spec.priority))
            } else {
                Some((other, priority))
            }
        }
        None => Some((id, entry.spec.priority)),
    }
}

// The best entry that answers to the text.
fn best_of(
    alloc: Global,
    entries: &[Entry],
    larvals: &[LarvalState],
    text: &[u8],
    plain: bool,
) -> Result<Option<(u64, u32)>, AllocError>
    ensures { IfOk result (λ best. best ≡ best_from (map larval_of larvals.now) text.now plain 0 (map row_of entries.now)) }
{
    let joined = joined_marks(alloc, larvals, text, entries.len())?;
    let mut best = None;
    let mut place = entries.len();
    while place > 0 {
        place -= 1;
        if answers_to(&entries[place], text, plain, joined[place]) {
            best = better(place as u64, &entries[place], best);
        }
    }
    Ok(best)
}

fn plain_driver(entries: &[Entry], text: &[u8], plain: bool) -> Option<u64>
    ensures { result ≡ position_from (λ row. may_find plain row && bytes_eq row.spec.driver text.now) 0 (map row_of entries.now) }
{
    for place in 0..entries.len() {
        if may_find(&entries[place], plain) && has_driver(&entries[place], text) {
            return Some(place as u64);
        }
    }
    None
}

fn pending(larvals: &[LarvalState], text: &[u8]) -> Option<u64>
    ensures { result ≡ position_from (is_pending text.now) 0 (map larval_of larvals.now) }
{
    for place in 0..larvals.len() {
        if larvals[place].ended.is_none() && is_same(larvals[place].text.as_slice(), text) {
            return Some(place as u64);
        }
    }
    None
}

fn is_template(text: &[u8]) -> bool
    ensures { result ≡ is_template text.now }
{
    text.iter().any(|byte| *byte == b'(')
}

// What a look is answered that finds no entry.
fn not_found(larvals: &[LarvalState], text: &[u8]) -> Looked
    ensures { result ≡ not_found (map larval_of larvals.now) text.now (position_from (is_pending text.now) 0 (map larval_of larvals.now)) }
{
    match pending(larvals, text) {
        Some(number) => Looked::Pending(number),
        None if is_template(text) => Looked::Began(larvals.len() as u64),
        None => Looked::Absent,
    }
}

/// What a look is answered, in one pass over the entries and the larvals.
pub(crate) fn look(
    alloc: Global,
    entries: &[Entry],
    larvals: &[LarvalState],
    text: &[u8],
    plain: bool,
) -> Result<Looked, AllocError>
    ensures { IfOk result (λ answer. answer ≡ look_answer (map row_of entries.now) (map larval_of larvals.now) text.now plain) }
{
    if let Some(id) = plain_driver(entries, text, plain) {
        return Ok(Looked::Found(id));
    }
    match best_of(alloc, entries, larvals, text, plain)? {
        Some((id, _priority)) => Ok(Looked::Found(id)),
        None => Ok(not_found(larvals, text)),
    }
}

/// Adds an entry that nothing was done to, and marks all.
pub(crate) fn add_entry(
    alloc: Global,
    entries: &mut Vec<Entry>,
    spec: &Spec,
) -> Result<(), AllocError>
    ensures { OnOk result (map row_of entries.new.items ≡ marked [] (map row_of entries.old.items ++ new_row spec.now ∷ [])) }
{
    let entry = Entry {
        spec: spec.copy(alloc)?,
        unlisted: false,
        taken: 0,
        listed: false,
    };
    entries.push(entry)?;
    mark_all(entries);
    Ok(())
}
