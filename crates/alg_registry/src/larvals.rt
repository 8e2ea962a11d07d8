//! The table of larvals.

ghost use Rattle.std.specs.Prelude.{◌≡◌, ℕ, ◌+◌, ◌-◌, ◌<◌, ◌≤◌, ◌∷◌, ◌++◌, [], length, IfOk, IfErr, OnOk, None, Some, false, not, ◌==◌, vec_capacity, slice_set, slice_index_or, slice_get};
ghost use Rattle.std.specs.List.{position_from, find, filter, filter_map, cons_option};
ghost use Rattle.std.specs.Option.{option_and_then};
ghost use Rattle.std.specs.Str.{bytes_eq};
ghost use Rattle.alg_registry.specs.declared.row.Larval.{Larval};
ghost use Rattle.alg_registry.specs.Answers.{is_pending};
ghost use Rattle.alg_registry.specs.Calls.{is_unclaimed, claimed_number, text_at, claimed_larval, ended_larval};
ghost use Rattle.alg_registry.specs.Larvals.{entry_of, ends_with_entry, is_seen_end, is_seen, seen_after, joined_as, joined_at, passes_at};

use crate::entry::{Ended, RegErr};
use crate::mark_counts::is_listed_at;
use crate::row::{Larval, Row};
use crate::rows::is_same;
use kc_base::Bytes;
use std::alloc::{AllocError, Global};
use std::marker::Model;

/// The larvals by number. Contracts see the list, the numbers of those that a look goes over, and the number `spare` of
/// larvals that begin without memory.
#[derive(Drop)]
pub struct Larvals {
    all: Vec<Larval>,
    /// The numbers of those that are pending or ended with an entry, until that is unlisted.
    seen: Vec<u64>,
    /// The numbers of those that nobody has claimed, the oldest first.
    unclaimed: Vec<u64>,
    spare: usize,
}

impl Model for Larvals {
    ghost use Rattle.std.specs.Prelude.{◌≡◌, ◌+◌, ◌≤◌, vec_len, vec_capacity};
    ghost use Rattle.alg_registry.specs.Larvals.{LarvalTable};
    ghost use Rattle.alg_registry.specs.Table.{IsTable};

    ghost Value = { LarvalTable };

    ghost view = { λ l. record { list = l.all.items; seen = l.seen.items; spare = l.spare } };

    ghost invariant = { λ l. IsTable l.all.items l.seen.items l.unclaimed.items l.spare
        (vec_capacity l.all) (vec_capacity l.seen) (vec_capacity l.unclaimed) };
}

fn is_larval_unclaimed(larval: &Larval) -> bool
    ensures { result ≡ is_unclaimed larval.now }
{
    larval.ended.is_none() && larval.claimed.is_none()
}

fn is_larval_pending(larval: &Larval, text: &[u8]) -> bool
    ensures { result ≡ is_pending text.now larval.now }
{
    larval.ended.is_none() && is_same(larval.text.as_slice(), text)
}

/// Whether a larval that ended so ended with an entry.
fn ends_with(ended: Ended) -> bool
    ensures { result ≡ ends_with_entry ended }
{
    match ended {
        Ended::Built(_) | Ended::Joined(_) => true,
        Ended::Failed(_) | Ended::NoMemory => false,
    }
}

fn is_unclaimed_at(all: &[Larval], number: u64) -> bool
    ensures { result ≡ passes_at is_unclaimed all.now number }
{
    match all.get(number as usize) {
        Some(larval) => is_larval_unclaimed(larval),
        None => false,
    }
}

fn is_pending_at(all: &[Larval], number: u64, text: &[u8]) -> bool
    ensures { result ≡ passes_at (is_pending text.now) all.now number }
{
    match all.get(number as usize) {
        Some(larval) => is_larval_pending(larval, text),
        None => false,
    }
}

/// The first of the numbers.
fn first_of(numbers: &[u64]) -> Option<u64>
    ensures { result ≡ slice_get numbers.now 0 }
{
    numbers.first().copied()
}

fn first_pending(all: &[Larval], seen: &[u64], text: &[u8]) -> Option<u64>
    ensures { result ≡ find (passes_at (is_pending text.now) all.now) seen.now }
{
    seen.iter()
        .copied()
        .find(|number| is_pending_at(all, *number, text))
}

/// The entry with which the larval ended.
fn entry_of_end(ended: Option<Ended>) -> Option<u64>
    ensures { result ≡ entry_of ended }
{
    match ended {
        Some(Ended::Built(id)) => Some(id),
        Some(Ended::Joined(id)) => Some(id),
        _ => None,
    }
}

fn entry_of_larval(larval: &Larval, text: &[u8]) -> Option<u64>
    ensures { result ≡ joined_as text.now larval.now }
{
    if is_same(larval.text.as_slice(), text) {
        entry_of_end(larval.ended)
    } else {
        None
    }
}

fn entry_at(all: &[Larval], number: u64, text: &[u8]) -> Option<u64>
    ensures { result ≡ joined_at text.now all.now number }
{
    match all.get(number as usize) {
        Some(larval) => entry_of_larval(larval, text),
        None => None,
    }
}

fn push_some(ids: &mut Vec<u64>, id: Option<u64>) -> Result<(), AllocError>
    ensures { OnOk result (ids.new.items ≡ ids.old.items ++ cons_option id []) }
{
    if let Some(id) = id {
        ids.push(id)?;
    }
    Ok(())
}

fn entries_of(
    alloc: Global,
    all: &[Larval],
    seen: &[u64],
    text: &[u8],
) -> Result<Vec<u64>, AllocError>
    ensures { IfOk result (λ ids. ids.items ≡ filter_map (joined_at text.now all.now) seen.now) }
{
    let mut ids = Vec::new(alloc);
    for number in seen {
        let id = entry_at(all, *number, text);
        push_some(&mut ids, id)?;
    }
    Ok(ids)
}

/// Takes a number off the list.
fn forget(seen: &mut Vec<u64>, number: u64)
    ensures items { seen.new.items ≡ filter (λ other. not (other == number)) seen.old.items }
    ensures capacity { vec_capacity seen.old ≤ vec_capacity seen.new }
{
    seen.retain(|other| *other != number);
}

/// Whether a look has to see a larval that ended so.
fn is_end_seen(rows: &[Row], ended: Option<Ended>) -> bool
    ensures { result ≡ is_seen_end rows.now ended }
{
    match ended {
        None => true,
        Some(Ended::Built(id)) => is_listed_at(rows, id),
        Some(Ended::Joined(id)) => is_listed_at(rows, id),
        Some(_) => false,
    }
}

fn is_seen_at(rows: &[Row], all: &[Larval], number: u64) -> bool
    ensures { result ≡ passes_at (is_seen rows.now) all.now number }
{
    match all.get(number as usize) {
        Some(larval) => is_end_seen(rows, larval.ended),
        None => false,
    }
}

fn keep_seen(seen: &mut Vec<u64>, rows: &[Row], all: &[Larval])
    ensures items { seen.new.items ≡ filter (passes_at (is_seen rows.now) all.now) seen.old.items }
    ensures capacity { vec_capacity seen.old ≤ vec_capacity seen.new }
{
    seen.retain(|number| is_seen_at(rows, all, *number));
}

impl Larvals {
    /// No larvals. No memory is taken.
    pub fn new(alloc: Global) -> Larvals
        ensures { result ≡ record { list = []; seen = []; spare = 0 } }
    {
        Larvals {
            all: Vec::new(alloc),
            seen: Vec::new(alloc),
            unclaimed: Vec::new(alloc),
            spare: 0,
        }
    }

    /// Makes room for one more larval. Want of memory leaves the larvals as they were.
    pub fn reserve(&mut self) -> Result<(), RegErr>
        ensures list { self.new.list ≡ self.old.list }
        ensures seen { self.new.seen ≡ self.old.seen }
        ensures room { OnOk result (0 < self.new.spare) }
        ensures memory { IfErr result (λ e. e ≡ RegErr.Memory) }
    {
        self.all.reserve(1)?;
        self.seen.reserve(1)?;
        self.unclaimed.reserve(1)?;
        self.spare = self.spare.max(1);
        Ok(())
    }

    /// Begins a larval of the text, where there is room for one. No memory is taken.
    pub fn begin(&mut self, text: Bytes)
        requires { 0 < self.old.spare }
        ensures list { self.new.list ≡ self.old.list ++ record { text = text; claimed = None; ended = None } ∷ [] }
        ensures seen { self.new.seen ≡ self.old.seen ++ length self.old.list ∷ [] }
        ensures room { self.new.spare ≡ self.old.spare - 1 }
    {
        let number = self.all.len() as u64;
        self.seen.push_reserved(number);
        self.unclaimed.push_reserved(number);
        self.all.push_reserved(Larval {
            text,
            claimed: None,
            ended: None,
        });
        self.spare -= 1;
    }

    /// The larval that a claim gets.
    pub fn to_claim(&self, named: Option<u64>) -> Option<u64>
        ensures { result ≡ claimed_number self.now.list named }
    {
        match named {
            Some(number) => {
                if is_unclaimed_at(&self.all, number) {
                    Some(number)
                } else {
                    None
                }
            }
            None => first_of(&self.unclaimed),
        }
    }

    /// A copy of the larval's text.
    pub fn copy_text(&self, alloc: Global, number: u64) -> Result<Bytes, RegErr>
        requires { number < length self.now.list }
        ensures ok { IfOk result (λ text. text ≡ text_at self.now.list number) }
        ensures err { IfErr result (λ e. e ≡ RegErr.Memory) }
    {
        Ok(Bytes::copy_of(alloc, self.all[number as usize].text.as_slice())?)
    }

    /// Marks the larval as the caller's.
    pub fn claim(&mut self, number: u64, caller: u32)
        requires { number < length self.old.list }
        ensures list { (d : Larval) → self.new.list
            ≡ slice_set self.old.list number (claimed_larval caller (slice_index_or self.old.list number d)) }
        ensures seen { self.new.seen ≡ self.old.seen }
        ensures room { self.new.spare ≡ self.old.spare }
    {
        let larval = &mut self.all[number as usize];
        larval.claimed = Some(caller);
        forget(&mut self.unclaimed, number);
    }

    /// Ends the larval, which somebody has claimed.
    pub fn end(&mut self, number: u64, ended: Ended)
        requires within { number < length self.old.list }
        requires claimed { passes_at is_unclaimed self.old.list number ≡ false }
        ensures list { (d : Larval) → self.new.list
            ≡ slice_set self.old.list number (ended_larval ended (slice_index_or self.old.list number d)) }
        ensures seen { self.new.seen ≡ seen_after ended number self.old.seen }
        ensures room { self.new.spare ≡ self.old.spare }
    {
        let larval = &mut self.all[number as usize];
        larval.ended = Some(ended);
        if !ends_with(ended) {
            forget(&mut self.seen, number);
        }
    }

    /// How the larval of the number ended.
    pub fn ended(&self, number: u64) -> Option<Ended>
        ensures { result ≡ option_and_then (λ larval. larval.ended) (slice_get self.now.list number) }
    {
        match self.all.get(number as usize) {
            Some(larval) => larval.ended,
            None => None,
        }
    }

    /// Looks go no more over those that ended with an entry that isn't listed.
    pub fn forget_unlisted(&mut self, rows: &[Row])
        ensures list { self.new.list ≡ self.old.list }
        ensures seen { self.new.seen ≡ filter (passes_at (is_seen rows.now) self.old.list) self.old.seen }
        ensures room { self.new.spare ≡ self.old.spare }
    {
        keep_seen(&mut self.seen, rows, &self.all);
    }

    /// The entries with which larvals of the text ended, of those that a look goes over.
    pub fn joined(&self, alloc: Global, text: &[u8]) -> Result<Vec<u64>, RegErr>
        ensures ok { IfOk result (λ ids. ids.items ≡ filter_map (joined_at text.now self.now.list) self.now.seen) }
        ensures err { IfErr result (λ e. e ≡ RegErr.Memory) }
    {
        Ok(entries_of(alloc, &self.all, &self.seen, text)?)
    }

    /// The oldest larval of the text that is pending, of those that a look goes over.
    pub fn pending(&self, text: &[u8]) -> Option<u64>
        ensures { result ≡ find (passes_at (is_pending text.now) self.now.list) self.now.seen }
    {
        first_pending(&self.all, &self.seen, text)
    }

    /// How many larvals began.
    pub fn count(&self) -> u64
        ensures { result ≡ length self.now.list }
    {
        self.all.len() as u64
    }
}
