//! The table of entries: scans over those that are listed, and what calls change in it.

ghost use Rattle.std.specs.Prelude.{◌≡◌, ℕ, ◌+◌, ◌-◌, ◌^◌, ◌<◌, ◌≤◌, ◌&&◌, ◌++◌, ◌∷◌, [], true, false, length, vec_capacity, slice_set, slice_index_or, All, OnOk, IfErr};
ghost use Rattle.std.specs.List.{list_any, list_all, find, filter, position_from};
ghost use Rattle.std.specs.Str.{bytes_eq};
ghost use Rattle.alg_registry.specs.declared.row.Row.{Row};
ghost use Rattle.alg_registry.specs.Rows.{listed_at, standing, is_held};
ghost use Rattle.alg_registry.specs.Answers.{clashes_with, held_count, driver_place};
ghost use Rattle.alg_registry.specs.Alone.{stands_on_nothing, unlists_alone, puts_alone};
ghost use Rattle.alg_registry.specs.Calls.{unlisted_row, taken_row, put_row_of, new_row, listed_row_of};
ghost use Rattle.alg_registry.specs.Held.{RowTable, held_from, listed_from, is_row_listed, passes, is_listed_driver};

use crate::entry::RegErr;
use crate::mark_counts::{add_references, is_listed_at, is_row_held, restand};
use crate::row::Row;
use crate::spec::Spec;
use std::alloc::Global;
use std::marker::Model;

pub fn is_same(a: &[u8], b: &[u8]) -> bool
    ensures { result ≡ bytes_eq a.now b.now }
{
    a == b
}

fn does_clash(row: &Row, spec: &Spec) -> bool
    ensures { result ≡ clashes_with spec.now row.now }
{
    let name = spec.name.as_slice();
    let driver = spec.driver.as_slice();
    row.listed
        && (is_same(row.spec.name.as_slice(), driver)
            || is_same(row.spec.driver.as_slice(), driver)
            || is_same(row.spec.driver.as_slice(), name))
}

fn does_clash_at(all: &[Row], id: u64, spec: &Spec) -> bool
    ensures { result ≡ passes (clashes_with spec.now) all.now id }
{
    match all.get(id as usize) {
        Some(row) => does_clash(row, spec),
        None => false,
    }
}

fn do_clash(all: &[Row], listed: &[u64], spec: &Spec) -> bool
    ensures { result ≡ list_any (passes (clashes_with spec.now) all.now) listed.now }
{
    listed.iter().any(|id| does_clash_at(all, *id, spec))
}

fn is_driver_at(all: &[Row], id: u64, driver: &[u8]) -> bool
    ensures { result ≡ passes (is_listed_driver driver.now) all.now id }
{
    match all.get(id as usize) {
        Some(row) => row.listed && is_same(row.spec.driver.as_slice(), driver),
        None => false,
    }
}

fn find_driver(all: &[Row], listed: &[u64], driver: &[u8]) -> Option<u64>
    ensures { result ≡ find (passes (is_listed_driver driver.now) all.now) listed.now }
{
    listed
        .iter()
        .copied()
        .find(|id| is_driver_at(all, *id, driver))
}

fn is_held_at(all: &[Row], id: u64) -> bool
    ensures { result ≡ passes is_held all.now id }
{
    match all.get(id as usize) {
        Some(row) => is_row_held(row),
        None => false,
    }
}

/// Takes those off the list that are held no more.
fn let_go(held: &mut Vec<u64>, all: &[Row])
    ensures items { held.new.items ≡ filter (passes is_held all.now) held.old.items }
    ensures capacity { vec_capacity held.old ≤ vec_capacity held.new }
{
    held.retain(|id| is_held_at(all, *id));
}

/// Takes those off the list that are listed no more.
fn strike_unlisted(listed: &mut Vec<u64>, all: &[Row])
    ensures items { listed.new.items ≡ filter (passes is_row_listed all.now) listed.old.items }
    ensures capacity { vec_capacity listed.old ≤ vec_capacity listed.new }
{
    listed.retain(|id| is_listed_at(all, *id));
}

fn does_stand_on_nothing(row: &Row) -> bool
    ensures { result ≡ stands_on_nothing row.now }
{
    row.spec.below.len() == 0
}

/// Whether no other entry changes where this one is unlisted.
fn does_unlist_alone(row: &Row) -> bool
    ensures { result ≡ unlists_alone row.now }
{
    row.references == row.taken && (0 < row.references || does_stand_on_nothing(row))
}

/// Whether no other entry changes where a reference to this one is given back.
fn does_put_alone(row: &Row) -> bool
    ensures { result ≡ puts_alone row.now }
{
    0 < row.taken
        && 0 < row.references
        && (row.listed || 1 < row.references || does_stand_on_nothing(row))
}

fn unlist_row(rows: &mut [Row], held: &[u64], place: usize)
    requires listed { listed_at rows.old place ≡ true }
    requires few { All (λ row. row.taken < 2 ^ 61) rows.old }
    requires stands { standing rows.old ≡ rows.old }
    requires held { held.now ≡ held_from 0 rows.old }
    ensures { (d : Row) → rows.new ≡ standing (slice_set rows.old place (unlisted_row (slice_index_or rows.old place d))) }
{
    if does_unlist_alone(&rows[place]) {
        let row = &mut rows[place];
        row.unlisted = true;
        row.listed = false;
    } else {
        let row = &mut rows[place];
        row.unlisted = true;
        restand(rows, held);
    }
}

/// Gives a reference back that was taken, and says whether an entry may be held no more.
fn put_row(rows: &mut [Row], held: &[u64], place: usize) -> bool
    requires within { place < length rows.old }
    requires taken { (d : Row) → 0 < (slice_index_or rows.old place d).taken }
    requires few { All (λ row. row.taken < 2 ^ 61) rows.old }
    requires stands { standing rows.old ≡ rows.old }
    requires held { held.now ≡ held_from 0 rows.old }
    ensures rows { (d : Row) → rows.new ≡ standing (slice_set rows.old place (put_row_of (slice_index_or rows.old place d))) }
    ensures same { result ≡ false → (held_from 0 rows.new ≡ held_from 0 rows.old) × (listed_from 0 rows.new ≡ listed_from 0 rows.old) }
{
    if does_put_alone(&rows[place]) {
        let row = &mut rows[place];
        row.taken -= 1;
        row.references -= 1;
        !is_row_held(row)
    } else {
        let row = &mut rows[place];
        row.taken -= 1;
        restand(rows, held);
        true
    }
}

/// The entries by id. Contracts see the list, which stands as it should, and the number `spare` of entries that are
/// listed without memory.
#[derive(Drop)]
pub struct Rows {
    all: Vec<Row>,
    /// The ids of those that are held, ascending. No other changes ever again.
    held: Vec<u64>,
    /// The ids of those that are listed, ascending. No other is found, nor clashes with a new one.
    listed: Vec<u64>,
    spare: usize,
}

impl Model for Rows {
    ghost use Rattle.std.specs.Prelude.{vec_capacity};
    ghost use Rattle.alg_registry.specs.Held.{RowTable, IsRowTable};

    ghost Value = { RowTable };

    ghost view = { λ r. record { list = r.all.items; spare = r.spare } };

    ghost invariant = { λ r. IsRowTable r.all.items r.held.items r.listed.items r.spare
        (vec_capacity r.all) (vec_capacity r.held) (vec_capacity r.listed) };
}

impl Rows {
    /// No entries. No memory is taken.
    pub fn new(alloc: Global) -> Rows
        ensures { result ≡ record { list = []; spare = 0 } }
    {
        Rows {
            all: Vec::new(alloc),
            held: Vec::new(alloc),
            listed: Vec::new(alloc),
            spare: 0,
        }
    }

    /// Every entry that ever was, by id.
    pub fn all(&self) -> &[Row]
        ensures all { result.now ≡ self.now.list }
        ensures stands { standing self.now.list ≡ self.now.list }
    {
        self.all.as_slice()
    }

    /// The ids of those that are held, ascending.
    pub fn held(&self) -> &[u64]
        ensures { result.now ≡ held_from 0 self.now.list }
    {
        self.held.as_slice()
    }

    /// The ids of those that are listed, ascending.
    pub fn listed(&self) -> &[u64]
        ensures { result.now ≡ listed_from 0 self.now.list }
    {
        self.listed.as_slice()
    }

    /// How many entries there ever were.
    pub fn count(&self) -> u64
        ensures { result ≡ length self.now.list }
    {
        self.all.len() as u64
    }

    /// How many are held.
    pub fn count_held(&self) -> usize
        ensures { result ≡ held_count self.now.list }
    {
        self.held.len()
    }

    /// Whether the new algorithm would be confused with a listed entry.
    pub fn clashes(&self, spec: &Spec) -> bool
        ensures { result ≡ list_any (clashes_with spec.now) self.now.list }
    {
        do_clash(&self.all, &self.listed, spec)
    }

    /// The listed entry of the driver.
    pub fn place_of_driver(&self, driver: &[u8]) -> Option<u64>
        ensures { result ≡ driver_place self.now.list driver.now }
    {
        find_driver(&self.all, &self.listed, driver)
    }

    /// Makes room for one more entry. Want of memory leaves the entries as they were.
    pub fn reserve(&mut self) -> Result<(), RegErr>
        ensures list { self.new.list ≡ self.old.list }
        ensures room { OnOk result (0 < self.new.spare) }
        ensures memory { IfErr result (λ e. e ≡ RegErr.Memory) }
    {
        if self.all.reserve(1).is_err()
            || self.held.reserve(1).is_err()
            || self.listed.reserve(1).is_err()
        {
            return Err(RegErr::Memory);
        }
        self.spare = self.spare.max(1);
        Ok(())
    }

    /// Lists an entry over listed ones, each of which has one more reference. No memory is taken.
    pub fn add(&mut self, spec: Spec)
        requires room { 0 < self.old.spare }
        requires listed { list_all (listed_at self.old.list) spec.below ≡ true }
        requires few { All (λ row. row.taken < 2 ^ 61) self.old.list }
        ensures list { self.new.list ≡ standing (self.old.list ++ new_row spec ∷ []) }
        ensures room { self.new.spare ≡ self.old.spare - 1 }
    {
        add_references(&mut self.all, spec.below.as_slice());
        let id = self.all.len() as u64;
        self.held.push_reserved(id);
        self.listed.push_reserved(id);
        self.all.push_reserved(Row {
            spec,
            unlisted: false,
            taken: 0,
            listed: true,
            references: 0,
        });
        self.spare -= 1;
    }

    /// Takes a listed entry off the list, and with it what stands on it.
    pub fn unlist(&mut self, place: usize)
        requires listed { listed_at self.old.list place ≡ true }
        requires few { All (λ row. row.taken < 2 ^ 61) self.old.list }
        ensures list { (d : Row) → self.new.list
            ≡ standing (slice_set self.old.list place (unlisted_row (slice_index_or self.old.list place d))) }
        ensures room { self.new.spare ≡ self.old.spare }
    {
        unlist_row(&mut self.all, &self.held, place);
        let_go(&mut self.held, &self.all);
        strike_unlisted(&mut self.listed, &self.all);
    }

    /// Takes a reference to a listed entry.
    pub fn take(&mut self, place: usize)
        requires listed { listed_at self.old.list place ≡ true }
        requires few { All (λ row. row.taken < 2 ^ 61) self.old.list }
        ensures list { (d : Row) → self.new.list
            ≡ standing (slice_set self.old.list place (taken_row (slice_index_or self.old.list place d))) }
        ensures room { self.new.spare ≡ self.old.spare }
    {
        let row = &mut self.all[place];
        row.taken += 1;
        row.references += 1;
    }

    /// Gives a reference back that was taken.
    pub fn put(&mut self, place: usize)
        requires within { place < length self.old.list }
        requires taken { (d : Row) → 0 < (slice_index_or self.old.list place d).taken }
        requires few { All (λ row. row.taken < 2 ^ 61) self.old.list }
        ensures list { (d : Row) → self.new.list
            ≡ standing (slice_set self.old.list place (put_row_of (slice_index_or self.old.list place d))) }
        ensures room { self.new.spare ≡ self.old.spare }
    {
        if put_row(&mut self.all, &self.held, place) {
            let_go(&mut self.held, &self.all);
            strike_unlisted(&mut self.listed, &self.all);
        }
    }
}
