//! What the registry tells of its entries.

ghost use Rattle.std.specs.Prelude.{◌≡◌, ℕ, ◌<◌, ◌≤◌, ◌++◌, [], length, drop, take, slice_get, IfOk, OnOk};
ghost use Rattle.std.specs.List.{cons_option, filter_map};
ghost use Rattle.alg_registry.specs.Calls.{own_refs, refs_answer, shown, listing};
ghost use Rattle.alg_registry.specs.Held.{made_at, refs_among};

use crate::entry::RefAnswer;
use crate::mark_counts::is_row_held;
use crate::row::Row;
use crate::rows::{Rows, is_same};
use kc_base::Bytes;
use std::alloc::{AllocError, Global};
use std::marker::Model;

/// A listed entry, as it is shown.
#[derive(Debug, Drop)]
pub struct ListRow {
    pub name: Bytes,
    pub driver: Bytes,
    pub priority: u32,
    /// By callers, and by held entries that stand on it.
    pub refs: u64,
}

/// The listed entries, by id.
#[derive(Debug, Drop)]
pub struct Listing {
    rows: Vec<ListRow>,
}

impl Model for Listing {
    ghost use Rattle.std.specs.Prelude.{List};
    ghost use Rattle.alg_registry.specs.declared.listing.ListRow.{ListRow};

    ghost Value = { List ListRow };

    ghost view = { λ listing. listing.rows.items };
}

impl Listing {
    /// The rows, in the order of the ids.
    pub fn rows(&self) -> &[ListRow]
        ensures { result.now ≡ self.now }
    {
        self.rows.as_slice()
    }
}

fn refs_of(row: &Row, driver: &[u8]) -> Option<RefAnswer>
    ensures { result ≡ own_refs driver.now row.now }
{
    if is_row_held(row) && is_same(row.spec.driver.as_slice(), driver) {
        Some(RefAnswer {
            count: row.references,
            listed: row.listed,
        })
    } else {
        None
    }
}

/// The references of the entry of the id, where it has the driver.
fn refs_at(all: &[Row], id: u64, driver: &[u8]) -> Option<RefAnswer>
    ensures { result ≡ made_at (own_refs driver.now) all.now id }
{
    match all.get(id as usize) {
        Some(row) => refs_of(row, driver),
        None => None,
    }
}

fn newest_among(all: &[Row], held: &[u64], driver: &[u8]) -> Option<RefAnswer>
    ensures { result ≡ refs_among driver.now all.now held.now }
{
    let mut i = held.len();
    while i > 0 {
        i -= 1;
        let found = refs_at(all, held[i], driver);
        if found.is_some() {
            return found;
        }
    }
    None
}

/// The references of the newest held entry of the driver.
pub fn newest_held(rows: &Rows, driver: &[u8]) -> Option<RefAnswer>
    ensures { result ≡ refs_answer rows.now.list driver.now }
{
    newest_among(rows.all(), rows.held(), driver)
}

fn shown_of(alloc: Global, row: &Row) -> Result<Option<ListRow>, AllocError>
    ensures { IfOk result (λ answer. answer ≡ shown row.now) }
{
    if !row.listed {
        return Ok(None);
    }
    let name = Bytes::copy_of(alloc, row.spec.name.as_slice())?;
    let driver = Bytes::copy_of(alloc, row.spec.driver.as_slice())?;
    Ok(Some(ListRow {
        name,
        driver,
        priority: row.spec.priority,
        refs: row.references,
    }))
}

fn push_shown(found: &mut Vec<ListRow>, answer: Option<ListRow>) -> Result<(), AllocError>
    ensures { OnOk result (found.new.items ≡ found.old.items ++ cons_option answer []) }
{
    if let Some(row) = answer {
        found.push(row)?;
    }
    Ok(())
}

fn shown_at(alloc: Global, all: &[Row], id: u64) -> Result<Option<ListRow>, AllocError>
    ensures { IfOk result (λ answer. answer ≡ made_at shown all.now id) }
{
    match all.get(id as usize) {
        Some(row) => shown_of(alloc, row),
        None => Ok(None),
    }
}

fn shown_among(alloc: Global, all: &[Row], listed: &[u64]) -> Result<Vec<ListRow>, AllocError>
    ensures { IfOk result (λ found. found.items ≡ filter_map (made_at shown all.now) listed.now) }
{
    let mut found = Vec::new(alloc);
    for id in listed {
        let answer = shown_at(alloc, all, *id)?;
        push_shown(&mut found, answer)?;
    }
    Ok(found)
}

/// The listed entries, by id.
pub fn listing_of(alloc: Global, rows: &Rows) -> Result<Listing, AllocError>
    ensures { IfOk result (λ answer. answer ≡ listing rows.now.list) }
{
    let found = shown_among(alloc, rows.all(), rows.listed())?;
    Ok(Listing { rows: found })
}
