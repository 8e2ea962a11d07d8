//! A registry's events checked in order.

ghost use Rattle.std.specs.Prelude.{◌≡◌, [], ◌∷◌, ◌++◌, IfOk, OnOk, true, map};
ghost use Rattle.std.specs.List.{list_all};
ghost use Rattle.alg_registry.specs.Rows.{opened, marked, rows_of};
ghost use Rattle.alg_registry.specs.Calls.{new_row};
ghost use Rattle.trace_text.specs.Trace.{has_text};
ghost use Rattle.trace_check.specs.RegReasons.{IsFirstWrong};
ghost use Rattle.trace_check.specs.Registers.{row_of, opening_table};

use crate::event_parser::plain_spec;
use crate::reason::Reason;
use crate::register::{Entry, LarvalState, Reference, add_entry};
use crate::registry_judge::judge_registry;
use crate::table_steps::{advance_entries, advance_larvals, advance_references};
use alg_registry::{Kind, RegEntry, Spec};
use std::alloc::{AllocError, Global};

// Adds a driver that is listed from the start.
fn add_opened(
    alloc: Global,
    entries: &mut Vec<Entry>,
    name: &[u8],
    driver: &[u8],
    kind: Kind,
) -> Result<(), AllocError>
    ensures { OnOk result (map row_of entries.new.items
        ≡ marked [] (map row_of entries.old.items ++ new_row (opened name.now driver.now kind) ∷ [])) }
{
    let spec = plain_spec(alloc, name, driver, kind, 100)?;
    add_entry(alloc, entries, &spec)
}

// The entries before the first event.
fn opening_entries(alloc: Global) -> Result<Vec<Entry>, AllocError>
    ensures { IfOk result (λ entries. map row_of entries.items ≡ opening_table) }
{
    let mut entries = Vec::new(alloc);
    add_opened(alloc, &mut entries, b"aes", b"aes-generic", Kind::Cipher)?;
    add_opened(
        alloc,
        &mut entries,
        b"sha256",
        b"sha256-generic",
        Kind::Hash,
    )?;
    add_opened(alloc, &mut entries, b"ghash", b"ghash-generic", Kind::Ghash)?;
    Ok(entries)
}

// The first wrong event, where the checker keeps what it does before the first.
fn first_wrong_from(
    alloc: Global,
    events: &[RegEntry],
    entries: &mut Vec<Entry>,
    larvals: &mut Vec<LarvalState>,
    references: &mut Vec<Reference>,
) -> Result<Option<(u64, Reason)>, AllocError>
    requires text { list_all has_text events.now ≡ true }
    requires opening { map row_of entries.old.items ≡ opening_table }
    requires no_larvals { larvals.old.items ≡ [] }
    requires no_references { references.old.items ≡ [] }
    ensures { IfOk result (λ found. IsFirstWrong events.now found) }
{
    for place in 0..events.len() {
        let event = &events[place];
        if let Some(reason) = judge_registry(alloc, entries, larvals, references, event)? {
            return Ok(Some((place as u64, reason)));
        }
        advance_entries(alloc, entries, event)?;
        advance_larvals(alloc, larvals, event)?;
        advance_references(references, event)?;
    }
    Ok(None)
}

/// The place, counted from 0, and the reason of the first event that isn't right after those before it; `None` where
/// each is right. Names and drivers are words of visible ASCII, and what is enlisted stands on nothing and isn't
/// wrapped. Only want of memory is an error.
pub fn first_wrong_entry(
    alloc: Global,
    events: &[RegEntry],
) -> Result<Option<(u64, Reason)>, AllocError>
    requires { list_all has_text events.now ≡ true }
    ensures { IfOk result (λ found. IsFirstWrong events.now found) }
{
    let mut entries = opening_entries(alloc)?;
    first_wrong_from(
        alloc,
        events,
        &mut entries,
        &mut Vec::new(alloc),
        &mut Vec::new(alloc),
    )
}
