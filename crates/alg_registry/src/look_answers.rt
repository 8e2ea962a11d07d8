//! What a look answers.

ghost use Rattle.std.specs.Prelude.{◌≡◌, ℕ, ◌+◌, ◌&&◌, ◌==◌, length, drop, slice_get, IfOk, IfErr};
ghost use Rattle.std.specs.List.{list_any, find};
ghost use Rattle.std.specs.Option.{option_map_or};
ghost use Rattle.std.specs.Str.{bytes_eq};
ghost use Rattle.alg_registry.specs.Answers.{may_find, is_plain, better, is_pending, is_template, not_found, look_answer};
ghost use Rattle.alg_registry.specs.Larvals.{answers_by, passes_at, seen_from};
ghost use Rattle.alg_registry.specs.Held.{passes, better_by, best_among, is_plain_driver};

use crate::entry::{Looked, RegErr};
use crate::larvals::Larvals;
use crate::mark_counts::is_among;
use crate::row::Row;
use crate::rows::{Rows, is_same};
use crate::spec::Wrap;
use std::alloc::Global;

fn may_be_found(row: &Row, plain: bool) -> bool
    ensures { result ≡ may_find plain row.now }
{
    row.listed && (!plain || row.spec.wrap == Wrap::Plain)
}

fn does_answer_to(joined: &[u64], text: &[u8], plain: bool, id: u64, row: &Row) -> bool
    ensures { result ≡ answers_by joined.now text.now plain id row.now }
{
    may_be_found(row, plain) && (is_same(row.spec.name.as_slice(), text) || is_among(joined, id))
}

fn better_of(id: u64, row: &Row, best: Option<(u64, u32)>) -> Option<(u64, u32)>
    ensures { result ≡ better id row.now best }
{
    match best {
        Some((other, priority)) => {
            if priority < row.spec.priority {
                Some((id, row.spec.priority))
            } else {
                Some((other, priority))
            }
        }
        None => Some((id, row.spec.priority)),
    }
}

/// Of the entry of the id, where it answers to the text, and the best of newer ones the better.
fn better_at(
    all: &[Row],
    id: u64,
    joined: &[u64],
    text: &[u8],
    plain: bool,
    best: Option<(u64, u32)>,
) -> Option<(u64, u32)>
    ensures { result ≡ option_map_or (λ row. better_by joined.now text.now plain id row best) (slice_get all.now id) best }
{
    match all.get(id as usize) {
        Some(row) => {
            if does_answer_to(joined, text, plain, id, row) {
                better_of(id, row, best)
            } else {
                best
            }
        }
        None => best,
    }
}

/// The best of the listed entries that answer to the text, where larvals of it ended with those of the ids `joined`.
fn best_of(
    all: &[Row],
    listed: &[u64],
    joined: &[u64],
    text: &[u8],
    plain: bool,
) -> Option<(u64, u32)>
    ensures { result ≡ best_among joined.now text.now plain all.now listed.now }
{
    let mut best = None;
    let mut i = listed.len();
    while i > 0 {
        i -= 1;
        best = better_at(all, listed[i], joined, text, plain, best);
    }
    best
}

fn is_plain_driver_at(all: &[Row], id: u64, text: &[u8], plain: bool) -> bool
    ensures { result ≡ passes (is_plain_driver text.now plain) all.now id }
{
    match all.get(id as usize) {
        Some(row) => may_be_found(row, plain) && is_same(row.spec.driver.as_slice(), text),
        None => false,
    }
}

fn find_plain_driver(all: &[Row], listed: &[u64], text: &[u8], plain: bool) -> Option<u64>
    ensures { result ≡ find (passes (is_plain_driver text.now plain) all.now) listed.now }
{
    listed
        .iter()
        .copied()
        .find(|id| is_plain_driver_at(all, *id, text, plain))
}

fn is_template_text(text: &[u8]) -> bool
    ensures { result ≡ is_template text.now }
{
    text.iter().any(|byte| *byte == b'(')
}

/// What a look answers where nothing is found.
fn answer_unfound(larvals: &Larvals, text: &[u8]) -> Looked
    ensures { result ≡ not_found larvals.now.list text.now (find (passes_at (is_pending text.now) larvals.now.list) larvals.now.seen) }
{
    match larvals.pending(text) {
        Some(number) => Looked::Pending(number),
        None => {
            if is_template_text(text) {
                Looked::Began(larvals.count())
            } else {
                Looked::Absent
            }
        }
    }
}

/// What a look answers.
pub fn look_up(
    alloc: Global,
    rows: &Rows,
    larvals: &Larvals,
    text: &[u8],
    plain: bool,
) -> Result<Looked, RegErr>
    requires { larvals.now.seen ≡ seen_from rows.now.list 0 larvals.now.list }
    ensures ok { IfOk result (λ answer. answer ≡ look_answer rows.now.list larvals.now.list text.now plain) }
    ensures err { IfErr result (λ e. e ≡ RegErr.Memory) }
{
    if let Some(id) = find_plain_driver(rows.all(), rows.listed(), text, plain) {
        return Ok(Looked::Found(id));
    }
    let joined = larvals.joined(alloc, text)?;
    match best_of(rows.all(), rows.listed(), &joined, text, plain) {
        Some((id, _priority)) => Ok(Looked::Found(id)),
        None => Ok(answer_unfound(larvals, text)),
    }
}
