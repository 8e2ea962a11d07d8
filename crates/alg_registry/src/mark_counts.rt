//! Giving entries their marks and references again, where those that aren't held have theirs.

ghost use Rattle.std.specs.Prelude.{◌≡◌, ℕ, ◌+◌, ◌-◌, ◌^◌, ◌<◌, ◌≤◌, ◌==◌, ◌∷◌, [], length, take, drop, All};
ghost use Rattle.std.specs.List.{list_any, list_all};
ghost use Rattle.alg_registry.specs.declared.row.Row.{Row};
ghost use Rattle.alg_registry.specs.Rows.{is_held, listed_at};
ghost use Rattle.alg_registry.specs.MarkCounts.{remarked_at, remarked_all, referred, gave, gave_all, restood};

use crate::row::Row;

pub fn is_row_held(row: &Row) -> bool
    ensures { result ≡ is_held row.now }
{
    row.listed || 0 < row.references
}

pub fn is_listed_at(rows: &[Row], id: u64) -> bool
    ensures { result ≡ listed_at rows.now id }
{
    match rows.get(id as usize) {
        Some(row) => row.listed,
        None => false,
    }
}

pub fn are_listed(rows: &[Row], ids: &[u64]) -> bool
    ensures { result ≡ list_all (listed_at rows.now) ids.now }
{
    ids.iter().all(|id| is_listed_at(rows, *id))
}

pub fn is_among(ids: &[u64], id: u64) -> bool
    ensures { result ≡ list_any (λ other. other == id) ids.now }
{
    ids.iter().any(|other| *other == id)
}

/// One more reference to the entry of the id, where it is one of these.
fn add_reference(rows: &mut [Row], id: u64)
    requires { All (λ row. row.references < 2 ^ 64 - 1) rows.old }
    ensures { rows.new ≡ referred 0 (id ∷ []) rows.old }
{
    let place = id as usize;
    if place < rows.len() {
        let row = &mut rows[place];
        row.references += 1;
    }
}

/// One more reference to each entry of the ids, however often its id is there.
pub fn add_references(older: &mut [Row], below: &[u64])
    requires { All (λ row. row.references < 2 ^ 64 - 2) older.old }
    ensures { older.new ≡ referred 0 below.now older.old }
{
    for i in 0..below.len() {
        let (before, _rest) = below.split_at(i);
        let id = below[i];
        if !is_among(before, id) {
            add_reference(older, id);
        }
    }
}

/// The entry at the place, where it is held, has a reference to each older one on which it stands.
fn give_references(rows: &mut [Row], place: usize)
    requires within { place < length rows.old }
    requires few { All (λ row. row.references < 2 ^ 64 - 2) rows.old }
    ensures { rows.new ≡ gave place rows.old }
{
    let (older, rest) = rows.split_at_mut(place);
    let row = &rest[0];
    if is_row_held(row) {
        add_references(older, row.spec.below.as_slice());
    }
}

fn give_all(rows: &mut [Row], held: &[u64])
    requires within { All (λ id. id < length rows.old) held.now }
    requires few { All (λ row. row.references < 2 ^ 61) rows.old }
    ensures { rows.new ≡ gave_all held.now rows.old }
{
    let mut i = held.len();
    while i > 0 {
        i -= 1;
        give_references(rows, held[i] as usize);
    }
}

/// The entry at the place has its mark and the references of callers alone, where the older ones have their marks.
fn remark(rows: &mut [Row], place: usize)
    requires { place < length rows.old }
    ensures { rows.new ≡ remarked_at place rows.old }
{
    let (older, rest) = rows.split_at_mut(place);
    let row = &mut rest[0];
    row.listed = !row.unlisted && are_listed(older, row.spec.below.as_slice());
    row.references = row.taken;
}

fn remark_all(rows: &mut [Row], held: &[u64])
    requires { All (λ id. id < length rows.old) held.now }
    ensures { rows.new ≡ remarked_all held.now rows.old }
{
    for id in held {
        remark(rows, *id as usize);
    }
}

/// Gives each entry of the ids its mark and its references.
pub fn restand(rows: &mut [Row], held: &[u64])
    requires within { All (λ id. id < length rows.old) held.now }
    requires few { All (λ row. row.references < 2 ^ 61) (remarked_all held.now rows.old) }
    ensures { rows.new ≡ restood held.now rows.old }
{
    remark_all(rows, held);
    give_all(rows, held);
}
