//! The lock, its passes and its turns.

ghost use Rattle.std.specs.Prelude.{◌≡◌, true, length};
ghost use Rattle.turn_lock.specs.declared.view.Stage.TheVariants.{Idle};
ghost use Rattle.turn_lock.specs.Rule.{is_holding, is_out, viewed};

use crate::ticket_steps::Turns;
use crate::told::Told;
use crate::view::View;
use atomic_table::{Badge, Seat, Table};
use crossbeam_utils::CachePadded;
use crossbeam_utils::sync::EventCount;
use std::alloc::Global;

/// A lock round a value that stands for a history.
#[derive(Drop)]
pub struct TurnLock<T: Told> {
    /// The value stands in a piece of memory of its own, so that a turn moves no more than its address.
    pub(crate) table: Table<Option<Box<T>>, View<T::Entry>, (), Turns<T>, Global>,
    /// Notified where a turn ends, for those who wait for longer than a while.
    pub(crate) ends: CachePadded<EventCount>,
    ghost shape: { (table.shared.table_id.words ≡ 2) × (table.shared.table_id.slots ≡ 1) },
}

/// What one caller knows of a lock's history, and its right to take a turn.
#[derive(Drop)]
pub struct Pass<E> {
    pub(crate) number: u32,
    pub(crate) next: u32,
    pub(crate) badge: Badge<View<E>>,
    ghost one: { length badge.views ≡ 1 },
    ghost numbers: { ((viewed badge.views).number ≡ number) × ((viewed badge.views).next ≡ next) },
    ghost idle: { (viewed badge.views).stage ≡ Idle },
}

/// A pass's turn, in which the value is its own. It ends by `give`.
pub struct Turn<'a, T: Told> {
    pub(crate) lock: &'a TurnLock<T>,
    pub(crate) value: Box<T>,
    pub(crate) number: u32,
    pub(crate) next: u32,
    pub(crate) seat: Seat<Option<Box<T>>, View<T::Entry>>,
    ghost numbers: { (seat.me.0.number ≡ number) × (seat.me.0.next ≡ next) },
    ghost holding: { (is_holding seat.me.0.stage ≡ true) × (is_out seat.me.1 ≡ true) },
    ghost own: { seat.table_id ≡ lock.now.table.shared.table_id },
}
