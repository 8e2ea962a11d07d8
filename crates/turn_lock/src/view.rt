//! What a pass knows.

use std::collections::LinkedList;

/// Where a pass stands.
pub enum Stage {
    /// It was joined into another.
    Spent,
    /// It has no ticket.
    Idle,
    /// It has a ticket.
    Waiting,
    /// Its ticket is served, and the value is its own.
    Holding,
}

/// What a seat at the table knows. No value of it is made.
pub struct View<E> {
    pub stage: Stage,
    /// The ticket, where the stage is `Waiting` or `Holding`.
    pub ticket: u64,
    pub number: u32,
    /// The lowest number that may be given.
    pub next: u32,
    /// A front of the history.
    pub seen: LinkedList<E>,
    /// A front of the history that a joined pass had seen, until the two are compared.
    pub told: LinkedList<E>,
    /// The entries of the history that were made under the number.
    pub made: LinkedList<E>,
    /// The numbers under which no further entry is made, each with those of the history.
    pub ended: LinkedList<(u32, LinkedList<E>)>,
}
