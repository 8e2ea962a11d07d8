//! A caller's passes on two locks.

use alg_registry::RegEntry;
use board::BoardEntry;
use turn_lock::Pass;

/// What one caller knows of a board and of a registry, and its right to take turns on them.
#[derive(Drop)]
pub struct Passes<A> {
    pub board: Pass<BoardEntry<A>>,
    pub registry: Pass<RegEntry>,
}
