//! A lock may be shared by threads, and a pass and a turn may move between them.

use crate::lock::{Pass, Turn, TurnLock};
use crate::told::Told;

fn moves<X: Send>(_x: &X) {}

fn is_shared<X: Send + Sync>(_x: &X) {}

pub fn can_be_shared<T: Told>(lock: &TurnLock<T>, pass: &Pass<T::Entry>, turn: &Turn<T>) {
    is_shared(lock);
    moves(pass);
    moves(turn);
}
