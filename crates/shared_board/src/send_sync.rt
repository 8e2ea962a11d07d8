//! A board may be shared by threads, and a pass may move between them.

use crate::shared::{BoardPass, SharedBoard};
use board::Work;

fn moves<X: Send>(_x: &X) {}

fn is_shared<X: Send + Sync>(_x: &X) {}

pub fn can_be_shared<W: Work>(board: &SharedBoard<W>, pass: &BoardPass<W>) {
    is_shared(board);
    moves(pass);
}
