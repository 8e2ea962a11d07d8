//! What may go from a thread to another.

use crate::pipe::Pipe;

fn moves<T: Send>(_value: &T) {}

/// A pipe may go from a thread to another.
pub fn pipes_cross(pipe: &Pipe) {
    moves(pipe);
}
