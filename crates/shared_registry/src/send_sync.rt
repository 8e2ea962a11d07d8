//! A registry may be shared by threads, and its passes may move between them.

use crate::registry_lock::{RegPass, SharedRegistry};

fn moves<X: Send>(_x: &X) {}

fn is_shared<X: Send + Sync>(_x: &X) {}

pub fn can_be_shared(registry: &SharedRegistry, pass: &RegPass) {
    is_shared(registry);
    moves(pass);
}
