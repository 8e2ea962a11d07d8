//! Whether the processor's instructions stand in the place of the functions of this crate.

/// Whether the functions of this crate are the processor's instructions. No clause says which: callers are proved for
/// both answers. As compiled from here it is false.
pub fn has_instructions() -> bool {
    false
}
