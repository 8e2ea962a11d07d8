//! How large a name may be.

/// The bytes of a name.
pub const MAX_BYTES: usize = 127;

/// The levels of a name: a word alone has one, a template one more than its deepest argument.
pub const MAX_LEVELS: usize = 8;

/// The arguments of one template.
pub const MAX_ARGUMENTS: usize = 4;
