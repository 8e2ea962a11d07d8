//! What a locked value means.

ghost use Rattle.std.specs.Prelude.{ℕ, List};

/// A value that stands for a history. It has no method: the lock knows the lists alone.
pub trait Told: Send + Drop {
    type Entry;

    /// The list of entries for which the value stands.
    ghost told: { Self → List Self.Entry };

    /// The number of the pass under which an entry was made.
    ghost by: { Self.Entry → ℕ };
}
