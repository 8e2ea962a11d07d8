//! What goes over a text.

ghost use Rattle.std.specs.Prelude.{◌≡◌, ◌%◌, ◌++◌, ℕ, List, [], length};

/// What goes over a text from its front, one piece after another, and changes each in its place. Every piece but the
/// last is of whole blocks of 16 bytes.
pub trait Walker {
    /// What it makes of a text: the walker in front of it, the text, what is made of it, and the walker behind it.
    ghost makes: { Self → List ℕ → List ℕ → Self → Type 0 };

    /// Goes over the next piece, which may be empty.
    fn step(&mut self, piece: &mut [u8])
        ensures { makes self.old piece.old piece.new self.new };

    /// No text is none, and leaves the walker as it was.
    ghost stays: { (walker : Self) → makes walker [] [] walker };

    /// A text of whole blocks and a text behind it are one text.
    ghost joins: { (u v w : Self) (a b made_a made_b : List ℕ) → length a % 16 ≡ 0
        → makes u a made_a v → makes v b made_b w → makes u (a ++ b) (made_a ++ made_b) w };
}
