//! Texts that are sealed where they lie.

ghost use Rattle.std.specs.Prelude.{◌≡◌, ◌≢◌, ℕ, List, ◌+◌, ◌≤◌, ◌++◌, length, take, drop};
ghost use Rattle.in_step.specs.Texts.{text_in};

/// A text in one piece of memory, whoever owns that.
pub trait Text {
    /// The bytes of the text.
    ghost bytes_of: { Self → List ℕ };

    /// The bytes of the text.
    fn bytes(&self) -> &[u8]
        ensures { result.now ≡ bytes_of self.now };

    /// Writes `from` over the bytes from `at` on.
    fn write(&mut self, at: usize, from: &[u8])
        requires { at + length from.now ≤ length (bytes_of self.old) }
        ensures { bytes_of self.new ≡ take at (bytes_of self.old) ++ from.now ++ drop (at + length from.now) (bytes_of self.old) };
}

impl Text for Vec<u8> {
    ghost bytes_of = { λ v. v.items };

    fn bytes(&self) -> &[u8] {
        self.as_slice()
    }

    fn write(&mut self, at: usize, from: &[u8]) {
        self[at..at + from.len()].copy_from_slice(from);
    }
}

/// The bytes of text `n`, and none behind the last text.
pub fn bytes_at<T: Text>(texts: &[T], n: usize) -> &[u8]
    ensures { result.now ≡ text_in T.bytes_of texts.now n }
{
    if n < texts.len() {
        texts[n].bytes()
    } else {
        &[]
    }
}

/// Writes `from` over the bytes of text `n` from `at` on.
pub fn write_at<T: Text>(texts: &mut [T], n: usize, at: usize, from: &[u8])
    requires { at + length from.now ≤ length (text_in T.bytes_of texts.old n) }
    ensures text { text_in T.bytes_of texts.new n
        ≡ take at (text_in T.bytes_of texts.old n) ++ from.now ++ drop (at + length from.now) (text_in T.bytes_of texts.old n) }
    ensures others { (k : ℕ) → k ≢ n → text_in T.bytes_of texts.new k ≡ text_in T.bytes_of texts.old k }
    ensures count { length texts.new ≡ length texts.old }
{
    if n < texts.len() {
        texts[n].write(at, from);
    }
}
