//! The comparison of tags.

ghost use Rattle.std.specs.Prelude.{◌≡◌, ◌≤◌, length, take, bytes_eq, not};

/// Whether `tag` isn't the front of the full tag. Every byte of it is looked at, wherever the first difference is: how
/// long a comparison takes would tell a forger how much of a tag is right.
pub fn tags_differ(full: &[u8], tag: &[u8]) -> bool
    requires { length tag.now ≤ length full.now }
    ensures { result ≡ not (bytes_eq (take (length tag.now) full.now) tag.now) }
{
    let mut differences = 0u8;
    for i in 0..tag.len() {
        differences |= full[i] ^ tag[i];
    }
    differences != 0
}
