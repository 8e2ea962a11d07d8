//! The line of a load.

ghost use Rattle.std.specs.Prelude.{◌≡◌, ◌++◌, ℕ, List, IfOk};
ghost use Rattle.std.specs.List.{flat_map};
ghost use Rattle.sha2.specs.Hashers.{Holds256};
ghost use Rattle.load_mode.specs.Requests.{line_of};
ghost use Rattle.load_mode.specs.Turns.{bytes_told};

use kc_base::Bytes;
use reply_text::Answer;
use sha2::{Digest, Sha256};
use std::alloc::{AllocError, Global};

/// Adds to a hash the bytes of the completions among these answers.
pub fn hash_completions(hasher: &mut Sha256, answers: &[Answer])
    ensures { (m : List ℕ) → Holds256 hasher.old m → Holds256 hasher.new (m ++ flat_map bytes_told answers.now) }
{
    for answer in answers {
        if let Answer::Done { bytes, .. } = answer {
            hasher.update(bytes.as_slice());
        }
    }
}

/// `load COUNT HEX` and a line feed: the count in decimal digits, the digest in 64 hexadecimal digits of lower case.
/// Want of memory is the only error.
pub fn load_text(alloc: Global, count: u32, digest: &[u8; 32]) -> Result<Bytes, AllocError>
    ensures { IfOk result (λ text. text ≡ line_of count digest.now) }
{
    let count = count.to_string(alloc)?;
    let digits = hex::encode(alloc, digest)?;
    let mut text = Bytes::copy_of(alloc, b"load ")?;
    text.append(count.as_bytes())?;
    text.push(b' ')?;
    text.append(digits.as_bytes())?;
    text.push(b'\n')?;
    Ok(text)
}
