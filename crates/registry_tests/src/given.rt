//! What the tests read from the words of their rows.

ghost use Rattle.std.specs.Prelude.{◌≡◌, []};

use alg_names::{Name, parse_name};
use alg_registry::{Kind, Registry};
use kc_base::Bytes;
use std::alloc::Global;
use std::process::Abort;

/// The words of a row, which stand between these.
pub(crate) fn words_of(
    rt: &impl Abort,
    alloc: Global,
    row: &'static str,
    between: char,
) -> Vec<&'static str> {
    let mut words = Vec::new(alloc);
    for word in row.split(between) {
        words.push(word).expect(rt, "memory");
    }
    words
}

pub(crate) fn number_in(rt: &impl Abort, word: &str) -> u32 {
    word.parse::<u32>().expect(rt, "a number")
}

pub(crate) fn bytes_of(rt: &impl Abort, alloc: Global, text: &[u8]) -> Bytes
    ensures { result ≡ text.now }
{
    Bytes::copy_of(alloc, text).expect(rt, "memory")
}

/// A name by its text.
pub(crate) fn named(rt: &impl Abort, alloc: Global, text: &str) -> Name {
    parse_name(alloc, text.as_bytes()).expect(rt, "a name")
}

pub(crate) fn kind_in(word: &str) -> Option<Kind> {
    match word {
        "cipher" => Some(Kind::Cipher),
        "hash" => Some(Kind::Hash),
        "ghash" => Some(Kind::Ghash),
        "skcipher" => Some(Kind::Skcipher),
        "aead" => Some(Kind::Aead),
        "mac" => Some(Kind::Mac),
        _ => None,
    }
}

pub(crate) fn new_registry(rt: &impl Abort, alloc: Global) -> Registry
    ensures { result ≡ [] }
{
    Registry::new(alloc).expect(rt, "memory")
}
