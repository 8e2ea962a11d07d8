//! The words of events.

ghost use Rattle.std.specs.Prelude.{◌≡◌, ◌<◌, ◌∷◌, true, IfOk, OnOk};
ghost use Rattle.std.specs.List.{list_all};
ghost use Rattle.trace_text.specs.Text.{kind_word, wrap_word, ids_word, plain_word, get_word, backlog_word, hex_digit, mask_word};
ghost use Rattle.trace_text.specs.Trace.{is_u64};

use alg_registry::{Kind, Wrap};
use kc_base::Bytes;
use std::alloc::{AllocError, Global};

pub(crate) fn kind_word(kind: Kind) -> &'static [u8]
    ensures { result.now ≡ kind_word kind }
{
    match kind {
        Kind::Cipher => b"cipher",
        Kind::Hash => b"hash",
        Kind::Ghash => b"ghash",
        Kind::Skcipher => b"skcipher",
        Kind::Aead => b"aead",
        Kind::Mac => b"mac",
    }
}

pub(crate) fn wrap_word(wrap: Wrap) -> &'static [u8]
    ensures { result.now ≡ wrap_word wrap }
{
    match wrap {
        Wrap::Plain => b"plain",
        Wrap::Pcrypt => b"pcrypt",
        Wrap::Cryptd => b"cryptd",
    }
}

pub(crate) fn plain_word(plain: bool) -> &'static [u8]
    ensures { result.now ≡ plain_word plain }
{
    if plain { b"plain" } else { b"any" }
}

pub(crate) fn get_word(ok: bool) -> &'static [u8]
    ensures { result.now ≡ get_word ok }
{
    if ok { b"ok" } else { b"EAGAIN" }
}

pub(crate) fn backlog_word(backlog: bool) -> &'static [u8]
    ensures { result.now ≡ backlog_word backlog }
{
    if backlog { b"backlog" } else { b"plain" }
}

// The digit of a number below 16.
fn hex_digit(number: u16) -> u8
    requires { number < 16 }
    ensures { result ≡ hex_digit number }
{
    if number < 10 {
        b'0' + number as u8
    } else {
        b'a' - 10 + number as u8
    }
}

/// A mask as four digits.
pub(crate) fn mask_word(alloc: Global, mask: u16) -> Result<Bytes, AllocError>
    ensures { IfOk result (λ text. text ≡ mask_word mask) }
{
    Bytes::copy_of(
        alloc,
        &[
            hex_digit(mask / 4096 % 16),
            hex_digit(mask / 256 % 16),
            hex_digit(mask / 16 % 16),
            hex_digit(mask % 16),
        ],
    )
}

// Numbers behind a first one, with a comma before each.
fn more_ids(alloc: Global, first: u64, others: &[u64]) -> Result<Bytes, AllocError>
    ensures { IfOk result (λ text. text ≡ ids_word (first ∷ others.now)) }
{
    let mut text = Bytes::copy_of(alloc, first.to_string(alloc)?.as_bytes())?;
    for id in others {
        text.push(b',')?;
        text.append(id.to_string(alloc)?.as_bytes())?;
    }
    Ok(text)
}

/// Ids as one word.
pub(crate) fn ids_word(alloc: Global, ids: &[u64]) -> Result<Bytes, AllocError>
    ensures text { IfOk result (λ text. text ≡ ids_word ids.now) }
    ensures fits { OnOk result (list_all is_u64 ids.now ≡ true) }
{
    match ids {
        [] => Bytes::copy_of(alloc, b"-"),
        [first, others @ ..] => more_ids(alloc, *first, others),
    }
}
