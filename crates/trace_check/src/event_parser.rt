//! A loose reading of a line's words.

ghost use Rattle.std.specs.Prelude.{◌≡◌, ◌<◌, ◌==◌, Some, map, IfOk};
ghost use Rattle.std.specs.List.{slice_split};
ghost use Rattle.std.specs.Option.{option_map};
ghost use Rattle.std.specs.Str.{bytes_eq};
ghost use Rattle.alg_registry.specs.declared.entry.RegEntry.TheVariants as Entry;
ghost use Rattle.trace_check.specs.AskLines.{unplaced};
ghost use Rattle.trace_check.specs.EventParser.{digit_after, number_from, number_of, small_of, ids_of, kind_of, wrap_of, errno_of, enlisted_of, plain_spec, enlist_of, looked_of, look_of, spec_of, built_of, joined_of, failed_of, ending_of, end_of, unlist_of, get_of, refs_of, lone_number, pair_in, numbered_of, registry_of, origin_in, origin_read, shape_of, born_of, submit_of, entered_of, enq_of, started_of, deq_of, hex_value, mask_in, mask_of, counted_of, piped_of, short_of, board_of};

use crate::lines::AskLine;
use alg_registry::{EndAnswer, Enlisted, Ids, Kind, Looked, RegEntry, Spec, Wrap};
use board::{BoardEntry, Entered, Shape};
use kc_base::{Bytes, Errno};
use reply_text::Origin;
use std::alloc::{AllocError, Global};
use std::sync::Arc;

pub(crate) fn is_same(word: &[u8], name: &[u8]) -> bool
    ensures { result ≡ bytes_eq word.now name.now }
{
    word == name
}

// One digit more, where the number stays below 2^64.
fn with_digit(value: u64, digit: u8) -> Option<u64>
    ensures { result ≡ digit_after value digit }
{
    if digit < b'0' {
        return None;
    }
    value.checked_mul(10)?.checked_add(u64::from(digit - b'0'))
}

// The number that a word writes.
fn number_in(word: &[u8]) -> Option<u64>
    ensures { result ≡ number_from 0 word.now }
{
    let mut value = 0u64;
    for digit in word {
        value = with_digit(value, *digit)?;
    }
    Some(value)
}

fn number_of(word: &[u8]) -> u64
    ensures { result ≡ number_of word.now }
{
    number_in(word).unwrap_or(0)
}

pub(crate) fn small_of(word: &[u8]) -> u32
    ensures { result ≡ small_of word.now }
{
    let number = number_of(word);
    if number < 4_294_967_296 {
        number as u32
    } else {
        0
    }
}

/// What stands between bytes of this value.
pub(crate) fn parts_of(alloc: Global, text: &[u8], byte: u8) -> Result<Vec<&[u8]>, AllocError>
    ensures { IfOk result (λ parts. map (λ part. part.now) parts.items ≡ slice_split (λ b. b == byte) text.now) }
{
    text.split(|b| *b == byte).collect(alloc)
}

fn numbers_of(alloc: Global, words: &[&[u8]]) -> Result<Ids, AllocError>
    ensures { IfOk result (λ ids. ids ≡ map number_of (map (λ word. word.now) words.now)) }
{
    let mut ids = Ids::new(alloc);
    for word in words {
        ids.push(number_of(word))?;
    }
    Ok(ids)
}

fn ids_of(alloc: Global, word: &[u8]) -> Result<Ids, AllocError>
    ensures { IfOk result (λ ids. ids ≡ ids_of word.now) }
{
    if is_same(word, b"-") {
        return Ok(Ids::new(alloc));
    }
    let parts = parts_of(alloc, word, b',')?;
    numbers_of(alloc, &parts)
}

fn kind_of(word: &[u8]) -> Kind
    ensures { result ≡ kind_of word.now }
{
    if is_same(word, b"cipher") {
        Kind::Cipher
    } else if is_same(word, b"hash") {
        Kind::Hash
    } else if is_same(word, b"ghash") {
        Kind::Ghash
    } else if is_same(word, b"skcipher") {
        Kind::Skcipher
    } else if is_same(word, b"aead") {
        Kind::Aead
    } else {
        Kind::Mac
    }
}

fn wrap_of(word: &[u8]) -> Wrap
    ensures { result ≡ wrap_of word.now }
{
    if is_same(word, b"plain") {
        Wrap::Plain
    } else if is_same(word, b"pcrypt") {
        Wrap::Pcrypt
    } else {
        Wrap::Cryptd
    }
}

fn errno_of(word: &[u8]) -> Errno
    ensures { result ≡ errno_of word.now }
{
    if is_same(word, b"ENOENT") {
        Errno::ENOENT
    } else if is_same(word, b"E2BIG") {
        Errno::E2BIG
    } else if is_same(word, b"EAGAIN") {
        Errno::EAGAIN
    } else if is_same(word, b"EBUSY") {
        Errno::EBUSY
    } else if is_same(word, b"EEXIST") {
        Errno::EEXIST
    } else if is_same(word, b"EINVAL") {
        Errno::EINVAL
    } else if is_same(word, b"ENFILE") {
        Errno::ENFILE
    } else if is_same(word, b"EMFILE") {
        Errno::EMFILE
    } else if is_same(word, b"ENOSPC") {
        Errno::ENOSPC
    } else if is_same(word, b"ENAMETOOLONG") {
        Errno::ENAMETOOLONG
    } else if is_same(word, b"EBADMSG") {
        Errno::EBADMSG
    } else if is_same(word, b"EINPROGRESS") {
        Errno::EINPROGRESS
    } else {
        Errno::ENOKEY
    }
}

fn enlisted_of(words: &[&[u8]]) -> Enlisted
    ensures { result ≡ enlisted_of (map (λ word. word.now) words.now) }
{
    match words {
        [_word, id] => Enlisted::Made(number_of(id)),
        [word] if is_same(word, b"EEXIST") => Enlisted::Exist,
        _ => Enlisted::NFile,
    }
}

/// What stands on no other, and runs nobody's work.
pub(crate) fn plain_spec(
    alloc: Global,
    name: &[u8],
    driver: &[u8],
    kind: Kind,
    priority: u32,
) -> Result<Spec, AllocError>
    ensures { IfOk result (λ spec. spec ≡ plain_spec name.now driver.now kind priority) }
{
    Ok(Spec {
        name: Bytes::copy_of(alloc, name)?,
        driver: Bytes::copy_of(alloc, driver)?,
        kind,
        wrap: Wrap::Plain,
        priority,
        below: Ids::new(alloc),
    })
}

fn enlist_of(alloc: Global, caller: u32, words: &[&[u8]]) -> Result<Option<RegEntry>, AllocError>
    ensures { IfOk result (λ event. event ≡ enlist_of caller (map (λ word. word.now) words.now)) }
{
    let [name, driver, kind, priority, answer @ ..] = words else {
        return Ok(None);
    };
    let spec = plain_spec(alloc, name, driver, kind_of(kind), small_of(priority))?;
    Ok(Some(RegEntry::Enlist {
        caller,
        spec,
        answer: enlisted_of(answer),
    }))
}

fn looked_of(words: &[&[u8]]) -> Looked
    ensures { result ≡ looked_of (map (λ word. word.now) words.now) }
{
    match words {
        [word, number] if is_same(word, b"found") => Looked::Found(number_of(number)),
        [word, number] if is_same(word, b"pending") => Looked::Pending(number_of(number)),
        [_word, number] => Looked::Began(number_of(number)),
        _ => Looked::Absent,
    }
}

fn look_of(alloc: Global, caller: u32, words: &[&[u8]]) -> Result<Option<RegEntry>, AllocError>
    ensures { IfOk result (λ event. event ≡ look_of caller (map (λ word. word.now) words.now)) }
{
    let [text, sight, answer @ ..] = words else {
        return Ok(None);
    };
    let text = Bytes::copy_of(alloc, text)?;
    Ok(Some(RegEntry::Look {
        caller,
        text,
        plain: is_same(sight, b"plain"),
        answer: looked_of(answer),
    }))
}

fn spec_of(
    alloc: Global,
    name: &[u8],
    driver: &[u8],
    words: &[&[u8]],
) -> Result<Option<Spec>, AllocError>
    ensures { IfOk result (λ spec. spec ≡ spec_of name.now driver.now (map (λ word. word.now) words.now)) }
{
    let [kind, wrap, priority, below] = words else {
        return Ok(None);
    };
    let name = Bytes::copy_of(alloc, name)?;
    let driver = Bytes::copy_of(alloc, driver)?;
    let below = ids_of(alloc, below)?;
    Ok(Some(Spec {
        name,
        driver,
        kind: kind_of(kind),
        wrap: wrap_of(wrap),
        priority: small_of(priority),
        below,
    }))
}

fn built_of(alloc: Global, words: &[&[u8]]) -> Result<EndAnswer, AllocError>
    ensures { IfOk result (λ answer. answer ≡ built_of (map (λ word. word.now) words.now)) }
{
    let [id, name, driver, more @ ..] = words else {
        return Ok(EndAnswer::NoMemory);
    };
    match spec_of(alloc, name, driver, more)? {
        Some(spec) => Ok(EndAnswer::Built(number_of(id), spec)),
        None => Ok(EndAnswer::NoMemory),
    }
}

fn joined_of(alloc: Global, words: &[&[u8]]) -> Result<EndAnswer, AllocError>
    ensures { IfOk result (λ answer. answer ≡ joined_of (map (λ word. word.now) words.now)) }
{
    let [id, below] = words else {
        return Ok(EndAnswer::NoMemory);
    };
    let below = ids_of(alloc, below)?;
    Ok(EndAnswer::Joined(number_of(id), below))
}

fn failed_of(words: &[&[u8]]) -> EndAnswer
    ensures { result ≡ failed_of (map (λ word. word.now) words.now) }
{
    match words {
        [errno] => EndAnswer::Failed(errno_of(errno)),
        _ => EndAnswer::NoMemory,
    }
}

fn ending_of(alloc: Global, word: &[u8], words: &[&[u8]]) -> Result<EndAnswer, AllocError>
    ensures { IfOk result (λ answer. answer ≡ ending_of word.now (map (λ word. word.now) words.now)) }
{
    if is_same(word, b"built") {
        built_of(alloc, words)
    } else if is_same(word, b"joined") {
        joined_of(alloc, words)
    } else if is_same(word, b"failed") {
        Ok(failed_of(words))
    } else {
        Ok(EndAnswer::NoMemory)
    }
}

fn end_of(alloc: Global, caller: u32, words: &[&[u8]]) -> Result<Option<RegEntry>, AllocError>
    ensures { IfOk result (λ event. event ≡ end_of caller (map (λ word. word.now) words.now)) }
{
    let [larval, word, more @ ..] = words else {
        return Ok(None);
    };
    let answer = ending_of(alloc, word, more)?;
    Ok(Some(RegEntry::End {
        caller,
        larval: number_of(larval),
        answer,
    }))
}

fn unlisted(
    alloc: Global,
    caller: u32,
    driver: &[u8],
    answer: Option<u64>,
) -> Result<Option<RegEntry>, AllocError>
    ensures { IfOk result (λ event. event ≡ Some (Entry.Unlist caller driver.now answer)) }
{
    let driver = Bytes::copy_of(alloc, driver)?;
    Ok(Some(RegEntry::Unlist {
        caller,
        driver,
        answer,
    }))
}

fn unlist_of(alloc: Global, caller: u32, words: &[&[u8]]) -> Result<Option<RegEntry>, AllocError>
    ensures { IfOk result (λ event. event ≡ unlist_of caller (map (λ word. word.now) words.now)) }
{
    match words {
        [driver, _word, id] => unlisted(alloc, caller, driver, Some(number_of(id))),
        [driver, _word] => unlisted(alloc, caller, driver, None),
        _ => Ok(None),
    }
}

fn get_of(caller: u32, words: &[&[u8]]) -> Option<RegEntry>
    ensures { result ≡ get_of caller (map (λ word. word.now) words.now) }
{
    match words {
        [id, word] => Some(RegEntry::Get {
            caller,
            id: number_of(id),
            ok: is_same(word, b"ok"),
        }),
        _ => None,
    }
}

fn refs_of(alloc: Global, caller: u32, words: &[&[u8]]) -> Result<Option<RegEntry>, AllocError>
    ensures { IfOk result (λ event. event ≡ refs_of caller (map (λ word. word.now) words.now)) }
{
    match words {
        [driver] => {
            let driver = Bytes::copy_of(alloc, driver)?;
            Ok(Some(RegEntry::Refs { caller, driver }))
        }
        _ => Ok(None),
    }
}

// The number that these words are, where they are one.
fn lone_number(words: &[&[u8]]) -> Option<u64>
    ensures { result ≡ lone_number (map (λ word. word.now) words.now) }
{
    match words {
        [number] => Some(number_of(number)),
        _ => None,
    }
}

// And the two that they are.
fn pair_in(words: &[&[u8]]) -> Option<(u64, u64)>
    ensures { result ≡ pair_in (map (λ word. word.now) words.now) }
{
    match words {
        [first, second] => Some((number_of(first), number_of(second))),
        _ => None,
    }
}

fn numbered_of(caller: u32, name: &[u8], number: Option<u64>) -> Option<RegEntry>
    ensures { result ≡ numbered_of caller name.now number }
{
    let number = number?;
    if is_same(name, b"claim") {
        Some(RegEntry::Claim {
            caller,
            larval: number,
        })
    } else if is_same(name, b"waited") {
        Some(RegEntry::Waited {
            caller,
            larval: number,
        })
    } else if is_same(name, b"put") {
        Some(RegEntry::Put { caller, id: number })
    } else {
        None
    }
}

/// The registry's event of this name, with these words.
pub(crate) fn registry_of(
    alloc: Global,
    caller: u32,
    name: &[u8],
    words: &[&[u8]],
) -> Result<Option<RegEntry>, AllocError>
    ensures { IfOk result (λ event. event ≡ registry_of caller name.now (map (λ word. word.now) words.now)) }
{
    if is_same(name, b"enlist") {
        enlist_of(alloc, caller, words)
    } else if is_same(name, b"look") {
        look_of(alloc, caller, words)
    } else if is_same(name, b"end") {
        end_of(alloc, caller, words)
    } else if is_same(name, b"unlist") {
        unlist_of(alloc, caller, words)
    } else if is_same(name, b"get") {
        Ok(get_of(caller, words))
    } else if is_same(name, b"refs") {
        refs_of(alloc, caller, words)
    } else if is_same(name, b"list") {
        Ok(Some(RegEntry::List { caller }))
    } else {
        Ok(numbered_of(caller, name, lone_number(words)))
    }
}

fn shape_of(word: &[u8], size: u32) -> Shape
    ensures { result ≡ shape_of word.now size }
{
    if is_same(word, b"pad") {
        Shape::Pad(size)
    } else {
        Shape::Queue(size)
    }
}

fn born_of(caller: u32, words: &[&[u8]]) -> Option<BoardEntry<AskLine>>
    ensures { option_map unplaced result ≡ born_of caller (map (λ word. word.now) words.now) }
{
    match words {
        [pipe, word, size] => Some(BoardEntry::Born {
            caller,
            pipe: number_of(pipe),
            shape: shape_of(word, small_of(size)),
        }),
        [pipe, _word, max, lists] => Some(BoardEntry::Born {
            caller,
            pipe: number_of(pipe),
            shape: Shape::Chain(small_of(max), small_of(lists)),
        }),
        _ => None,
    }
}

// Where an ask comes from, by the words before and behind a dot.
fn origin_in(parts: &[&[u8]]) -> Origin
    ensures { result ≡ origin_in (map (λ part. part.now) parts.now) }
{
    match parts {
        [line] => Origin {
            client: 0,
            line: small_of(line),
        },
        [client, line] => Origin {
            client: small_of(client),
            line: small_of(line),
        },
        _ => Origin { client: 0, line: 0 },
    }
}

fn origin_read(alloc: Global, word: &[u8]) -> Result<Origin, AllocError>
    ensures { IfOk result (λ of. of ≡ origin_read word.now) }
{
    let parts = parts_of(alloc, word, b'.')?;
    Ok(origin_in(&parts))
}

fn submit_of(
    alloc: Global,
    caller: u32,
    words: &[&[u8]],
) -> Result<Option<BoardEntry<AskLine>>, AllocError>
    ensures { IfOk result (λ event. option_map unplaced event ≡ submit_of caller (map (λ word. word.now) words.now)) }
{
    let [pipe, number, line] = words else {
        return Ok(None);
    };
    let origin = origin_read(alloc, line)?;
    let ask = Arc::new(alloc, AskLine { origin })?;
    Ok(Some(BoardEntry::Submit {
        caller,
        pipe: number_of(pipe),
        number: number_of(number),
        ask,
    }))
}

fn entered_of(words: &[&[u8]]) -> Entered
    ensures { result ≡ entered_of (map (λ word. word.now) words.now) }
{
    match words {
        [word, number] if is_same(word, b"EBUSY") => Entered::Busy(number_of(number)),
        [_word, number] => Entered::InProgress(number_of(number)),
        _ => Entered::NoSpace,
    }
}

fn enq_of(
    alloc: Global,
    caller: u32,
    words: &[&[u8]],
) -> Result<Option<BoardEntry<AskLine>>, AllocError>
    ensures { IfOk result (λ event. option_map unplaced event ≡ enq_of caller (map (λ word. word.now) words.now)) }
{
    let [pipe, line, backlog, answer @ ..] = words else {
        return Ok(None);
    };
    let origin = origin_read(alloc, line)?;
    let ask = Arc::new(alloc, AskLine { origin })?;
    Ok(Some(BoardEntry::Enq {
        caller,
        pipe: number_of(pipe),
        ask,
        backlog: is_same(backlog, b"backlog"),
        answer: entered_of(answer),
    }))
}

fn started_of(words: &[&[u8]]) -> Option<u64>
    ensures { result ≡ started_of (map (λ word. word.now) words.now) }
{
    match words {
        [_word, number] => Some(number_of(number)),
        _ => None,
    }
}

fn deq_of(caller: u32, words: &[&[u8]]) -> Option<BoardEntry<AskLine>>
    ensures { option_map unplaced result ≡ deq_of caller (map (λ word. word.now) words.now) }
{
    match words {
        [pipe, number, answer @ ..] => Some(BoardEntry::Deq {
            caller,
            pipe: number_of(pipe),
            number: number_of(number),
            started: started_of(answer),
        }),
        _ => None,
    }
}

// The number that a hexadecimal digit writes, and of another byte any below 16.
fn hex_value(digit: u8) -> u16
    ensures value { result ≡ hex_value digit }
    ensures below { result < 16 }
{
    let value = if digit < 58 {
        digit.saturating_sub(48)
    } else {
        digit.saturating_sub(87)
    };
    u16::from(value % 16)
}

fn mask_in(word: &[u8]) -> u16
    ensures { result ≡ mask_in word.now }
{
    match word {
        [a, b, c, d] => {
            hex_value(*a) * 4096 + hex_value(*b) * 256 + hex_value(*c) * 16 + hex_value(*d)
        }
        _ => 0,
    }
}

fn mask_of(caller: u32, words: &[&[u8]]) -> Option<BoardEntry<AskLine>>
    ensures { option_map unplaced result ≡ mask_of caller (map (λ word. word.now) words.now) }
{
    match words {
        [pipe, mask] => Some(BoardEntry::Mask {
            caller,
            pipe: number_of(pipe),
            mask: mask_in(mask),
        }),
        _ => None,
    }
}

fn counted_of(caller: u32, name: &[u8], pipe: u64, number: u64) -> Option<BoardEntry<AskLine>>
    ensures { option_map unplaced result ≡ counted_of caller name.now pipe number }
{
    if is_same(name, b"take") {
        Some(BoardEntry::Take {
            caller,
            pipe,
            number,
        })
    } else if is_same(name, b"finish") {
        Some(BoardEntry::Finish {
            caller,
            pipe,
            number,
        })
    } else if is_same(name, b"done") {
        Some(BoardEntry::Done {
            caller,
            pipe,
            number,
        })
    } else if is_same(name, b"collect") {
        Some(BoardEntry::Collect {
            caller,
            pipe,
            to: number,
        })
    } else {
        None
    }
}

fn piped_of(caller: u32, name: &[u8], pipe: u64) -> Option<BoardEntry<AskLine>>
    ensures { option_map unplaced result ≡ piped_of caller name.now pipe }
{
    if is_same(name, b"hold") {
        Some(BoardEntry::Hold { caller, pipe })
    } else if is_same(name, b"go") {
        Some(BoardEntry::Go { caller, pipe })
    } else if is_same(name, b"close") {
        Some(BoardEntry::Close { caller, pipe })
    } else if is_same(name, b"share") {
        Some(BoardEntry::Share { caller, pipe })
    } else {
        None
    }
}

// An event of a pipeline alone, or of a pipeline and a number.
fn short_of(
    caller: u32,
    name: &[u8],
    lone: Option<u64>,
    pair: Option<(u64, u64)>,
) -> Option<BoardEntry<AskLine>>
    ensures { option_map unplaced result ≡ short_of caller name.now lone pair }
{
    match (lone, pair) {
        (Some(pipe), _) => piped_of(caller, name, pipe),
        (None, Some((pipe, number))) => counted_of(caller, name, pipe, number),
        (None, None) => None,
    }
}

/// The board's event of this name, with these words.
pub(crate) fn board_of(
    alloc: Global,
    caller: u32,
    name: &[u8],
    words: &[&[u8]],
) -> Result<Option<BoardEntry<AskLine>>, AllocError>
    ensures { IfOk result (λ event. option_map unplaced event ≡ board_of caller name.now (map (λ word. word.now) words.now)) }
{
    if is_same(name, b"born") {
        Ok(born_of(caller, words))
    } else if is_same(name, b"submit") {
        submit_of(alloc, caller, words)
    } else if is_same(name, b"enq") {
        enq_of(alloc, caller, words)
    } else if is_same(name, b"deq") {
        Ok(deq_of(caller, words))
    } else if is_same(name, b"mask") {
        Ok(mask_of(caller, words))
    } else if is_same(name, b"shut") {
        Ok(Some(BoardEntry::Shut { caller }))
    } else {
        Ok(short_of(caller, name, lone_number(words), pair_in(words)))
    }
}
