//! Words in a line.

ghost use Rattle.std.specs.Prelude.{◌≡◌, ◌+◌, ◌*◌, ◌^◌, ◌≤◌, ◌∷◌, [], ◌++◌, map, length, ◌<◌, codes};
ghost use Rattle.std.specs.Fmt.{decimal};
ghost use Rattle.std.specs.List.{join_with_byte};
ghost use Rattle.reply_text.specs.Answers.{hex_text, sentence};
ghost use Rattle.reply_text.specs.Origins.{origin_word};
ghost use Rattle.reply_text.specs.Written.{Puts};

use crate::origin::{Origin, OriginWord};
use crate::reply::Reply;
use itoa::Buffer;
use std::alloc::AllocError;

// How many bytes a line of these words has; more than any memory holds stand for as many.
fn line_len(first: &[u8], others: &[&[u8]]) -> usize
    ensures most { result ≤ length (sentence (first.now ∷ map (λ word. word.now) others.now)) }
    ensures exact { result < 2 ^ 63 → result ≡ length (sentence (first.now ∷ map (λ word. word.now) others.now)) }
{
    let mut len = first.len();
    for word in others {
        len = len.saturating_add(word.len()).saturating_add(1);
    }
    len.saturating_add(1)
}

// Adds the words with a blank between each two. There is room for them.
fn append_words(reply: &mut Reply, first: &[u8], others: &[&[u8]])
    requires { length (join_with_byte 32 (first.now ∷ map (λ word. word.now) others.now)) ≤ reply.old.spare }
    ensures text { reply.new.text ≡ reply.old.text ++ join_with_byte 32 (first.now ∷ map (λ word. word.now) others.now) }
    ensures spare { reply.new.spare + length (join_with_byte 32 (first.now ∷ map (λ word. word.now) others.now)) ≡ reply.old.spare }
{
    reply.append(first);
    for word in others {
        reply.append(b" ");
        reply.append(word);
    }
}

/// Adds a line of these words, with a blank between each two.
pub fn say(reply: &mut Reply, first: &[u8], others: &[&[u8]]) -> Result<(), AllocError>
    ensures { Puts (sentence (first.now ∷ map (λ word. word.now) others.now)) reply.old reply.new result }
{
    reply.reserve(line_len(first, others))?;
    append_words(reply, first, others);
    reply.append(b"\n");
    Ok(())
}

/// Adds a line that begins with a number.
pub fn say_numbered(reply: &mut Reply, line: u32, words: &[&[u8]]) -> Result<(), AllocError>
    ensures { Puts (sentence (decimal line ∷ map (λ word. word.now) words.now)) reply.old reply.new result }
{
    let mut number = Buffer::new();
    say(reply, number.format(line).as_bytes(), words)
}

// How many bytes a line has with this number, this word and the digits of so many bytes; more than any memory holds
// stand for as many.
fn digits_line_len(number: &[u8], word: &[u8], bytes: usize) -> usize
    requires { bytes < 2 ^ 63 }
    ensures most { result ≤ length number.now + length word.now + 2 * bytes + 3 }
    ensures exact { result < 2 ^ 63 → result ≡ length number.now + length word.now + 2 * bytes + 3 }
{
    number
        .len()
        .saturating_add(word.len())
        .saturating_add(2 * bytes)
        .saturating_add(3)
}

/// Adds a line of a first word, another one and bytes in hexadecimal digits, `-` for no bytes.
pub fn say_bytes(
    reply: &mut Reply,
    first: &[u8],
    word: &[u8],
    bytes: &[u8],
) -> Result<(), AllocError>
    ensures { Puts (sentence (first.now ∷ word.now ∷ hex_text bytes.now ∷ [])) reply.old reply.new result }
{
    if bytes.is_empty() {
        return say(reply, first, &[word, b"-".as_slice()]);
    }
    reply.reserve(digits_line_len(first, word, bytes.len()))?;
    reply.append(first);
    reply.append(b" ");
    reply.append(word);
    reply.append(b" ");
    reply.append_digits(bytes);
    reply.append(b"\n");
    Ok(())
}

/// Adds a line of a number, `ok` and bytes in hexadecimal digits, `-` for no bytes.
pub fn say_value(reply: &mut Reply, line: u32, bytes: &[u8]) -> Result<(), AllocError>
    ensures { Puts (sentence (decimal line ∷ codes "ok" ∷ hex_text bytes.now ∷ [])) reply.old reply.new result }
{
    let mut number = Buffer::new();
    say_bytes(reply, number.format(line).as_bytes(), b"ok", bytes)
}

/// Adds a line that begins with an origin.
pub fn say_told(reply: &mut Reply, of: Origin, words: &[&[u8]]) -> Result<(), AllocError>
    ensures { Puts (sentence (origin_word of ∷ map (λ word. word.now) words.now)) reply.old reply.new result }
{
    say(reply, OriginWord::of(of).as_slice(), words)
}

/// Adds a line of an origin, `done` and bytes in hexadecimal digits, `-` for no bytes.
pub fn say_done(reply: &mut Reply, of: Origin, bytes: &[u8]) -> Result<(), AllocError>
    ensures { Puts (sentence (origin_word of ∷ codes "done" ∷ hex_text bytes.now ∷ [])) reply.old reply.new result }
{
    say_bytes(reply, OriginWord::of(of).as_slice(), b"done", bytes)
}
