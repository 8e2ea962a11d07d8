//! What the lines of a script say.

use script_text::{Command, Line, MAX_LINE, read_line};
use std::alloc::Global;
use std::process::Abort;

// What a line says, in a form that a table can hold.
#[derive(Clone, Copy, PartialEq, Eq)]
pub(crate) enum Said {
    Nothing,
    Malformed,
    // `aes` with so many bytes of key and of block
    Aes(usize, usize),
    // `key` with these bytes
    ThisKey,
    Another,
}

fn seen(line: &Line, bytes: &[u8]) -> Said {
    match line {
        Line::Nothing => Said::Nothing,
        Line::Malformed => Said::Malformed,
        Line::Cmd(Command::Aes { key, block }) => Said::Aes(key.len(), block.len()),
        Line::Cmd(Command::Key { key, .. }) if key.as_slice() == bytes => Said::ThisKey,
        Line::Cmd(_) => Said::Another,
    }
}

// What a line says, where it may be a key of these bytes.
pub(crate) fn read_said(rt: &impl Abort, alloc: Global, line: &[u8], bytes: &[u8]) -> Said {
    seen(&read_line(alloc, line).expect(rt, "memory"), bytes)
}

const LINES: [(&[u8], Said); 24] = [
    (b"", Said::Nothing),
    (b"\n", Said::Nothing),
    (b" \t \n", Said::Nothing),
    (b"# note\n", Said::Nothing),
    (b"  #note \x80\n", Said::Nothing),
    (b"aes 0001 fF\n", Said::Aes(2, 1)),
    (b"aes 0001 fF", Said::Aes(2, 1)),
    (b"aes 0001 fF\r\n", Said::Aes(2, 1)),
    (b"\t aes \t0001  fF \t\n", Said::Aes(2, 1)),
    (b"aes - -\n", Said::Aes(0, 0)),
    // a carriage return that no line feed follows
    (b"aes 0001 fF\r", Said::Malformed),
    (b"\r", Said::Malformed),
    (b"aes\r0001 fF\n", Said::Malformed),
    (b"aes 0001 fF\r\r\n", Said::Malformed),
    // no digits, and half a byte
    (b"aes 0001 fg\n", Said::Malformed),
    (b"aes 0001 f\n", Said::Malformed),
    (b"aes --  00\n", Said::Malformed),
    // another number of tokens
    (b"aes\n", Said::Malformed),
    (b"aes 00\n", Said::Malformed),
    (b"aes 00 00 #\n", Said::Malformed),
    // bytes that are not printed
    (b"aes 00\x00 00\n", Said::Malformed),
    (b"aes 00 \x7f\n", Said::Malformed),
    (b"\x80\n", Said::Malformed),
    (b"AES 00 00\n", Said::Malformed),
];

/// A line says this.
fn says(rt: &impl Abort, alloc: Global, line: &[u8], want: Said) {
    assert!(rt; read_said(rt, alloc, line, b"not read") == want, "{line:?}");
}

#[test]
fn lines_say_what_they_say(rt: HostRuntime) {
    for (line, want) in LINES {
        says(&rt, rt.alloc(), line, want);
    }
}

// Lines that are commands: each of them, and what just fits.
const COMMANDS: &str = "register cbc(aes-generic) 0200
unregister aes-generic
probe pcrypt(gcm(aes))
probe a b c d e f g h i j k l m n o cbc(aes
alloc a authenc(hmac(sha256),cbc(aes))
alloc a cryptd(gcm(aes)) 010
key t -
key T-0_z aAbB
authsize t 16
enc t 01 0203 040506
enc t 01 - 0405 backlog
enc t 01 - 6bc1bee22e|409f96e93d7e1173|93172a
dec t 01 0203 040506
dec t - 02 - backlog
mac t 0102
mac t 00|01|02|03|04|05|06|07|08|09|0a|0b|0c|0d|0e|0f backlog
bulk t 16777216 0
mask t 00ff
hold T-0_z
go T-0_z
poll T-0_z
\tdrain  - \r
free abcdefghijklmnopqrstuvwxyz-_0123
refs #!
register a 999999999
register a 000000000
\tlist ";

// Lines that nearly are commands.
const MALFORMED: &str = "free abcdefghijklmnopqrstuvwxyz-_01234
free a.b
go a:b
poll a(b)
drain a/b
key a/b 00
register a 0000000001
register a 1000000000
register a +1
register a -
authsize t 0x10
alloc t aes ten
key t 012
mac t 0g
bulk t 1 -
mask t 00000
mask t 000g
enc t 00 0 00
dec t 00 00 --
register
register a
register a 1 2
unregister
unregister a b
probe
probe a b c d e f g h i j k l m n o p q
probes a
alloc t
alloc t aes 1 2
key t
key t 00 00
authsize t
authsize t 1 1
enc t 00 00
enc t 00 00 00 00
enc t 00 00 00 backlog backlog
dec t 00 00
dec t 00 00 00 Backlog
mac t
mac t 00 backlo
mac t 00 backlog 00
bulk t 1
bulk t 1 2 backlog
mask t
mask t 0001 0001
hold
hold t u
go
go t u
poll
poll t 1
drain
drain t backlog
free
free t u
refs
refs a b
list a
List
lists
DRAIN t
encrypt t 00 00 00
key t 000
mac t 00\x0000
mac t\r00
drain abcdefghijklmnopqrstuvwxyzabcdefg
enc t - - 00|00|00|00|00|00|00|00|00|00|00|00|00|00|00|00|00
dec t - - 00|00|00|00|00|00|00|00|00|00|00|00|00|00|00|00|00
enc t - - 00||00
dec t - - 00|
mac t |00
mac t 00|-
enc t - 00|00 00
mask p 000
mask p -";

// Each line of a script says this.
fn each_says(rt: &impl Abort, alloc: Global, script: &str, want: Said) {
    for line in script.split_inclusive('\n') {
        says(rt, alloc, line.as_bytes(), want);
    }
}

#[test]
fn commands_are_read_and_nothing_else(rt: HostRuntime) {
    each_says(&rt, rt.alloc(), COMMANDS, Said::Another);
    each_says(&rt, rt.alloc(), MALFORMED, Said::Malformed);
}

// 17 parts of a text, of a byte each.
const PARTS: &[u8] = b"00|00|00|00|00|00|00|00|00|00|00|00|00|00|00|00|00";

// A `mac` of this text, of so many bytes in all, by blanks at its end.
fn mac_of(rt: &impl Abort, alloc: Global, text: &[u8], count: usize) -> Vec<u8> {
    let mut line = Vec::from_slice(alloc, b"mac t ").expect(rt, "memory");
    line.extend_from_slice(text).expect(rt, "memory");
    line.resize(count, b' ').expect(rt, "memory");
    line
}

// What is a byte too long or a part too many, beside what is as long as a line may be, or has as many parts.
#[test]
fn lines_have_a_longest_length_and_most_parts(rt: HostRuntime) {
    for (text, count, want) in [
        (&PARTS[..2], MAX_LINE, Said::Another),
        (&PARTS[..2], MAX_LINE + 1, Said::Malformed),
        (PARTS, 100, Said::Malformed),
        (&PARTS[3..], 100, Said::Another),
    ] {
        says(&rt, rt.alloc(), &mac_of(&rt, rt.alloc(), text, count), want);
    }
}
