//! Whole runs over memory.

use crate::program::{Outcome, run};
use board::{BoardEntry, BoardLog};
use crew::{BarrierGate, Gate, NoGate};
use kc_base::{Bytes, Sink, Source, SureSink, SureSource};
use std::alloc::Global;
use std::process::Abort;
use std::sync::Wait;
use std::thread::Threads;
use transforms::Ask;

/// Words that ask for workers, beside whose numbers scripts are run whose text no number of them changes.
pub const CREWS: [&str; 5] = [
    "--workers 0",
    "--workers 1",
    "--workers 2",
    "--workers 8",
    "--workers 16",
];

pub const LINE: &str = "aes 000102030405060708090a0b0c0d0e0f 00112233445566778899aabbccddeeff\n";

pub const ANSWER: &str = "1 ok 69c4e0d86a7b0430d8cdb78070b4c55a\n";

// Three lines, of which the last has no line feed, and their text.
pub const SCRIPT: &str = "\
aes 000102030405060708090a0b0c0d0e0f 00112233445566778899aabbccddeeff
aes 000102030405060708090a0b0c0d0e 00112233445566778899aabbccddeeff
aes 000 00";

pub const TEXT: &str = "\
1 ok 69c4e0d86a7b0430d8cdb78070b4c55a
2 EINVAL
3 malformed
";

// A script that uses a plain transform, a pad and a queue, and its text. The bytes are those of SP 800-38A, F.2.1, of
// GCM's second test case, and of python's `hmac`.
pub const MIXED_SCRIPT: &str = "\
alloc c cbc(aes)
key c 2b7e151628aed2a6abf7158809cf4f3c
enc c 000102030405060708090a0b0c0d0e0f - 6bc1bee22e409f96e93d7e117393172a
alloc p pcrypt(gcm(aes))
key p 00000000000000000000000000000000
enc p 000000000000000000000000 - 00000000000000000000000000000000
alloc q cryptd(hmac(sha256)) 1
key q 4a656665
hold q
mac q 00
mac q 01 backlog
mac q 02
poll q
go q
drain p
free c
refs aes-generic
register aes-generic 1
unregister nosuch
list
frob
";

pub const MIXED_TEXT: &str = "\
1 ok cbc(aes-generic)
2 ok
3 ok 7649abac8119b246cee98e9b12e9197d
4 ok pcrypt(gcm_base(ctr(aes-generic),ghash-generic))
5 ok
6 EINPROGRESS
7 ok cryptd(hmac(sha256-generic))
8 ok
9 ok
10 EINPROGRESS
11 EBUSY
12 ENOSPC
13 polled 0
14 ok
6 done 0388dace60b6a392f328c2b971b2fe78ab6e47d42cec13bdf53a67b21257bddf
15 drained 1
16 ok
17 refs 2 listed
18 EEXIST
19 ENOENT
20 alg aes aes-generic 100 2
20 alg sha256 sha256-generic 100 1
20 alg ghash ghash-generic 100 1
20 alg cbc(aes) cbc(aes-generic) 100 0
20 alg ctr(aes) ctr(aes-generic) 100 1
20 alg gcm(aes) gcm_base(ctr(aes-generic),ghash-generic) 100 1
20 alg gcm(aes) pcrypt(gcm_base(ctr(aes-generic),ghash-generic)) 200 1
20 alg hmac(sha256) hmac(sha256-generic) 100 1
20 alg hmac(sha256) cryptd(hmac(sha256-generic)) 150 1
20 listed 9
21 malformed
11 started
10 done b673dc17f22b360d267af4bf852334fa37e194200550ac22ff29d55ee5fc8e90
11 done 14bb1f33c7785963bdedd1590090429b931e2a765971dd1cf87bc96d2c22ff3d
end q 2
";

/// How a run ended: its status, and whether the board was shut.
#[derive(Clone, Copy)]
pub struct Ended {
    pub status: u8,
    pub shut: bool,
}

fn is_shut(board: &BoardLog<Ask>) -> bool {
    for entry in board.entries() {
        if matches!(entry, BoardEntry::Shut { .. }) {
            return true;
        }
    }
    false
}

fn ended_of(outcome: Outcome) -> Ended {
    Ended {
        status: outcome.status,
        shut: is_shut(&outcome.board),
    }
}

fn ended_by<S: Source, K: Sink, G: Gate + Sync, R: Threads + Wait + Sync>(
    rt: &R,
    alloc: Global,
    words: &[String],
    gate: &G,
    src: &mut S,
    out: &mut K,
) -> Ended {
    ended_of(run(rt, alloc, words, gate, src, out))
}

/// Stops the test where this isn't right, and says what it is about.
pub fn check(rt: &impl Abort, is_right: bool, about: &str) {
    assert!(rt; is_right, "{about}");
}

pub fn push(rt: &impl Abort, text: &mut String, part: &str) {
    text.push_str(part).expect(rt, "memory");
}

pub fn string_of(rt: &impl Abort, alloc: Global, text: &str) -> String {
    String::from_str(alloc, text).expect(rt, "memory")
}

pub fn push_all(rt: &impl Abort, text: &mut String, parts: &[&str]) {
    for part in parts {
        push(rt, text, part);
    }
}

pub fn joined(rt: &impl Abort, alloc: Global, parts: &[&str]) -> String {
    let mut text = String::new(alloc);
    push_all(rt, &mut text, parts);
    text
}

pub fn decimal(rt: &impl Abort, alloc: Global, number: u64) -> String {
    format!(in alloc; "{number}").expect(rt, "memory")
}

/// Adds a line that begins with a number.
pub fn push_line(rt: &impl Abort, alloc: Global, text: &mut String, number: u32, said: &str) {
    let number = decimal(rt, alloc, u64::from(number));
    push_all(rt, text, &[number.as_str(), " ", said, "\n"]);
}

/// The words that stand between blanks.
fn words_of(rt: &impl Abort, alloc: Global, line: &str) -> Vec<String> {
    let mut words = Vec::new(alloc);
    for word in line.split(' ') {
        if !word.is_empty() {
            words.push(string_of(rt, alloc, word)).expect(rt, "memory");
        }
    }
    words
}

/// Runs the words of a line.
pub fn run_line<S: Source, K: Sink, G: Gate + Sync, R: Abort + Threads + Wait + Sync>(
    rt: &R,
    alloc: Global,
    line: &str,
    gate: &G,
    src: &mut S,
    out: &mut K,
) -> Ended {
    let words = words_of(rt, alloc, line);
    ended_by(rt, alloc, &words, gate, src, out)
}

pub fn bytes_of(rt: &impl Abort, alloc: Global, text: &str) -> Bytes {
    Bytes::copy_of(alloc, text.as_bytes()).expect(rt, "memory")
}

pub fn text_of(rt: &impl Abort, alloc: Global, bytes: &[u8]) -> String {
    string_of(rt, alloc, str::from_utf8(bytes).unwrap_or("no text"))
}

/// How a run past this gate ends, over streams that don't fail, and what it prints.
pub fn printed_past<G: Gate + Sync, R: Abort + Threads + Wait + Sync>(
    rt: &R,
    alloc: Global,
    line: &str,
    gate: &G,
    script: &str,
) -> (Ended, String) {
    let mut src = SureSource::new(bytes_of(rt, alloc, script));
    let mut out = SureSink::new(alloc);
    let ended = run_line(rt, alloc, line, gate, &mut src, &mut out);
    (ended, text_of(rt, alloc, out.bytes()))
}

/// What a run prints, over streams that don't fail, that ends with this status.
pub fn printed<R: Abort + Threads + Wait + Sync>(
    rt: &R,
    alloc: Global,
    line: &str,
    script: &str,
    want: u8,
) -> String {
    let (ended, text) = printed_past(rt, alloc, line, &NoGate, script);
    check(rt, ended.status == want, script);
    text
}

/// A script over streams that don't fail has this status and this text where the words of the line are given.
pub fn expect_line<R: Abort + Threads + Wait + Sync>(
    rt: &R,
    alloc: Global,
    line: &str,
    script: &str,
    want: u8,
    text: &str,
) {
    let got = printed(rt, alloc, line, script, want);
    check(rt, got.as_str() == text, script);
}

/// It has them beside each number of workers.
pub fn expect<R: Abort + Threads + Wait + Sync>(
    rt: &R,
    alloc: Global,
    script: &str,
    want: u8,
    text: &str,
) {
    for line in CREWS {
        expect_line(rt, alloc, line, script, want, text);
    }
}

/// A row of a table: its script, the status of the script's run, and its text. The row's first line says what it shows,
/// and the status stands between the two, behind an equals sign.
#[derive(Clone, Copy)]
pub struct Row {
    pub script: &'static str,
    pub status: u8,
    pub text: &'static str,
}

/// The two sides of a mark.
pub fn cut(rt: &impl Abort, text: &'static str, mark: &str) -> (&'static str, &'static str) {
    text.split_once(mark).expect(rt, "a mark")
}

pub fn row_of(rt: &impl Abort, row: &'static str) -> Row {
    let (_, row) = cut(rt, row, "\n");
    let (script, row) = cut(rt, row, "= ");
    let (status, text) = cut(rt, row, "\n");
    Row {
        script,
        status: status.parse::<u8>().expect(rt, "a status"),
        text,
    }
}

/// The row of this name.
pub fn row_named(rt: &impl Abort, rows: &'static str, name: &str) -> Row {
    for row in rows.split("%\n") {
        if row.starts_with(name) {
            return row_of(rt, row);
        }
    }
    panic!(rt; "{name}")
}

/// Each row holds beside each number of workers.
pub fn expect_rows<R: Abort + Threads + Wait + Sync>(rt: &R, alloc: Global, rows: &'static str) {
    for row in rows.split("%\n") {
        let Row {
            script,
            status,
            text,
        } = row_of(rt, row);
        expect(rt, alloc, script, status, text);
    }
}

const SCRIPTS: [(&str, u8, &str); 9] = [
    ("", 0, ""),
    (LINE, 0, ANSWER),
    (SCRIPT, 1, TEXT),
    (MIXED_SCRIPT, 1, MIXED_TEXT),
    ("# note\n\nfrob x\nalloc\n", 1, "3 malformed\n4 malformed\n"),
    ("# note\r\n\r\n \t\r\n", 0, ""),
    ("aes 00 00 # no\naes - -\n", 1, "1 malformed\n2 EINVAL\n"),
    (
        "\taes  2B7E151628AED2A6ABF7158809CF4F3C\t3243f6a8885a308d313198a2e0370734\r\n",
        0,
        "1 ok 3925841d02dc09fbdc118597196a0b32\n",
    ),
    (
        "aes 000102030405060708090a0b0c0d0e0f 00112233445566778899aabbccddee\n",
        0,
        "1 EINVAL\n",
    ),
];

#[test]
fn scripts_have_their_text(rt: HostRuntime) {
    for (script, want, text) in SCRIPTS {
        expect(&rt, rt.alloc(), script, want, text);
    }
}

#[test]
fn words_are_refused(rt: HostRuntime) {
    for word in ["x", "--workers", "--workers=17", "--trace=1", "--count=5"] {
        expect_line(&rt, rt.alloc(), word, LINE, 2, "");
    }
}

const TWO_JOBS: &str = "\
alloc p pcrypt(gcm(aes))
key p 00000000000000000000000000000000
enc p 000000000000000000000000 - -
enc p 000000000000000000000000 - -
drain p
";

#[test]
fn two_are_inside_jobs_at_once(rt: HostRuntime) {
    let gate = BarrierGate::of(2);
    let (ended, _) = printed_past(&rt, rt.alloc(), "--workers 2", &gate, TWO_JOBS);
    assert!(rt; ended.status == 0);
    assert!(rt; gate.gave_up() == 0);
    assert!(rt; gate.entered() == 2);
}
