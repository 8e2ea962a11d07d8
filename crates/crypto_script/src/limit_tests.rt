//! Scripts that meet a limit.

ghost use Rattle.std.specs.Prelude.{◌<◌};

use crate::tests::{decimal, expect_line, push, push_all, push_line, string_of};
use std::alloc::Global;
use std::process::Abort;

// Adds a line some times over.
fn push_times(rt: &impl Abort, text: &mut String, line: &str, count: u32) {
    for _ in 0..count {
        push(rt, text, line);
    }
}

// A request of 2^14 bytes.
fn long_request(rt: &impl Abort, alloc: Global) -> String {
    let mut request = string_of(rt, alloc, "mac m ");
    push_times(rt, &mut request, "00", 16_384);
    push(rt, &mut request, "\n");
    request
}

// A queue that is held.
const HELD: &str = "\
alloc m cryptd(hmac(sha256)) 4096
key m -
hold m
";

/// What its lines print.
pub const HELD_TEXT: &str = "\
1 ok cryptd(hmac(sha256-generic))
2 ok
3 ok
";

/// It takes as many bytes as pipelines accept.
pub fn held_bytes(rt: &impl Abort, alloc: Global) -> String {
    let mut script = string_of(rt, alloc, HELD);
    // 2^12 requests, as many as the queue takes in
    push_times(rt, &mut script, long_request(rt, alloc).as_str(), 4096);
    // a byte too many comes before the queue's verdict
    push(rt, &mut script, "mac m 00\nmac m -\n");
    script
}

/// Adds this behind the number of each request.
pub fn push_each(rt: &impl Abort, alloc: Global, text: &mut String, said: &str) {
    for line in 4..4100u32 {
        push_line(rt, alloc, text, line, said);
    }
}

/// 16,384 zeros under a key of no bytes, by python's `hmac`.
pub const DONE: &str = "done 75651b5b8dbc225aed4f7504e49b143e60506d006611885b5ef247bdf6ceae3b";

// What that script prints.
fn held_text(rt: &impl Abort, alloc: Global) -> String {
    let mut text = string_of(rt, alloc, HELD_TEXT);
    push_each(rt, alloc, &mut text, "EINPROGRESS");
    push(rt, &mut text, "4100 E2BIG\n4101 ENOSPC\n");
    push_each(rt, alloc, &mut text, DONE);
    push(rt, &mut text, "end m 4096\n");
    text
}

#[test]
fn pipelines_accept_two_to_the_26_bytes(rt: HostRuntime) {
    let script = held_bytes(&rt, rt.alloc());
    let text = held_text(&rt, rt.alloc());
    expect_line(
        &rt,
        rt.alloc(),
        "--workers 2",
        script.as_str(),
        0,
        text.as_str(),
    );
}

// An AES is unlisted, and another one listed.
const ANOTHER: &str = "unregister aes-generic\nregister aes-generic 100\n";

// A transform that holds three instances over an AES of its own, which is unlisted then, and another AES.
fn push_held(rt: &impl Abort, alloc: Global, script: &mut String, at: u32) {
    let label = decimal(rt, alloc, u64::from(at));
    push_all(
        rt,
        script,
        &["alloc t", label.as_str(), " rfc4106(gcm(aes))\n", ANOTHER],
    );
}

// Its answers.
fn push_answers(rt: &impl Abort, alloc: Global, text: &mut String, at: u32)
    requires { at < 10000 }
{
    let line = 3 * at + 1;
    push_line(
        rt,
        alloc,
        text,
        line,
        "ok rfc4106(gcm_base(ctr(aes-generic),ghash-generic))",
    );
    push_line(rt, alloc, text, line + 1, "ok");
    push_line(rt, alloc, text, line + 2, "ok");
}

const FULL: &str = "\
alloc c cbc(aes)
alloc d ctr(aes)
unregister aes-generic
register aes-generic 100
free c
register aes-generic 100
";

const FULL_TEXT: &str = "\
3070 ok cbc(aes-generic)
3071 ENFILE
3072 ok
3073 ENFILE
3074 ok
3075 ok
";

#[test]
fn the_registry_holds_4096_entries(rt: HostRuntime) {
    let mut script = String::new(rt.alloc());
    let mut text = String::new(rt.alloc());
    // of the 3 at first and 4 for each of these, one stays for cbc(aes)
    for at in 0..1023u32 {
        push_held(&rt, rt.alloc(), &mut script, at);
        push_answers(&rt, rt.alloc(), &mut text, at);
    }
    push(&rt, &mut script, FULL);
    push(&rt, &mut text, FULL_TEXT);
    expect_line(
        &rt,
        rt.alloc(),
        "--workers 1",
        script.as_str(),
        0,
        text.as_str(),
    );
}

// Lines that say nothing or are no commands, the last of them too long.
fn unread_lines(rt: &impl Abort, alloc: Global) -> String {
    let mut script = string_of(rt, alloc, "# note\n\nfrob x\nalloc\n");
    push_times(rt, &mut script, "a", 65_537);
    script
}

#[test]
fn what_is_no_command_is_malformed(rt: HostRuntime) {
    let script = unread_lines(&rt, rt.alloc());
    let text = "3 malformed\n4 malformed\n5 malformed\n";
    expect_line(&rt, rt.alloc(), "--workers 1", script.as_str(), 1, text);
}
