//! Runs of several scripts at once.

use crate::limit_tests::{DONE, held_bytes, push_each};
use crate::stream_tests::{Fault, run_slow};
use crate::tests::{
    ANSWER, LINE, check, decimal, expect_line, joined, printed, printed_past, push, push_line,
    string_of,
};
use crew::BarrierGate;
use std::alloc::Global;
use std::process::Abort;
use std::sync::Wait;
use std::thread::Threads;

const CREWS: [&str; 3] = ["--workers 0", "--workers 1", "--workers 8"];

// How many clients, the script, its status and its text, which no number of workers changes.
type Row = (&'static str, &'static str, u8, &'static str);

// No client waits for another's text, and a part that isn't there is empty.
const EMPTY: [Row; 3] = [
    ("1", "", 0, "client 1\n"),
    ("2", "%%\n", 0, "client 1\nclient 2\n"),
    (
        "8",
        "",
        0,
        "client 1\nclient 2\nclient 3\nclient 4\nclient 5\nclient 6\nclient 7\nclient 8\n",
    ),
];

// A mark is a line with no other token; one too many is malformed.
const MARKS: [Row; 3] = [
    (
        "1",
        "%% x\n%%\n# note\n%%\n",
        1,
        "1 malformed\nclient 1\n2 malformed\n",
    ),
    ("1", " %%\t\r\n%%", 1, "client 1\n1 malformed\n"),
    (
        "2",
        "%%\nfrob\n%%\n",
        1,
        "client 1\n1 malformed\nclient 2\n",
    ),
];

// Each client has labels of its own. The bytes are those of SP 800-38A, F.2.1.
const OWN: Row = (
    "2",
    "\
%%
alloc c cbc(aes)
key c 2b7e151628aed2a6abf7158809cf4f3c
enc c 000102030405060708090a0b0c0d0e0f - 6bc1bee22e409f96e93d7e117393172a
%%
alloc c cbc(aes)
key c 2b7e151628aed2a6abf7158809cf4f3c
enc c 000102030405060708090a0b0c0d0e0f - 6bc1bee22e409f96e93d7e117393172a
",
    0,
    "\
client 1
1 ok cbc(aes-generic)
2 ok
3 ok 7649abac8119b246cee98e9b12e9197d
client 2
1 ok cbc(aes-generic)
2 ok
3 ok 7649abac8119b246cee98e9b12e9197d
",
);

// A shared transform is used, and not changed.
const SHARED: Row = (
    "1",
    "\
alloc c cbc(aes)
key c 2b7e151628aed2a6abf7158809cf4f3c
alloc p pcrypt(gcm(aes))
%%
enc c 000102030405060708090a0b0c0d0e0f - 6bc1bee22e409f96e93d7e117393172a
key c 00000000000000000000000000000000
authsize p 12
mask p ffff
hold p
go p
poll p
drain p
free p
alloc c ctr(aes)
enc p 000000000000000000000000 - 00
enc d 00 - 00
free d
",
    0,
    "\
1 ok cbc(aes-generic)
2 ok
3 ok pcrypt(gcm_base(ctr(aes-generic),ghash-generic))
client 1
1 ok 7649abac8119b246cee98e9b12e9197d
2 EINVAL
3 EINVAL
4 EINVAL
5 EINVAL
6 EINVAL
7 EINVAL
8 EINVAL
9 EINVAL
10 EEXIST
11 ENOKEY
12 ENOENT
13 ENOENT
",
);

// A queue that the first script holds, and a client fills up. The values are by python's `hmac`.
const QUEUED: Row = (
    "1",
    "\
alloc q cryptd(hmac(sha256)) 1
key q 4a656665
hold q
mac q 00
%%
mac q 01
mac q 01 backlog
",
    0,
    "\
1 ok cryptd(hmac(sha256-generic))
2 ok
3 ok
4 EINPROGRESS
client 1
1 ENOSPC
2 EBUSY
1.2 started
4 done b673dc17f22b360d267af4bf852334fa37e194200550ac22ff29d55ee5fc8e90
1.2 done 14bb1f33c7785963bdedd1590090429b931e2a765971dd1cf87bc96d2c22ff3d
end q 2
",
);

// What its run leaves without workers.
const QUEUED_TRACE: &str = "\
r 0 look cryptd(hmac(sha256)) any began 0
r 0 claim 0
r 0 look hmac(sha256) plain began 1
r 0 claim 1
r 0 look sha256 plain found 1
r 0 end 1 built 3 hmac(sha256) hmac(sha256-generic) mac plain 100 1
r 0 end 0 built 4 hmac(sha256) cryptd(hmac(sha256-generic)) mac cryptd 150 3
r 0 get 4 ok
b 0 born 0 queue 1
b 0 hold 0
b 0 enq 0 4 plain EINPROGRESS 0
b 0 share 0
b 17 enq 0 1.1 plain ENOSPC
b 17 enq 0 1.2 backlog EBUSY 1
b 0 go 0
b 0 deq 0 0 started 1
b 0 done 0 0
b 0 deq 0 1 -
b 0 done 0 1
b 0 collect 0 3
b 0 shut
";

// A script for so many clients has this status and this text beside each number of workers.
fn expect_row<R: Abort + Threads + Wait + Sync>(rt: &R, alloc: Global, row: Row) {
    let (clients, script, want, text) = row;
    for crew in CREWS {
        let line = joined(rt, alloc, &[crew, " --clients ", clients]);
        expect_line(rt, alloc, line.as_str(), script, want, text);
    }
}

#[test]
fn parts_that_are_not_there_are_empty(rt: HostRuntime) {
    for row in EMPTY {
        expect_row(&rt, rt.alloc(), row);
    }
    let text = joined(&rt, rt.alloc(), &[ANSWER, "client 1\n"]);
    expect_line(&rt, rt.alloc(), "--clients 1", LINE, 0, text.as_str());
}

#[test]
fn marks_part_an_input(rt: HostRuntime) {
    for row in MARKS {
        expect_row(&rt, rt.alloc(), row);
    }
}

#[test]
fn clients_have_labels_of_their_own(rt: HostRuntime) {
    expect_row(&rt, rt.alloc(), OWN);
}

#[test]
fn shared_transforms_are_not_changed(rt: HostRuntime) {
    expect_row(&rt, rt.alloc(), SHARED);
}

#[test]
fn a_shared_queue_ends_with_the_first_script(rt: HostRuntime) {
    expect_row(&rt, rt.alloc(), QUEUED);
}

#[test]
fn a_trace_names_clients(rt: HostRuntime) {
    let (_, script, want, text) = QUEUED;
    let text = joined(&rt, rt.alloc(), &[text, QUEUED_TRACE]);
    let line = "--workers 0 --clients 1 --trace";
    expect_line(&rt, rt.alloc(), line, script, want, text.as_str());
}

#[test]
fn words_for_clients_are_refused(rt: HostRuntime) {
    for line in [
        "--clients",
        "--clients 0",
        "--clients 9",
        "--clients 2 --load 1",
        "--clients 2 --count 1",
    ] {
        expect_line(&rt, rt.alloc(), line, LINE, 2, "");
    }
}

// Two clients submit to a pad that they share. The bytes are GCM's second test case.
const PAD: &str = "\
alloc p pcrypt(gcm(aes))
key p 00000000000000000000000000000000
%%
enc p 000000000000000000000000 - 00000000000000000000000000000000
drain p
%%
enc p 000000000000000000000000 - 00000000000000000000000000000000
alloc p cbc(aes)
";

const PAD_TEXT: &str = "\
1 ok pcrypt(gcm_base(ctr(aes-generic),ghash-generic))
2 ok
client 1
1 EINPROGRESS
2 EINVAL
client 2
1 EINPROGRESS
2 EEXIST
";

const PAD_DONE: &str = " done 0388dace60b6a392f328c2b971b2fe78ab6e47d42cec13bdf53a67b21257bddf\n";

// The text where the request of this client came first.
fn pad_text(rt: &impl Abort, alloc: Global, first: &str, second: &str) -> String {
    joined(
        rt,
        alloc,
        &[PAD_TEXT, first, PAD_DONE, second, PAD_DONE, "end p 2\n"],
    )
}

#[test]
fn a_shared_pad_hands_out_what_all_submitted(rt: HostRuntime) {
    let one = pad_text(&rt, rt.alloc(), "1.1", "2.1");
    let other = pad_text(&rt, rt.alloc(), "2.1", "1.1");
    for crew in CREWS {
        let line = joined(&rt, rt.alloc(), &[crew, " --clients 2"]);
        let got = printed(&rt, rt.alloc(), line.as_str(), PAD, 0);
        let is_right = got.as_str() == one.as_str() || got.as_str() == other.as_str();
        check(&rt, is_right, crew);
    }
}

// How many lines of a text have this word.
fn lines_with(text: &str, word: &str) -> usize {
    text.lines().filter(|line| line.contains(word)).count()
}

#[test]
fn one_registry_builds_for_all(rt: HostRuntime) {
    let (_, script, _, _) = OWN;
    for crew in CREWS {
        let line = joined(&rt, rt.alloc(), &[crew, " --clients 2 --trace"]);
        let got = printed(&rt, rt.alloc(), line.as_str(), script, 0);
        check(&rt, lines_with(got.as_str(), " built ") == 1, crew);
    }
}

// A client with a pad of its own.
const PAD_OF_ITS_OWN: &str = "\
%%
alloc p pcrypt(gcm(aes))
key p 00000000000000000000000000000000
enc p 000000000000000000000000 - -
drain p
";

#[test]
fn two_clients_are_inside_jobs_at_once(rt: HostRuntime) {
    let gate = BarrierGate::of(2);
    let script = joined(&rt, rt.alloc(), &[PAD_OF_ITS_OWN, PAD_OF_ITS_OWN]);
    let line = "--workers 0 --clients 2";
    let (ended, _) = printed_past(&rt, rt.alloc(), line, &gate, script.as_str());
    assert!(rt; ended.status == 0);
    assert!(rt; gate.gave_up() == 0);
    assert!(rt; gate.entered() == 2);
}

// The first script's pipeline takes as many bytes as are accepted of one script.
const HELD_TEXT: &str = "\
4100 E2BIG
4101 ENOSPC
client 1
1 EBUSY
2 ENOSPC
1.1 started
";

// a zero byte under a key of no bytes, by python's `hmac`
const LAST: &str =
    "1.1 done 6620b31f2924b8c01547745f41825d322336f83ebb13d723678789d554d8a3ef\nend m 4097\n";

#[test]
fn each_client_has_an_allowance_of_its_own(rt: HostRuntime) {
    let mut script = held_bytes(&rt, rt.alloc());
    push(&rt, &mut script, "%%\nmac m 00 backlog\nmac m -\n");
    let mut text = string_of(&rt, rt.alloc(), crate::limit_tests::HELD_TEXT);
    push_each(&rt, rt.alloc(), &mut text, "EINPROGRESS");
    push(&rt, &mut text, HELD_TEXT);
    push_each(&rt, rt.alloc(), &mut text, DONE);
    push(&rt, &mut text, LAST);
    let line = "--workers 2 --clients 1";
    expect_line(&rt, rt.alloc(), line, script.as_str(), 0, text.as_str());
}

// Adds the allocation of a transform, and its answer.
fn push_live(rt: &impl Abort, alloc: Global, script: &mut String, text: &mut String, line: u32) {
    push(rt, script, "alloc t");
    push(rt, script, decimal(rt, alloc, u64::from(line)).as_str());
    push(rt, script, " cbc(aes)\n");
    push_line(rt, alloc, text, line, "ok cbc(aes-generic)");
}

#[test]
fn each_client_has_transforms_of_its_own(rt: HostRuntime) {
    let mut script = String::new(rt.alloc());
    let mut text = String::new(rt.alloc());
    for line in 1..4097u32 {
        push_live(&rt, rt.alloc(), &mut script, &mut text, line);
    }
    push(&rt, &mut script, "alloc c cbc(aes)\n%%\nalloc c cbc(aes)\n");
    push(
        &rt,
        &mut text,
        "4097 EMFILE\nclient 1\n1 ok cbc(aes-generic)\n",
    );
    let line = "--clients 1";
    expect_line(&rt, rt.alloc(), line, script.as_str(), 0, text.as_str());
}

// Where this call of a run fails, whose reads give a byte and whose writes take three.
fn expect_fault<R: Abort + Threads + Wait + Sync>(
    rt: &R,
    alloc: Global,
    number: u64,
    fault: Fault,
    want: u8,
) {
    let (_, script, _, text) = QUEUED;
    let line = "--workers 1 --clients 1";
    let (ended, written) = run_slow(rt, alloc, line, script, (1, 3), fault);
    let about = decimal(rt, alloc, number);
    let is_front = text.starts_with(written.as_str());
    check(rt, ended.status == want && is_front, about.as_str());
    // where a read fails there was no board, and nothing is written
    let is_unwritten = written.is_empty() && !ended.shut;
    check(rt, want != 3 || is_unwritten, about.as_str());
}

#[test]
fn each_read_for_clients_fails_in_turn(rt: HostRuntime) {
    let (_, script, _, _) = QUEUED;
    let calls = script.len() as u64 + 1;
    for number in 0..calls {
        expect_fault(&rt, rt.alloc(), number, Fault::Read(number), 3);
    }
    expect_fault(&rt, rt.alloc(), calls, Fault::Read(calls), 0);
}

#[test]
fn each_write_for_clients_fails_in_turn(rt: HostRuntime) {
    let (_, _, _, text) = QUEUED;
    // at most three bytes a write: each client's text begins with a write of its own
    let fewest = (text.len() as u64 + 2) / 3;
    for number in 0..fewest {
        expect_fault(&rt, rt.alloc(), number, Fault::Write(number), 4);
    }
    let most = text.len() as u64;
    expect_fault(&rt, rt.alloc(), most, Fault::Write(most), 0);
}
