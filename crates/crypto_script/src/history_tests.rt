//! The traces of whole runs.

use crate::tests::{check, expect_line, printed, push, row_of, string_of};
use std::process::Abort;

// What a script prints without workers, and then the trace of its run.
const TRACED: &str = "\
three requests to a pad
alloc p pcrypt(gcm(aes))
key p 00000000000000000000000000000000
enc p 000000000000000000000000 - 00
enc p 000000000000000000000000 - 00
enc p 000000000000000000000000 - 00
drain p
= 0
1 ok pcrypt(gcm_base(ctr(aes-generic),ghash-generic))
2 ok
3 EINPROGRESS
4 EINPROGRESS
5 EINPROGRESS
3 done 035bc76c6e04efc25ab6d301679e074c70
4 done 035bc76c6e04efc25ab6d301679e074c70
5 done 035bc76c6e04efc25ab6d301679e074c70
6 drained 3
r 0 look pcrypt(gcm(aes)) any began 0
r 0 claim 0
r 0 look gcm(aes) plain began 1
r 0 claim 1
r 0 look ctr(aes) plain began 2
r 0 claim 2
r 0 look aes plain found 0
r 0 end 2 built 3 ctr(aes) ctr(aes-generic) skcipher plain 100 0
r 0 look ghash plain found 2
r 0 end 1 built 4 gcm(aes) gcm_base(ctr(aes-generic),ghash-generic) aead plain 100 3,2
r 0 end 0 built 5 gcm(aes) pcrypt(gcm_base(ctr(aes-generic),ghash-generic)) aead pcrypt 200 4
r 0 get 5 ok
b 0 born 0 pad 1
b 0 submit 0 0 3
b 0 submit 0 1 4
b 0 submit 0 2 5
b 0 take 0 0
b 0 finish 0 0
b 0 take 0 1
b 0 finish 0 1
b 0 take 0 2
b 0 finish 0 2
b 0 collect 0 3
b 0 collect 0 3
b 0 shut
%
a mask of workers that there aren't, and then a full one
alloc p pcrypt(gcm(aes))
key p 00000000000000000000000000000000
enc p 000000000000000000000000 - 00
mask p fffe
enc p 000000000000000000000000 - 00
mask p ffff
enc p 000000000000000000000000 - 00
drain p
= 0
1 ok pcrypt(gcm_base(ctr(aes-generic),ghash-generic))
2 ok
3 EINPROGRESS
4 ok
5 EINVAL
6 ok
7 EINPROGRESS
3 done 035bc76c6e04efc25ab6d301679e074c70
7 done 035bc76c6e04efc25ab6d301679e074c70
8 drained 2
r 0 look pcrypt(gcm(aes)) any began 0
r 0 claim 0
r 0 look gcm(aes) plain began 1
r 0 claim 1
r 0 look ctr(aes) plain began 2
r 0 claim 2
r 0 look aes plain found 0
r 0 end 2 built 3 ctr(aes) ctr(aes-generic) skcipher plain 100 0
r 0 look ghash plain found 2
r 0 end 1 built 4 gcm(aes) gcm_base(ctr(aes-generic),ghash-generic) aead plain 100 3,2
r 0 end 0 built 5 gcm(aes) pcrypt(gcm_base(ctr(aes-generic),ghash-generic)) aead pcrypt 200 4
r 0 get 5 ok
b 0 born 0 pad 1
b 0 submit 0 0 3
b 0 mask 0 0000
b 0 mask 0 0001
b 0 submit 0 1 7
b 0 take 0 0
b 0 finish 0 0
b 0 take 0 1
b 0 finish 0 1
b 0 collect 0 2
b 0 collect 0 2
b 0 shut
%
a queue of two that is held, with a third request in its backlog and a fourth that is refused
alloc q cryptd(cbc(aes)) 2
key q 00000000000000000000000000000000
hold q
enc q 00000000000000000000000000000000 - -
enc q 00000000000000000000000000000000 - -
enc q 00000000000000000000000000000000 - - backlog
enc q 00000000000000000000000000000000 - -
drain q
go q
drain q
= 0
1 ok cryptd(cbc(aes-generic))
2 ok
3 ok
4 EINPROGRESS
5 EINPROGRESS
6 EBUSY
7 ENOSPC
8 EINVAL
9 ok
6 started
4 done -
5 done -
6 done -
10 drained 3
r 0 look cryptd(cbc(aes)) any began 0
r 0 claim 0
r 0 look cbc(aes) plain began 1
r 0 claim 1
r 0 look aes plain found 0
r 0 end 1 built 3 cbc(aes) cbc(aes-generic) skcipher plain 100 0
r 0 end 0 built 4 cbc(aes) cryptd(cbc(aes-generic)) skcipher cryptd 150 3
r 0 get 4 ok
b 0 born 0 queue 2
b 0 hold 0
b 0 enq 0 4 plain EINPROGRESS 0
b 0 enq 0 5 plain EINPROGRESS 1
b 0 enq 0 6 backlog EBUSY 2
b 0 enq 0 7 plain ENOSPC
b 0 go 0
b 0 deq 0 0 started 2
b 0 done 0 0
b 0 deq 0 1 -
b 0 done 0 1
b 0 deq 0 2 -
b 0 done 0 2
b 0 collect 0 4
b 0 collect 0 4
b 0 shut
%
a driver that is unlisted while a transform stands on it
alloc c cbc(aes)
unregister aes-generic
alloc d cbc(aes)
refs aes-generic
free c
refs aes-generic
register aes-generic 300
register aes-generic 300
list
= 0
1 ok cbc(aes-generic)
2 ok
3 ENOENT
4 refs 1 unlisted
5 ok
6 ENOENT
7 ok
8 EEXIST
9 alg sha256 sha256-generic 100 0
9 alg ghash ghash-generic 100 0
9 alg aes aes-generic 300 0
9 listed 3
r 0 look cbc(aes) any began 0
r 0 claim 0
r 0 look aes plain found 0
r 0 end 0 built 3 cbc(aes) cbc(aes-generic) skcipher plain 100 0
r 0 get 3 ok
r 0 unlist aes-generic ok 0
r 0 look cbc(aes) any began 1
r 0 claim 1
r 0 look aes plain absent
r 0 end 1 failed ENOENT
r 0 refs aes-generic
r 0 put 3
r 0 refs aes-generic
r 0 enlist aes aes-generic cipher 300 made 4
r 0 enlist aes aes-generic cipher 300 EEXIST
r 0 list
b 0 shut
%
a probe makes all its looks first
probe pcrypt(gcm(aes)) cryptd(gcm(aes))
= 0
1 probed pcrypt(gcm(aes)) pcrypt(gcm_base(ctr(aes-generic),ghash-generic))
1 probed cryptd(gcm(aes)) cryptd(gcm_base(ctr(aes-generic),ghash-generic))
r 0 look pcrypt(gcm(aes)) any began 0
r 0 look cryptd(gcm(aes)) any began 1
r 0 claim 0
r 0 look gcm(aes) plain began 2
r 0 claim 2
r 0 look ctr(aes) plain began 3
r 0 claim 3
r 0 look aes plain found 0
r 0 end 3 built 3 ctr(aes) ctr(aes-generic) skcipher plain 100 0
r 0 look ghash plain found 2
r 0 end 2 built 4 gcm(aes) gcm_base(ctr(aes-generic),ghash-generic) aead plain 100 3,2
r 0 end 0 built 5 gcm(aes) pcrypt(gcm_base(ctr(aes-generic),ghash-generic)) aead pcrypt 200 4
r 0 claim 1
r 0 look gcm(aes) plain found 4
r 0 end 1 built 6 gcm(aes) cryptd(gcm_base(ctr(aes-generic),ghash-generic)) aead cryptd 150 4
b 0 shut
";

#[test]
fn a_trace_holds_each_call_in_order(rt: HostRuntime) {
    for row in TRACED.split("%\n") {
        let row = row_of(&rt, row);
        expect_line(
            &rt,
            rt.alloc(),
            "--workers 0 --trace",
            row.script,
            row.status,
            row.text,
        );
    }
}

// Whether one of the words stands in the text.
fn has_one(text: &str, words: &[&str]) -> bool {
    for word in words {
        if text.contains(*word) {
            return true;
        }
    }
    false
}

// Whether the text begins with one of the words.
fn begins_with_one(text: &str, words: &[&str]) -> bool {
    for word in words {
        if text.starts_with(*word) {
            return true;
        }
    }
    false
}

// What a worker may do.
const BUILDING: [&str; 4] = [" plain ", "claim ", "end ", "waited "];

// What is looked up for building.
const ASKED: [&str; 4] = [
    "look aes ",
    "look ghash ",
    "look ctr(aes) ",
    "look gcm(aes) ",
];

// A worker's entry is one of building, and what is looked up for building is what the names ask for.
fn expect_building(rt: &impl Abort, line: &str) {
    let (caller, entry) = line.split_once(' ').unwrap_or(("", line));
    check(rt, caller == "0" || has_one(entry, &BUILDING), line);
    let is_own = caller == "0" && !entry.contains(" plain ");
    let is_asked = is_own || begins_with_one(entry, &ASKED);
    check(rt, is_asked || !entry.starts_with("look "), line);
}

const BUILT: &str = "\
alloc c cbc(aes)
probe pcrypt(gcm(aes)) cryptd(gcm(aes))
unregister ghash-generic
";

fn expect_all_building(rt: &impl Abort, text: &str) {
    check(rt, text.contains(" end 1 built "), text);
    for line in text.lines() {
        if let Some(entry) = line.strip_prefix("r ") {
            expect_building(rt, entry);
        }
    }
}

#[test]
fn workers_build_what_was_asked_for_and_nothing_else(rt: HostRuntime) {
    for line in [
        "--workers 0 --trace",
        "--workers 1 --trace",
        "--workers 8 --trace",
    ] {
        expect_all_building(&rt, printed(&rt, rt.alloc(), line, BUILT, 0).as_str());
    }
}

const MASKED: &str = "\
alloc p pcrypt(gcm(aes))
key p 00000000000000000000000000000000
mask p 0004
";

// The script may take, and the third worker.
const TAKING: [&str; 2] = ["b 0 ", "b 3 "];

fn expect_masked(rt: &impl Abort, text: &str) {
    check(rt, text.contains("b 0 mask 0 0004\n"), text);
    for line in text.lines() {
        check(
            rt,
            begins_with_one(line, &TAKING) || !line.contains(" take "),
            line,
        );
    }
}

#[test]
fn a_worker_outside_the_mask_takes_nothing(rt: HostRuntime) {
    let mut script = string_of(&rt, rt.alloc(), MASKED);
    for _ in 0..30 {
        push(&rt, &mut script, "enc p 000000000000000000000000 - 00\n");
    }
    push(&rt, &mut script, "drain p\n");
    let text = printed(&rt, rt.alloc(), "--workers 8 --trace", script.as_str(), 0);
    expect_masked(&rt, text.as_str());
}

const PROBED: &str = "\
probe pcrypt(gcm(aes)) cryptd(gcm(aes))
list
";

// What the probe prints.
const PROBED_TEXT: &str = "\
1 probed pcrypt(gcm(aes)) pcrypt(gcm_base(ctr(aes-generic),ghash-generic))
1 probed cryptd(gcm(aes)) cryptd(gcm_base(ctr(aes-generic),ghash-generic))
";

// How many lines hold both.
fn count_lines(text: &str, part: &str, other: &str) -> u64 {
    let mut count = 0u64;
    for line in text.lines() {
        if line.contains(part) && line.contains(other) {
            count = count.saturating_add(1);
        }
    }
    count
}

// One instance stands below both, and was built once.
fn expect_one_below(rt: &impl Abort, text: &str) {
    check(rt, text.starts_with(PROBED_TEXT), text);
    check(rt, text.contains("\n2 listed 7\n"), text);
    let instance = " gcm(aes) gcm_base(ctr(aes-generic),ghash-generic) ";
    check(rt, count_lines(text, "2 alg ", instance) == 1, text);
    check(rt, count_lines(text, instance, " 100 2") == 1, text);
    check(rt, count_lines(text, " built ", instance) == 1, text);
}

#[test]
fn two_names_stand_on_one_instance(rt: HostRuntime) {
    for line in [
        "--workers 0 --trace",
        "--workers 1 --trace",
        "--workers 8 --trace",
    ] {
        expect_one_below(&rt, printed(&rt, rt.alloc(), line, PROBED, 0).as_str());
    }
}
