//! Whole runs whose requests wait in pipelines.

use crate::tests::{
    CREWS, check, expect, expect_rows, printed, push, push_all, push_line, string_of,
};
use std::alloc::Global;
use std::process::Abort;
use std::sync::Wait;
use std::thread::Threads;

// Scripts, their status and their text. The bytes are those of GCM's second test case, and of SP 800-38A, F.2.1.
pub const ROWS: &str = "\
a held queue takes in no more than fits
alloc q cryptd(cbc(aes)) 2
key q 2b7e151628aed2a6abf7158809cf4f3c
hold q
enc q 000102030405060708090a0b0c0d0e0f - 6bc1bee22e409f96e93d7e117393172a
enc q 000102030405060708090a0b0c0d0e0f - 6bc1bee22e409f96e93d7e117393172a
enc q 000102030405060708090a0b0c0d0e0f - 6bc1bee22e409f96e93d7e117393172a backlog
enc q 000102030405060708090a0b0c0d0e0f - 6bc1bee22e409f96e93d7e117393172a
drain q
go q
drain q
= 0
1 ok cryptd(cbc(aes-generic))
2 ok
3 ok
4 EINPROGRESS
5 EINPROGRESS
6 EBUSY
7 ENOSPC
8 EINVAL
9 ok
6 started
4 done 7649abac8119b246cee98e9b12e9197d
5 done 7649abac8119b246cee98e9b12e9197d
6 done 7649abac8119b246cee98e9b12e9197d
10 drained 3
%
what owes completions is not freed
alloc p pcrypt(gcm(aes))
key p 00000000000000000000000000000000
enc p 000000000000000000000000 - 00000000000000000000000000000000
free p
drain p
free p
enc p 000000000000000000000000 - 00000000000000000000000000000000
= 0
1 ok pcrypt(gcm_base(ctr(aes-generic),ghash-generic))
2 ok
3 EINPROGRESS
4 EBUSY
3 done 0388dace60b6a392f328c2b971b2fe78ab6e47d42cec13bdf53a67b21257bddf
5 drained 1
6 ok
7 ENOENT
%
the end of input drains
alloc p pcrypt(gcm(aes))
key p 00000000000000000000000000000000
enc p 000000000000000000000000 - 00000000000000000000000000000000
= 0
1 ok pcrypt(gcm_base(ctr(aes-generic),ghash-generic))
2 ok
3 EINPROGRESS
3 done 0388dace60b6a392f328c2b971b2fe78ab6e47d42cec13bdf53a67b21257bddf
end p 1
%
the end of input lets a held queue go
alloc q cryptd(cbc(aes)) 1
key q 2b7e151628aed2a6abf7158809cf4f3c
hold q
enc q 000102030405060708090a0b0c0d0e0f - 6bc1bee22e409f96e93d7e117393172a
enc q 000102030405060708090a0b0c0d0e0f - 6bc1bee22e409f96e93d7e117393172a backlog
alloc p pcrypt(gcm(aes))
= 0
1 ok cryptd(cbc(aes-generic))
2 ok
3 ok
4 EINPROGRESS
5 EBUSY
6 ok pcrypt(gcm_base(ctr(aes-generic),ghash-generic))
5 started
4 done 7649abac8119b246cee98e9b12e9197d
5 done 7649abac8119b246cee98e9b12e9197d
end q 2
%
only queues are held
alloc p pcrypt(gcm(aes))
alloc c cbc(aes)
hold p
go p
hold c
go c
hold x
go x
poll x
drain x
poll c
drain c
poll p
drain p
= 0
1 ok pcrypt(gcm_base(ctr(aes-generic),ghash-generic))
2 ok cbc(aes-generic)
3 EINVAL
4 EINVAL
5 EINVAL
6 EINVAL
7 ENOENT
8 ENOENT
9 ENOENT
10 ENOENT
11 polled 0
12 drained 0
13 polled 0
14 drained 0
%
a held chain takes in no more than fits
alloc q cryptd(pcrypt(gcm(aes))) 2
key q 00000000000000000000000000000000
hold q
enc q 000000000000000000000000 - 00000000000000000000000000000000
enc q 000000000000000000000000 - 00000000000000000000000000000000
enc q 000000000000000000000000 - 00000000000000000000000000000000 backlog
enc q 000000000000000000000000 - 00000000000000000000000000000000
drain q
go q
drain q
= 0
1 ok cryptd(pcrypt(gcm_base(ctr(aes-generic),ghash-generic)))
2 ok
3 ok
4 EINPROGRESS
5 EINPROGRESS
6 EBUSY
7 ENOSPC
8 EINVAL
9 ok
6 started
4 done 0388dace60b6a392f328c2b971b2fe78ab6e47d42cec13bdf53a67b21257bddf
5 done 0388dace60b6a392f328c2b971b2fe78ab6e47d42cec13bdf53a67b21257bddf
6 done 0388dace60b6a392f328c2b971b2fe78ab6e47d42cec13bdf53a67b21257bddf
10 drained 3
%
wrappers below a root are refused; what a name stood on that was refused for its kind stays listed; a chain takes no mask
alloc q pcrypt(cryptd(gcm(aes)))
alloc q cryptd(cryptd(gcm(aes)))
alloc q pcrypt(pcrypt(gcm(aes)))
alloc q cryptd(pcrypt(cbc(aes)))
alloc q cryptd(pcrypt)
alloc q cryptd(pcrypt(gcm(aes),aes))
alloc q cryptd(pcrypt(gcm(aes)),aes)
alloc q cbc(cryptd(pcrypt(aes)))
alloc q cryptd(pcrypt(des))
alloc q cryptd(pcrypt(gcm(aes))) 4097
alloc q cryptd(pcrypt(gcm(aes)))
mask q 0001
mask q 0000
list
= 0
1 EINVAL
2 EINVAL
3 EINVAL
4 EINVAL
5 EINVAL
6 EINVAL
7 EINVAL
8 EINVAL
9 ENOENT
10 EINVAL
11 ok cryptd(pcrypt(gcm_base(ctr(aes-generic),ghash-generic)))
12 EINVAL
13 EINVAL
14 alg aes aes-generic 100 2
14 alg sha256 sha256-generic 100 0
14 alg ghash ghash-generic 100 1
14 alg cbc(aes) cbc(aes-generic) 100 0
14 alg ctr(aes) ctr(aes-generic) 100 1
14 alg gcm(aes) gcm_base(ctr(aes-generic),ghash-generic) 100 1
14 alg gcm(aes) cryptd(pcrypt(gcm_base(ctr(aes-generic),ghash-generic))) 250 1
14 listed 7
%
a chain completes in order; one has a wrong tag; the last is held, and comes at the end of input
alloc q cryptd(pcrypt(gcm(aes))) 4
key q 00000000000000000000000000000000
enc q 000000000000000000000000 - 00000000000000000000000000000000
dec q 000000000000000000000000 - 0388dace60b6a392f328c2b971b2fe78ab6e47d42cec13bdf53a67b21257bddf
dec q 000000000000000000000000 - 00000000000000000000000000000000
enc q 000000000000000000000000 - 00000000000000000000000000000000
drain q
hold q
enc q 000000000000000000000000 - 00000000000000000000000000000000
free q
go q
= 0
1 ok cryptd(pcrypt(gcm_base(ctr(aes-generic),ghash-generic)))
2 ok
3 EINPROGRESS
4 EINPROGRESS
5 EINPROGRESS
6 EINPROGRESS
3 done 0388dace60b6a392f328c2b971b2fe78ab6e47d42cec13bdf53a67b21257bddf
4 done 00000000000000000000000000000000
5 fail EBADMSG
6 done 0388dace60b6a392f328c2b971b2fe78ab6e47d42cec13bdf53a67b21257bddf
7 drained 4
8 ok
9 EINPROGRESS
10 EBUSY
11 ok
9 done 0388dace60b6a392f328c2b971b2fe78ab6e47d42cec13bdf53a67b21257bddf
end q 1
%
a mask that changes leaves what was accepted
alloc p pcrypt(gcm(aes))
key p 00000000000000000000000000000000
enc p 000000000000000000000000 - 00000000000000000000000000000000
mask p 0000
enc p 000000000000000000000000 - 00000000000000000000000000000000
mask p ffff
enc p 000000000000000000000000 - 00000000000000000000000000000000
drain p
mask p 000
= 1
1 ok pcrypt(gcm_base(ctr(aes-generic),ghash-generic))
2 ok
3 EINPROGRESS
4 ok
5 EINVAL
6 ok
7 EINPROGRESS
3 done 0388dace60b6a392f328c2b971b2fe78ab6e47d42cec13bdf53a67b21257bddf
7 done 0388dace60b6a392f328c2b971b2fe78ab6e47d42cec13bdf53a67b21257bddf
8 drained 2
9 malformed
%
only pads are masked; a request that is faulty by itself is refused as such first; a key is asked for before that
alloc g gcm(aes)
mask g 0001
alloc q cryptd(gcm(aes))
mask q 0001
mask x 0001
alloc p pcrypt(gcm(aes))
mask p 0000
enc p 000000000000000000000000 - 00
key p 00000000000000000000000000000000
enc p 00 - 00
enc p 000000000000000000000000 - 00
free p
= 0
1 ok gcm_base(ctr(aes-generic),ghash-generic)
2 EINVAL
3 ok cryptd(gcm_base(ctr(aes-generic),ghash-generic))
4 EINVAL
5 ENOENT
6 ok pcrypt(gcm_base(ctr(aes-generic),ghash-generic))
7 ok
8 ENOKEY
9 ok
10 EINVAL
11 EINVAL
12 ok
";

#[test]
fn pipelines_answer_in_order(rt: HostRuntime) {
    expect_rows(&rt, rt.alloc(), ROWS);
}

// Three requests to a pad, each followed by a poll. The bytes are those of GCM's second test case.
const POLLED: &str = "\
alloc p pcrypt(gcm(aes))
key p 00000000000000000000000000000000
enc p 000000000000000000000000 - 00000000000000000000000000000000
poll p
enc p 000000000000000000000000 - 00000000000000000000000000000000
poll p
enc p 000000000000000000000000 - 00000000000000000000000000000000
poll p
drain p
";

// Its completions.
const COMPLETED: &str = "\
3 done 0388dace60b6a392f328c2b971b2fe78ab6e47d42cec13bdf53a67b21257bddf
5 done 0388dace60b6a392f328c2b971b2fe78ab6e47d42cec13bdf53a67b21257bddf
7 done 0388dace60b6a392f328c2b971b2fe78ab6e47d42cec13bdf53a67b21257bddf
";

// How many completions a line says that were handed out: that of a poll, or of a drain.
fn told_in(line: &str) -> u64 {
    for end in [" polled ", " drained "] {
        if let Some((_, told)) = line.split_once(end) {
            return told.parse::<u64>().unwrap_or(100);
        }
    }
    0
}

// The completions of a text.
fn completions(rt: &impl Abort, alloc: Global, written: &str) -> String {
    let mut completions = String::new(alloc);
    for line in written.split_inclusive('\n') {
        if line.contains(" done ") {
            push(rt, &mut completions, line);
        }
    }
    completions
}

// How many its polls and drains say that they handed out.
fn handed_out(written: &str) -> u64 {
    let mut count = 0u64;
    for line in written.lines() {
        count = count.wrapping_add(told_in(line));
    }
    count
}

// Beside these workers the script hands out its completions, three by its polls and its drain.
fn expect_handed_out<R: Abort + Threads + Wait + Sync>(rt: &R, alloc: Global, line: &str) {
    let written = printed(rt, alloc, line, POLLED, 0);
    let completed = completions(rt, alloc, written.as_str());
    check(rt, completed.as_str() == COMPLETED, line);
    check(rt, handed_out(written.as_str()) == 3, line);
}

#[test]
fn polls_and_the_drain_hand_out_each_completion_once(rt: HostRuntime) {
    for line in CREWS {
        expect_handed_out(&rt, rt.alloc(), line);
    }
}

// The last two, eight and sixteen digits of a number.
fn two_digits(rt: &impl Abort, alloc: Global, number: u32) -> String {
    format!(in alloc; "{:02x}", number % 256).expect(rt, "memory")
}

fn eight_digits(rt: &impl Abort, alloc: Global, number: u32) -> String {
    format!(in alloc; "{number:08x}").expect(rt, "memory")
}

fn sixteen_digits(rt: &impl Abort, alloc: Global, number: u32) -> String {
    format!(in alloc; "{number:016x}").expect(rt, "memory")
}

// The front of a packet: its number in the eight bytes of its IV, and 16 bytes that are authenticated.
fn push_head(rt: &impl Abort, alloc: Global, script: &mut String, label: &str, number: u32) {
    let iv = sixteen_digits(rt, alloc, number);
    let sequence = eight_digits(rt, alloc, number);
    push_all(rt, script, &["enc ", label, " ", iv.as_str(), " 00001000"]);
    push_all(rt, script, &[sequence.as_str(), iv.as_str(), " "]);
}

// One packet of a gateway, with a text of 64 to 1,400 bytes.
fn push_packet(rt: &impl Abort, alloc: Global, script: &mut String, label: &str, number: u32) {
    push_head(rt, alloc, script, label, number);
    let byte = two_digits(rt, alloc, number);
    for _ in 0..64 + number.wrapping_mul(37) % 1337 {
        push(rt, script, byte.as_str());
    }
    push(rt, script, "\n");
}

const LABELS: [&str; 3] = ["a", "b", "c"];

// 16 bytes of a transform's key, and 4 of the salt.
fn push_key(rt: &impl Abort, script: &mut String, label: &str) {
    push_all(
        rt,
        script,
        &["key ", label, " 2b7e151628aed2a6abf7158809cf4f3c"],
    );
    for _ in 0..4 {
        push_all(rt, script, &["0", label]);
    }
    push(rt, script, "\n");
}

// A gateway's script: three transforms of this name, each with a key, and 200 packets in turn over them.
fn gateway(rt: &impl Abort, alloc: Global, name: &str) -> String {
    let mut script = String::new(alloc);
    for label in LABELS {
        push_all(rt, &mut script, &["alloc ", label, " ", name, "\n"]);
    }
    for label in LABELS {
        push_key(rt, &mut script, label);
    }
    for number in 0..200u32 {
        push_packet(rt, alloc, &mut script, LABELS[number as usize % 3], number);
    }
    script
}

// A completion, by the answer `ok BYTES`.
fn push_completion(rt: &impl Abort, text: &mut String, answer: &str) {
    let (number, made) = answer.split_once(" ok ").unwrap_or(("no", "answer"));
    push_all(rt, text, &[number, " done ", made, "\n"]);
}

// The answers of the lines from 7 on that fall to one of three transforms, as completions, and then the transform's
// end.
fn push_completions(
    rt: &impl Abort,
    text: &mut String,
    answers: &str,
    (place, end): (usize, &str),
) {
    for answer in answers.lines().skip(6).skip(place).step_by(3) {
        push_completion(rt, text, answer);
    }
    push(rt, text, end);
}

// The first lines of a gateway whose transforms are pads.
const OPENED: &str = "\
1 ok pcrypt(rfc4106(gcm_base(ctr(aes-generic),ghash-generic)))
2 ok pcrypt(rfc4106(gcm_base(ctr(aes-generic),ghash-generic)))
3 ok pcrypt(rfc4106(gcm_base(ctr(aes-generic),ghash-generic)))
4 ok
5 ok
6 ok
";

// What it prints, by the answers of one whose transforms are plain.
fn gateway_text(rt: &impl Abort, alloc: Global, answers: &str) -> String {
    let mut text = string_of(rt, alloc, OPENED);
    for number in 7..207u32 {
        push_line(rt, alloc, &mut text, number, "EINPROGRESS");
    }
    for part in [(0, "end a 67\n"), (1, "end b 67\n"), (2, "end c 66\n")] {
        push_completions(rt, &mut text, answers, part);
    }
    text
}

// What a gateway prints whose transforms are plain, beside no workers.
fn plain_answers<R: Abort + Threads + Wait + Sync>(rt: &R, alloc: Global) -> String {
    let script = gateway(rt, alloc, "rfc4106(gcm(aes))");
    printed(rt, alloc, "--workers 0", script.as_str(), 0)
}

#[test]
fn a_gateway_seals_its_packets_in_order(rt: HostRuntime) {
    let text = gateway_text(&rt, rt.alloc(), plain_answers(&rt, rt.alloc()).as_str());
    let script = gateway(&rt, rt.alloc(), "pcrypt(rfc4106(gcm(aes)))");
    expect(&rt, rt.alloc(), script.as_str(), 0, text.as_str());
}
