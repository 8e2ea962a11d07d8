//! Traces, as they are judged.

use std::alloc::Global;
use std::process::Abort;
use trace_check::{Reason, TraceVerdict, check_trace};

const REGISTRY: &str = "\
r 0 look cryptd(cbc(aes)) any began 0
r 0 claim 0
r 0 look cbc(aes) plain began 1
r 0 claim 1
r 0 look aes plain found 0
r 0 end 1 built 3 cbc(aes) cbc(aes-generic) skcipher plain 100 0
r 0 end 0 built 4 cbc(aes) cryptd(cbc(aes-generic)) skcipher cryptd 150 3
r 0 get 4 ok
";

const BORN: &str = "\
b 0 born 0 queue 2
";

const WORK: &str = "\
b 0 hold 0
b 0 enq 0 4 plain EINPROGRESS 0
b 0 enq 0 5 plain EINPROGRESS 1
b 0 enq 0 6 backlog EBUSY 2
b 0 enq 0 7 plain ENOSPC
b 0 go 0
b 0 deq 0 0 started 2
b 0 done 0 0
b 0 deq 0 1 -
b 0 done 0 1
b 0 deq 0 2 -
b 0 done 0 2
";

const FOUR: &str = "\
b 0 collect 0 4
";

const THREE: &str = "\
b 0 collect 0 3
";

const SHUT: &str = "\
b 0 shut
";

// A chain of one that waits, and two lists, whose second request is finished first; and a pad whose mask is emptied,
// and then has the second worker alone.
const CHAIN: &str = "\
b 0 born 0 chain 1 2
b 0 hold 0
b 0 enq 0 4 plain EINPROGRESS 0
b 0 enq 0 5 backlog EBUSY 1
b 0 go 0
b 2 deq 0 0 started 1
b 1 deq 0 1 -
b 1 take 0 0
b 2 take 0 1
b 2 finish 0 1
b 0 collect 0 1
b 1 finish 0 0
b 0 collect 0 3
b 0 close 0
";

const MASKED: &str = "\
b 0 born 1 pad 2
b 0 submit 1 0 6
b 0 mask 1 0000
b 0 mask 1 0002
b 2 take 1 0
b 2 finish 1 0
b 0 collect 1 1
b 0 close 1
";

/// What a row's word and number say that a text is.
fn verdict_in(rt: &impl Abort, word: &str, number: &str) -> TraceVerdict {
    let number = number.parse::<u64>().expect(rt, "a number");
    match word {
        "legal" => TraceVerdict::Legal,
        "line" => TraceVerdict::NoTrace(number),
        "state" => TraceVerdict::Illegal(number, Reason::State),
        "caller" => TraceVerdict::Illegal(number, Reason::Caller),
        "number" => TraceVerdict::Illegal(number, Reason::Number),
        "answer" => TraceVerdict::Illegal(number, Reason::Answer),
        _ => panic!(rt; "{word}"),
    }
}

/// A row's verdict, and the rest of the row.
fn read_row<'a>(rt: &impl Abort, row: &'a str) -> (TraceVerdict, &'a str) {
    let (word, rest) = row.split_once(' ').expect(rt, "a verdict");
    let (number, text) = rest.split_once(' ').expect(rt, "a number");
    (verdict_in(rt, word, number), text)
}

/// Whether this is the verdict on a text.
fn is_judged(rt: &impl Abort, alloc: Global, text: &[u8], want: TraceVerdict) -> bool {
    check_trace(alloc, text).expect(rt, "memory") == want
}

fn part_of(rt: &impl Abort, letter: char) -> &'static str {
    match letter {
        'R' => REGISTRY,
        'B' => BORN,
        'W' => WORK,
        '4' => FOUR,
        '3' => THREE,
        'S' => SHUT,
        'C' => CHAIN,
        'M' => MASKED,
        _ => panic!(rt; "no part"),
    }
}

/// The text of parts, one letter each.
fn joined(rt: &impl Abort, alloc: Global, letters: &str) -> Vec<u8> {
    let mut text = Vec::new(alloc);
    for letter in letters.chars() {
        text.extend_from_slice(part_of(rt, letter).as_bytes())
            .expect(rt, "memory");
    }
    text
}

/// What parts of traces come to: a held queue's, right, without its birth, with a collect of too few, and shut twice;
/// and that of a chain and a mask.
const JOINED: &str = "\
legal 0 RBW44S
state 8 RW44S
number 21 RBW34S
state 24 RBW44SS
legal 0 RCMS
";

/// A row holds.
fn joined_row_holds(rt: &impl Abort, alloc: Global, row: &str) {
    let (want, letters) = read_row(rt, row);
    let text = joined(rt, alloc, letters);
    assert!(rt; is_judged(rt, alloc, &text, want), "{row}");
}

#[test]
fn whole_traces_are_judged(rt: HostRuntime) {
    for row in JOINED.lines() {
        joined_row_holds(&rt, rt.alloc(), row);
    }
}

/// Texts whose first bad line is named, with `;` in the place of a line feed.
const BAD_LINES: &str = "\
line 1 x
line 1 b 0 shut
line 2 b 0 shut;r 0 list;
line 2 r 0 list;r 00 list;
line 1 r 0 list ;
line 1 r 4294967296 list;
line 2 r 0 list;;b 0 shut;
line 1 r 0 refs \x7f;
line 2 b 0 enq 0 7 plain EBUSY 1;b 0 enq 0 7 none EBUSY 1;
line 2 b 0 deq 0 0 -;b 0 deq 0 0 + 1;
line 2 b 0 born 0 chain 1 1;b 0 born 0 chain 1;
line 2 b 0 mask 0 00ff;b 0 mask 0 00FF;
line 1 b 0 mask 0 fff;
";

/// In a row stand the reason why an event isn't right, how many before it are, and the events: each reason that an
/// event of the registry can have. Only a claim, an end, a wait and a reference given back need a state; anybody may
/// claim and wait; and a number stands in the answers of an enlist, a look, an end and an unlist alone, which with that
/// of a get are all that are judged.
const REGISTRY_ROWS: &str = "\
caller 0 r 1 enlist x y cipher 1 made 3;
number 0 r 0 enlist x y cipher 1 made 4;
answer 0 r 0 enlist x aes-generic cipher 1 made 3;
caller 0 r 1 look aes any found 0;
number 0 r 0 look aes any found 1;
answer 0 r 0 look aes any absent;
state 0 r 0 claim 0;
state 0 r 0 end 0 nomemory;
caller 2 r 0 look cbc(aes) any began 0;r 0 claim 0;r 1 end 0 nomemory;
number 2 r 0 look cbc(aes) any began 0;r 0 claim 0;r 0 end 0 joined 3 0;
answer 2 r 0 look cbc(aes) any began 0;r 0 claim 0;r 0 end 0 joined 0 3;
number 2 r 0 look cbc(aes) any began 0;r 0 claim 0;r 0 end 0 built 9 cbc(aes) aes-generic skcipher plain 100 0;
answer 2 r 0 look cbc(aes) any began 0;r 0 claim 0;r 0 end 0 built 3 cbc(aes) aes-generic skcipher plain 100 0;
state 1 r 0 look cbc(aes) any began 0;r 0 waited 0;
caller 0 r 16 unlist aes-generic ok 0;
number 0 r 0 unlist aes-generic ok 1;
answer 0 r 0 unlist aes-generic ENOENT;
caller 0 r 1 get 0 ok;
answer 0 r 0 get 3 ok;
state 0 r 0 put 0;
caller 1 r 0 get 0 ok;r 17 put 0;
caller 0 r 1 refs aes-generic;
caller 0 r 1 list;
";

/// The same of the board's events. A birth needs no state, anybody may let a request out of a line, an answer stands in
/// what is put to a queue or a chain alone, and a number that isn't right for a take, a finish or a done is one without
/// its state. In the last row the registry's events count too.
const BOARD_ROWS: &str = "\
caller 0 b 1 born 0 pad 1;
number 0 b 0 born 1 pad 1;
number 0 b 0 born 0 queue 0;
number 0 b 0 born 0 pad 17;
number 0 b 0 born 0 chain 0 1;
number 0 b 0 born 0 chain 1 0;
state 0 b 0 submit 0 0 7;
caller 1 b 0 born 0 pad 1;b 17 submit 0 0 7;
number 1 b 0 born 0 pad 1;b 0 submit 0 1 7;
state 1 b 0 born 0 pad 1;b 1 take 0 0;
state 2 b 0 born 0 pad 2;b 0 mask 0 0000;b 0 submit 0 0 7;
caller 3 b 0 born 0 pad 2;b 0 mask 0 0001;b 0 submit 0 0 7;b 2 take 0 0;
state 2 b 0 born 0 chain 1 1;b 0 enq 0 7 plain EINPROGRESS 0;b 1 take 0 0;
state 3 b 0 born 0 chain 1 1;b 0 enq 0 7 plain EINPROGRESS 0;b 1 deq 0 0 -;b 1 done 0 0;
number 2 b 0 born 0 chain 1 1;b 0 enq 0 7 plain EINPROGRESS 0;b 0 collect 0 1;
state 1 b 0 born 0 chain 1 1;b 0 mask 0 0000;
state 2 b 0 born 0 pad 2;b 0 share 0;b 0 mask 0 0001;
caller 1 b 0 born 0 pad 2;b 17 mask 0 0001;
number 1 b 0 born 0 pad 2;b 0 mask 0 0004;
state 2 b 0 born 0 pad 1;b 0 submit 0 0 7;b 1 finish 0 0;
caller 3 b 0 born 0 pad 1;b 0 submit 0 0 7;b 1 take 0 0;b 2 finish 0 0;
state 1 b 0 born 0 pad 1;b 0 enq 0 7 plain EINPROGRESS 0;
caller 1 b 0 born 0 queue 1;b 17 enq 0 7 plain EINPROGRESS 0;
number 1 b 0 born 0 queue 1;b 0 enq 0 7 plain EINPROGRESS 1;
answer 1 b 0 born 0 queue 1;b 0 enq 0 7 plain ENOSPC;
state 1 b 0 born 0 queue 1;b 1 deq 0 0 -;
number 2 b 0 born 0 queue 1;b 0 enq 0 7 plain EINPROGRESS 0;b 1 deq 0 0 started 1;
state 2 b 0 born 0 queue 1;b 0 enq 0 7 plain EINPROGRESS 0;b 1 done 0 0;
caller 3 b 0 born 0 queue 1;b 0 enq 0 7 plain EINPROGRESS 0;b 1 deq 0 0 -;b 2 done 0 0;
state 1 b 0 born 0 pad 1;b 0 hold 0;
caller 1 b 0 born 0 queue 1;b 17 hold 0;
state 1 b 0 born 0 pad 1;b 0 go 0;
caller 1 b 0 born 0 queue 1;b 17 go 0;
state 0 b 0 collect 0 0;
caller 1 b 0 born 0 pad 1;b 17 collect 0 0;
number 1 b 0 born 0 pad 1;b 0 collect 0 1;
state 2 b 0 born 0 pad 1;b 0 submit 0 0 7;b 0 close 0;
caller 1 b 0 born 0 pad 1;b 17 close 0;
state 0 b 0 share 0;
caller 1 b 0 born 0 pad 1;b 1 share 0;
state 1 b 0 shut;b 0 shut;
caller 0 b 1 shut;
number 3 r 0 list;r 0 list;b 0 born 0 pad 1;b 0 collect 0 1;
";

/// The lines of a text with `;` in the place of line feeds.
fn lines_in(rt: &impl Abort, alloc: Global, text: &str) -> Vec<u8> {
    let mut lines = Vec::new(alloc);
    for byte in text.bytes() {
        let byte = if byte == b';' { b'\n' } else { byte };
        lines.push(byte).expect(rt, "memory");
    }
    lines
}

/// A row holds.
fn row_holds(rt: &impl Abort, alloc: Global, row: &str) {
    let (want, events) = read_row(rt, row);
    let text = lines_in(rt, alloc, events);
    assert!(rt; is_judged(rt, alloc, &text, want), "{row}");
}

#[test]
fn the_first_wrong_line_or_event_is_named(rt: HostRuntime) {
    for rows in [BAD_LINES, REGISTRY_ROWS, BOARD_ROWS] {
        for row in rows.lines() {
            row_holds(&rt, rt.alloc(), row);
        }
    }
}
