//! Runs of which one read, or one write, fails.

use crate::pipeline_tests::ROWS as PIPELINES;
use crate::stream_tests::{Fault, run_slow};
use crate::tests::{Row, check, decimal, row_named};
use crate::worked_tests::WORKED;
use std::alloc::Global;
use std::process::Abort;
use std::sync::Wait;
use std::thread::Threads;

const CREWS: [&str; 3] = ["--workers 0", "--workers 1", "--workers 4"];

// Three requests to a pad.
const PAD: &str = "GCM's second test case three times under pcrypt";

// A queue that is held with a request in its backlog.
const QUEUE: &str = "a held queue takes in no more than fits";

fn number_of(fault: Fault) -> u64 {
    match fault {
        Fault::None => 0,
        Fault::Read(number) | Fault::Write(number) => number,
    }
}

// A row that is read byte by byte, and written three bytes at once, ends so where this call fails: with this status, a
// front of the text and the board shut, whose history is legal by a clause of `run`; and with the whole text where no
// call fails.
fn expect_fault<R: Abort + Threads + Wait + Sync>(
    rt: &R,
    alloc: Global,
    line: &str,
    row: Row,
    fault: Fault,
    want: u8,
) {
    let (ended, written) = run_slow(rt, alloc, line, row.script, (1, 3), fault);
    let is_front = row.text.starts_with(written.as_str());
    let is_enough = want != 0 || written.len() == row.text.len();
    let is_right = ended.status == want && ended.shut && is_front && is_enough;
    check(rt, is_right, decimal(rt, alloc, number_of(fault)).as_str());
}

// Lets each read of a row fail in turn: one for each byte, and one that finds the end. No read has the number after.
fn fail_each_read<R: Abort + Threads + Wait + Sync>(rt: &R, alloc: Global, line: &str, row: Row) {
    let calls = row.script.len() as u64 + 1;
    for number in 0..calls {
        expect_fault(rt, alloc, line, row, Fault::Read(number), 3);
    }
    expect_fault(rt, alloc, line, row, Fault::Read(calls), 0);
}

// Lets each of so many writes of a row fail in turn.
fn fail_each_write<R: Abort + Threads + Wait + Sync>(
    rt: &R,
    alloc: Global,
    line: &str,
    row: Row,
    calls: u64,
) {
    for number in 0..calls {
        expect_fault(rt, alloc, line, row, Fault::Write(number), 4);
    }
    expect_fault(rt, alloc, line, row, Fault::Write(calls), 0);
}

#[test]
fn each_read_of_requests_to_a_pad_fails_in_turn(rt: HostRuntime) {
    for line in CREWS {
        fail_each_read(&rt, rt.alloc(), line, row_named(&rt, WORKED, PAD));
    }
}

#[test]
fn each_read_of_requests_to_a_queue_fails_in_turn(rt: HostRuntime) {
    for line in CREWS {
        fail_each_read(&rt, rt.alloc(), line, row_named(&rt, PIPELINES, QUEUE));
    }
}

#[test]
fn each_write_fails_in_turn(rt: HostRuntime) {
    for line in CREWS {
        // three bytes of a line's answers a write
        fail_each_write(&rt, rt.alloc(), line, row_named(&rt, WORKED, PAD), 111);
        fail_each_write(&rt, rt.alloc(), line, row_named(&rt, PIPELINES, QUEUE), 83);
    }
}
