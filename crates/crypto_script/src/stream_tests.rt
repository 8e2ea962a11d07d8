//! Runs whose streams give and take little at a time, or fail.

ghost use Rattle.std.specs.Prelude.{◌<◌};

use crate::tests::{
    ANSWER, Ended, LINE, MIXED_SCRIPT, MIXED_TEXT, SCRIPT, TEXT, bytes_of, check, decimal, joined,
    push, row_of, run_line, text_of,
};
use crate::worked_tests::WORKED;
use crew::NoGate;
use kc_base::{MemSink, MemSource, RepeatSource, SureSink};
use std::alloc::Global;
use std::io::BufWriter;
use std::process::Abort;
use std::sync::Wait;
use std::thread::Threads;
use std_streams::{StdSink, StdSource};

/// The call that fails, if one does.
#[derive(Clone, Copy)]
pub enum Fault {
    None,
    Read(u64),
    Write(u64),
}

/// As many bytes as are asked for.
const ALL: usize = 1_000_000_000;

fn slow_source(rt: &impl Abort, alloc: Global, script: &str, step: usize, fault: Fault) -> MemSource
    requires { 0 < step }
{
    let mut failing = Vec::new(alloc);
    if let Fault::Read(number) = fault {
        failing.push(number).expect(rt, "memory");
    }
    MemSource::new(bytes_of(rt, alloc, script), step, failing)
}

fn slow_sink(rt: &impl Abort, alloc: Global, step: usize, fault: Fault) -> MemSink
    requires { 0 < step }
{
    let mut failing = Vec::new(alloc);
    if let Fault::Write(number) = fault {
        failing.push(number).expect(rt, "memory");
    }
    MemSink::new(alloc, step, failing)
}

/// How a run ends, and what it has written, where a read gives so many bytes at most, a write takes so many, and one
/// call fails.
pub fn run_slow<R: Abort + Threads + Wait + Sync>(
    rt: &R,
    alloc: Global,
    line: &str,
    script: &str,
    steps: (usize, usize),
    fault: Fault,
) -> (Ended, String)
    requires given { 0 < steps.0 }
    requires taken { 0 < steps.1 }
{
    let (given, taken) = steps;
    let mut src = slow_source(rt, alloc, script, given, fault);
    let mut out = slow_sink(rt, alloc, taken, fault);
    let ended = run_line(rt, alloc, line, &NoGate, &mut src, &mut out);
    (ended, text_of(rt, alloc, out.bytes()))
}

/// Such a run has this status and has written this.
pub fn expect_slow<R: Abort + Threads + Wait + Sync>(
    rt: &R,
    alloc: Global,
    line: &str,
    script: &str,
    steps: (usize, usize),
    fault: Fault,
    want: u8,
    text: &str,
)
    requires given { 0 < steps.0 }
    requires taken { 0 < steps.1 }
{
    let (ended, got) = run_slow(rt, alloc, line, script, steps, fault);
    check(rt, ended.status == want && got.as_str() == text, script);
}

// Each worked script has its text where a read gives so many bytes.
fn expect_in_steps<R: Abort + Threads + Wait + Sync>(rt: &R, alloc: Global, step: usize)
    requires { 0 < step }
{
    for row in WORKED.split("%\n") {
        let row = row_of(rt, row);
        expect_slow(
            rt,
            alloc,
            "--workers 2",
            row.script,
            (step, ALL),
            Fault::None,
            0,
            row.text,
        );
    }
}

#[test]
fn pieces_change_no_text(rt: HostRuntime) {
    for step in [1usize, 2, 7, 65_536] {
        expect_in_steps(&rt, rt.alloc(), step);
    }
}

// The first lines of a text.
fn first_lines(rt: &impl Abort, alloc: Global, text: &str, count: usize) -> String {
    let mut first = String::new(alloc);
    for line in text.split_inclusive('\n').take(count) {
        push(rt, &mut first, line);
    }
    first
}

// The status and the text of the script's run where the read of this number fails: the lines whose line feed came
// before it are answered.
fn wanted_by(rt: &impl Abort, alloc: Global, step: usize, number: u32) -> (u8, String) {
    let given = step.saturating_mul(number as usize);
    if given.saturating_sub(step) >= SCRIPT.len() {
        return (1, first_lines(rt, alloc, TEXT, 3));
    }
    let feeds = SCRIPT.bytes().take(given).filter(|b| *b == b'\n').count();
    (3, first_lines(rt, alloc, TEXT, feeds))
}

// The script's run where one read fails.
fn fail_read<R: Abort + Threads + Wait + Sync>(
    rt: &R,
    alloc: Global,
    line: &str,
    step: usize,
    number: u32,
)
    requires { 0 < step }
{
    let (want, text) = wanted_by(rt, alloc, step, number);
    let fault = Fault::Read(u64::from(number));
    expect_slow(
        rt,
        alloc,
        line,
        SCRIPT,
        (step, ALL),
        fault,
        want,
        text.as_str(),
    );
}

// The script's run where one write fails: the writes before it have taken a front of the text.
fn fail_write<R: Abort + Threads + Wait + Sync>(
    rt: &R,
    alloc: Global,
    line: &str,
    step: usize,
    number: u32,
)
    requires { 0 < step }
{
    let fault = Fault::Write(u64::from(number));
    let (ended, written) = run_slow(rt, alloc, line, MIXED_SCRIPT, (ALL, step), fault);
    let is_whole = written.len() == MIXED_TEXT.len();
    let is_right = ended.status == if is_whole { 1 } else { 4 };
    let about = decimal(rt, alloc, u64::from(number));
    check(
        rt,
        is_right && MIXED_TEXT.starts_with(written.as_str()),
        about.as_str(),
    );
}

/// The answers to the first two of three lines.
const TWO_ANSWERS: &str =
    "1 ok 69c4e0d86a7b0430d8cdb78070b4c55a\n2 ok 69c4e0d86a7b0430d8cdb78070b4c55a\n";

#[test]
fn each_line_is_answered_in_one_piece(rt: HostRuntime) {
    let script = joined(&rt, rt.alloc(), &[LINE, LINE, LINE]);
    expect_slow(
        &rt,
        rt.alloc(),
        "--workers 1",
        script.as_str(),
        (ALL, ALL),
        Fault::Write(2),
        4,
        TWO_ANSWERS,
    );
}

// Words for these runs, in turn.
const IN_TURN: [&str; 4] = ["--workers 0", "--workers 1", "--workers 2", "--workers 3"];

#[test]
fn each_read_and_each_write_fails_in_turn(rt: HostRuntime) {
    for number in 0..150u32 {
        let line = IN_TURN[number as usize % 4];
        fail_read(&rt, rt.alloc(), line, 1, number);
        fail_read(&rt, rt.alloc(), line, 7, number);
        fail_write(&rt, rt.alloc(), line, 16, number);
        fail_write(&rt, rt.alloc(), line, 1000, number);
    }
}

// So many bytes of a comment have this status and this text.
fn expect_repeated<R: Abort + Threads + Wait + Sync>(
    rt: &R,
    alloc: Global,
    count: u64,
    want: u8,
    text: &str,
) {
    let mut src = RepeatSource::new(b'#', count);
    let mut out = SureSink::new(alloc);
    let ended = run_line(rt, alloc, "--workers 1", &NoGate, &mut src, &mut out);
    let is_right = ended.status == want && out.bytes() == text.as_bytes();
    check(rt, is_right, decimal(rt, alloc, count).as_str());
}

// How many bytes, the status, and the text.
const REPEATED: [(u64, u8, &str); 4] = [
    (65_536, 0, ""),
    (65_537, 1, "1 malformed\n"),
    (268_435_456, 1, "1 malformed\n"),
    (268_435_457, 6, ""),
];

#[test]
fn the_input_has_a_limit(rt: HostRuntime) {
    for (count, want, text) in REPEATED {
        expect_repeated(&rt, rt.alloc(), count, want, text);
    }
}

#[test]
fn std_streams_are_a_source_and_a_sink(rt: HostRuntime) {
    let mut src = StdSource::new(LINE.as_bytes());
    let writer = BufWriter::new(rt.alloc(), Vec::new(rt.alloc())).expect(&rt, "memory");
    let mut out = StdSink::new(writer);
    // four workers, where no word says how many
    let ended = run_line(&rt, rt.alloc(), "", &NoGate, &mut src, &mut out);
    assert!(rt; ended.status == 0);
    let (written, kept) = out.into_inner().into_parts();
    assert!(rt; written.as_slice() == ANSWER.as_bytes());
    assert!(rt; kept.is_empty());
}
