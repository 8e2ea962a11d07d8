//! Error numbers, bytes, callbacks, and streams that fail.

ghost use Rattle.std.specs.Prelude.{◌<◌, length};

use crate::given::bytes_of;
use kc_base::{
    Bytes, Callback, Callbacks, Errno, InputError, MemSink, MemSource, ReadAnswer, RepeatSource,
    Sink, SinkError, Source, SureSink, SureSource, WriteAnswer, read_input, write_piece,
};
use std::alloc::Global;
use std::process::Abort;

const ERRORS: [Errno; 13] = [
    Errno::ENOENT,
    Errno::E2BIG,
    Errno::EAGAIN,
    Errno::EBUSY,
    Errno::EEXIST,
    Errno::EINVAL,
    Errno::ENFILE,
    Errno::EMFILE,
    Errno::ENOSPC,
    Errno::ENAMETOOLONG,
    Errno::EBADMSG,
    Errno::EINPROGRESS,
    Errno::ENOKEY,
];

/// The kernel's number and name of each.
const NUMBERS: &str = "\
2 ENOENT
7 E2BIG
11 EAGAIN
16 EBUSY
17 EEXIST
22 EINVAL
23 ENFILE
24 EMFILE
28 ENOSPC
36 ENAMETOOLONG
74 EBADMSG
115 EINPROGRESS
126 ENOKEY
";

/// A row has the number and the name of an error.
fn is_of(row: &str, error: Errno) -> bool {
    match row.split_once(' ') {
        Some((number, name)) => {
            number.parse::<u32>() == Ok(error.number()) && name == error.name()
        }
        None => false,
    }
}

#[test]
fn errors_have_the_kernels_numbers(rt: HostRuntime) {
    assert!(rt; NUMBERS.lines().count() == ERRORS.len());
    for (row, error) in NUMBERS.lines().zip(ERRORS) {
        assert!(rt; is_of(row, error), "{row}");
    }
}

#[test]
fn bytes_grow_at_the_end(rt: HostRuntime) {
    let mut bytes = Bytes::new(rt.alloc());
    assert!(rt; bytes.append(b"ab").is_ok());
    assert!(rt; bytes.push(b'c').is_ok());
    let again = Bytes::from_vec(bytes.into_vec());
    assert!(rt; again.as_slice() == b"abc".as_slice());
}

/// Whether these are the callbacks that the test below told.
fn are_told(callbacks: &[Callback<char>]) -> bool {
    matches!(callbacks, [Callback::Started(4), Callback::Done(2, 'x')])
}

#[test]
fn callbacks_keep_their_order(rt: HostRuntime) {
    let mut callbacks = Callbacks::new(rt.alloc());
    callbacks.reserve(2).expect(&rt, "memory");
    callbacks.push(Callback::Started(4));
    callbacks.push(Callback::Done(2, 'x'));
    assert!(rt; are_told(callbacks.as_slice()));
}

/// A call's number among those that fail.
fn failing(rt: &impl Abort, alloc: Global, call: u64) -> Vec<u64> {
    vec![in alloc; call].expect(rt, "memory")
}

/// A source of `abcd` by three bytes, of which the read of this number fails.
fn failing_source(rt: &impl Abort, alloc: Global, read: u64) -> MemSource {
    MemSource::new(bytes_of(rt, alloc, b"abcd"), 3, failing(rt, alloc, read))
}

/// The next read answers so, and leaves this byte at the front.
fn is_read<S: Source>(src: &mut S, buf: &mut [u8; 8], answer: ReadAnswer, first: u8) -> bool {
    src.read(buf) == answer && buf[0] == first
}

#[test]
fn a_failed_read_loses_nothing(rt: HostRuntime) {
    let mut src = failing_source(&rt, rt.alloc(), 1);
    let mut buf = [0u8; 8];
    for (answer, first) in [
        (ReadAnswer::Got(3), b'a'),
        (ReadAnswer::Failed, b'a'),
        (ReadAnswer::Got(1), b'd'),
        (ReadAnswer::Ended, b'd'),
    ] {
        assert!(rt; is_read(&mut src, &mut buf, answer, first));
    }
}

/// A sink that takes two bytes, of which the write of this number fails.
fn failing_sink(rt: &impl Abort, alloc: Global, write: u64) -> MemSink {
    MemSink::new(alloc, 2, failing(rt, alloc, write))
}

/// The next write answers so, and the sink holds this then.
fn is_written(out: &mut MemSink, piece: &[u8], answer: WriteAnswer, held: &[u8]) -> bool
    requires { 0 < length piece.now }
{
    out.write(piece) == answer && out.bytes() == held
}

#[test]
fn a_failed_write_appends_nothing(rt: HostRuntime) {
    let mut out = failing_sink(&rt, rt.alloc(), 1);
    assert!(rt; is_written(&mut out, b"abc", WriteAnswer::Took(2), b"ab"));
    assert!(rt; is_written(&mut out, b"c", WriteAnswer::Failed, b"ab"));
    assert!(rt; is_written(&mut out, b"c", WriteAnswer::Took(1), b"abc"));
}

/// A piece that is offered to a sink of which this write fails comes to this.
fn is_offered(
    rt: &impl Abort,
    alloc: Global,
    write: u64,
    answer: Result<(), SinkError>,
    held: &[u8],
) {
    let mut out = failing_sink(rt, alloc, write);
    assert!(rt; write_piece(&mut out, b"abcde") == answer);
    assert!(rt; out.bytes() == held);
}

#[test]
fn a_piece_is_offered_until_it_is_taken(rt: HostRuntime) {
    is_offered(&rt, rt.alloc(), 9, Ok(()), b"abcde");
    is_offered(&rt, rt.alloc(), 1, Err(SinkError::Failed), b"ab");
}

#[test]
fn a_sure_sink_takes_a_piece(rt: HostRuntime) {
    let mut out = SureSink::new(rt.alloc());
    assert!(rt; write_piece(&mut out, b"abcde").is_ok());
    assert!(rt; out.bytes() == b"abcde".as_slice());
}

/// An input of at most four bytes comes to this.
fn comes_to<S: Source>(alloc: Global, src: &mut S, want: Result<&[u8], InputError>) -> bool {
    let mut buf = [0u8; 3];
    match read_input(alloc, src, &mut buf, 4) {
        Ok(input) => want == Ok(input.as_slice()),
        Err(error) => want == Err(error),
    }
}

#[test]
fn an_input_is_read_up_to_a_limit(rt: HostRuntime) {
    let mut src = SureSource::new(bytes_of(&rt, rt.alloc(), b"abcd"));
    assert!(rt; comes_to(rt.alloc(), &mut src, Ok(b"abcd")));
    let mut src = RepeatSource::new(b'x', 5);
    assert!(rt; comes_to(rt.alloc(), &mut src, Err(InputError::TooLong)));
}

#[test]
fn an_input_whose_read_fails_is_none(rt: HostRuntime) {
    let mut src = failing_source(&rt, rt.alloc(), 1);
    assert!(rt; comes_to(rt.alloc(), &mut src, Err(InputError::Failed)));
}
