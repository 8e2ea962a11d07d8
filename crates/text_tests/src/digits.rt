//! Hexadecimal digits by the loops that read and write many at once, beside those of `hex`, which take one after
//! another.

use crate::replies::is_put;
use crate::script_lines::{Said, read_said};
use kc_base::Bytes;
use reply_text::Answer;
use std::alloc::Global;
use std::process::Abort;

/// The most bytes that are tried: with two digits each more than what a processor takes at once.
const MOST: usize = 70;

fn bytes_of(rt: &impl Abort, alloc: Global, count: usize) -> Vec<u8> {
    let mut bytes = Vec::new(alloc);
    for place in 0..count {
        let byte = (place % 256) as u8;
        bytes.push(byte.wrapping_mul(37)).expect(rt, "memory");
    }
    bytes
}

// A key in these digits is read as these bytes.
fn are_read(rt: &impl Abort, alloc: Global, digits: &str, bytes: &[u8]) {
    let line = format!(in alloc; "key t {digits}").expect(rt, "memory");
    assert!(rt;
        read_said(rt, alloc, line.as_bytes(), bytes) == Said::ThisKey,
        "{digits}"
    );
}

// A value of these bytes is written in these digits.
fn are_written(rt: &impl Abort, alloc: Global, bytes: Vec<u8>, digits: &str) {
    let line = format!(in alloc; "7 ok {digits}").expect(rt, "memory");
    let answer = Answer::Value {
        line: 7,
        bytes: Bytes::from_vec(bytes),
    };
    assert!(rt; is_put(rt, alloc, &answer, line.as_str()), "{digits}");
}

#[test]
fn digits_are_read_and_written(rt: HostRuntime) {
    for count in 1..=MOST {
        let bytes = bytes_of(&rt, rt.alloc(), count);
        let lower = hex::encode(rt.alloc(), bytes.as_slice()).expect(&rt, "memory");
        let upper = hex::encode_upper(rt.alloc(), bytes.as_slice()).expect(&rt, "memory");
        are_read(&rt, rt.alloc(), lower.as_str(), &bytes);
        are_read(&rt, rt.alloc(), upper.as_str(), &bytes);
        are_written(&rt, rt.alloc(), bytes, lower.as_str());
    }
}
