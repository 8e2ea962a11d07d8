//! Whole loads. Each line is that of tools/check-load-line, which takes nothing of the program.

use crate::stream_tests::{Fault, expect_slow};
use crate::tests::{cut, expect_line, joined};
use std::alloc::Global;
use std::process::Abort;
use std::sync::Wait;
use std::thread::Threads;

// Words, and the line that they write.
const LOADS: &str = "\
--load 7 --count 0 = load 0 e3b0c44298fc1c149afbf4c8996fb92427ae41e4649b934ca495991b7852b855
--load 0 --count 1 = load 1 1fc956e092e2648b266fa0c45f2ff9a9ccadbeb2dd79cf749338a5abfae31e8b
--load 7 --count 3 = load 3 a6a19c675b89d8137ec038668266512e210bc6100992c5d72fbfa580a43f79be
--load 18446744073709551615 --count 5 = load 5 4b429574774aceb291e95dbce5b6de2f4cb8a8a6584319249581b6f3bc92c333
--workers 0 --load 7 --count 200 = load 200 383dd23f76fa08af079887206c1121b483e72c1821f977f34eed2e294cadc593
--workers 1 --load 7 --count 200 = load 200 383dd23f76fa08af079887206c1121b483e72c1821f977f34eed2e294cadc593
--workers 4 --load 7 --count 200 = load 200 383dd23f76fa08af079887206c1121b483e72c1821f977f34eed2e294cadc593
--workers 16 --load 7 --count 200 = load 200 383dd23f76fa08af079887206c1121b483e72c1821f977f34eed2e294cadc593
--workers 0 --load 7 = load 1000 66ebe6e6e38c7369b5b4f5d7c6c30fb54bcd5f8cd23d2e5ee1bd52dacb8d85c0
--workers 1 --load 7 = load 1000 66ebe6e6e38c7369b5b4f5d7c6c30fb54bcd5f8cd23d2e5ee1bd52dacb8d85c0
--workers 8 --load 7 = load 1000 66ebe6e6e38c7369b5b4f5d7c6c30fb54bcd5f8cd23d2e5ee1bd52dacb8d85c0
";

// The words of this row have its line, whatever the source holds.
fn expect_load<R: Abort + Threads + Wait + Sync>(rt: &R, alloc: Global, row: &'static str) {
    let (words, line) = cut(rt, row, " = ");
    let text = joined(rt, alloc, &[line, "\n"]);
    expect_line(rt, alloc, words, "frob\n", 0, text.as_str());
}

#[test]
fn loads_have_their_line(rt: HostRuntime) {
    for row in LOADS.lines() {
        expect_load(&rt, rt.alloc(), row);
    }
}

#[test]
fn a_failed_write_leaves_a_front_of_the_line(rt: HostRuntime) {
    let words = "--workers 1 --load 7 --count 0";
    expect_slow(
        &rt,
        rt.alloc(),
        words,
        "",
        (1, 3),
        Fault::Write(2),
        4,
        "load 0",
    );
}
