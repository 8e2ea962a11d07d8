//! Answers with the greatest numbers, and their text.

use kc_base::Errno;
use reply_text::{Answer, Origin, Reply};
use std::alloc::Global;
use std::process::Abort;

/// Whether an answer has this line.
pub(crate) fn is_put(rt: &impl Abort, alloc: Global, answer: &Answer, line: &str) -> bool {
    let mut reply = Reply::new(alloc);
    reply.put(answer).expect(rt, "memory");
    reply.as_slice().strip_suffix(b"\n") == Some(line.as_bytes())
}

/// The lines of the answers below.
const PLAIN: &str = "\
4294967295 ENAMETOOLONG
4294967295.4294967295 started
1 drained 18446744073709551615
5 refs 18446744073709551615 unlisted
";

/// An answer of great numbers, by its place among those lines.
fn plain_answer(place: usize) -> Answer {
    match place {
        0 => Answer::Refused {
            line: u32::MAX,
            errno: Errno::ENAMETOOLONG,
        },
        1 => Answer::Started {
            of: Origin {
                client: u32::MAX,
                line: u32::MAX,
            },
        },
        2 => Answer::Drained {
            line: 1,
            count: u64::MAX,
        },
        _ => Answer::Refs {
            line: 5,
            count: u64::MAX,
            listed: false,
        },
    }
}

#[test]
fn answers_of_great_numbers_have_their_text(rt: HostRuntime) {
    for (place, line) in PLAIN.lines().enumerate() {
        assert!(rt;
            is_put(&rt, rt.alloc(), &plain_answer(place), line),
            "{line}"
        );
    }
}

#[test]
fn texts_stand_under_their_headings(rt: HostRuntime) {
    let mut reply = Reply::new(rt.alloc());
    reply.put_heading(8).expect(&rt, "memory");
    reply.put_text(b"1 ok\n").expect(&rt, "memory");
    assert!(rt; reply.as_slice() == b"client 8\n1 ok\n".as_slice());
}
