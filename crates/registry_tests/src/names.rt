//! Names, as they are read, printed and refused.

ghost use Rattle.alg_names.specs.Name.{IsWord};

use crate::given::{bytes_of, named};
use alg_names::{Name, NameErr, parse_name, print_name, reread};
use kc_base::Bytes;
use std::alloc::Global;
use std::process::Abort;

fn refusal(alloc: Global, text: &[u8]) -> Option<NameErr> {
    parse_name(alloc, text).err()
}

/// Texts, and what they are refused for: what is no name with how many bytes begin one, what passes the limits of depth
/// and width, and what just doesn't.
const TEXTS: [(&[u8], Option<NameErr>); 20] = [
    (b"", Some(NameErr::Bad(0))),
    (b"cbc(aes", Some(NameErr::Bad(7))),
    (b"cbc()", Some(NameErr::Bad(4))),
    (b"a)", Some(NameErr::Bad(1))),
    (b"(a)", Some(NameErr::Bad(0))),
    (b"aes,", Some(NameErr::Bad(3))),
    (b"a(b)c", Some(NameErr::Bad(4))),
    (b" aes", Some(NameErr::Bad(0))),
    (b"aes ", Some(NameErr::Bad(3))),
    (b"cbc( aes)", Some(NameErr::Bad(4))),
    (b"a\x80", Some(NameErr::Bad(1))),
    (b"a(b,c,d,e,f", Some(NameErr::Bad(11))),
    (b"a(a(a(a(a(a(a(a(a", Some(NameErr::Bad(17))),
    (b"a(a(a(a(a(a(a(a)))))))", None),
    (b"a(a(a(a(a(a(a(a(a))))))))", Some(NameErr::TooDeep)),
    (b"a(b,c,d,e)", None),
    (b"a(b,c,d,e,f)", Some(NameErr::TooMany)),
    (b"b(c,d,e,f,a(a(a(a(a(a(a(a)))))))", Some(NameErr::Bad(32))),
    (b"b(c,d,e,f,a(a(a(a(a(a(a(a))))))))", Some(NameErr::TooDeep)),
    (b"cbc(aes,aes)", None),
];

/// A text is refused for this, or for nothing.
fn is_refused(rt: &impl Abort, alloc: Global, text: &[u8], error: Option<NameErr>) {
    assert!(rt; refusal(alloc, text) == error, "{text:?}");
}

#[test]
fn refuses_what_is_no_name(rt: HostRuntime) {
    for (text, error) in TEXTS {
        is_refused(&rt, rt.alloc(), text, error);
    }
}

/// A text of so many equal bytes is refused for this, or for nothing.
fn are_refused(rt: &impl Abort, alloc: Global, byte: u8, count: usize, error: Option<NameErr>) {
    let text = vec![in alloc; byte; count].expect(rt, "memory");
    is_refused(rt, alloc, &text, error);
}

#[test]
fn refuses_long_texts(rt: HostRuntime) {
    are_refused(&rt, rt.alloc(), b'a', 127, None);
    are_refused(&rt, rt.alloc(), b'a', 128, Some(NameErr::TooLong));
    are_refused(&rt, rt.alloc(), b')', 128, Some(NameErr::TooLong));
}

const GCM: &str = "gcm_base(ctr(aes-generic),ghash-generic)";

/// What its front of so many bytes is refused for.
fn wanted_of_front(length: usize) -> Option<NameErr> {
    if (1..=8).contains(&length) || length == GCM.len() {
        None
    } else {
        Some(NameErr::Bad(length))
    }
}

#[test]
fn fronts_of_a_name(rt: HostRuntime) {
    for length in 0..=GCM.len() {
        is_refused(
            &rt,
            rt.alloc(),
            &GCM.as_bytes()[..length],
            wanted_of_front(length),
        );
    }
}

/// A name is printed so.
fn is_printed(rt: &impl Abort, alloc: Global, name: &Name, want: &str) {
    let text = print_name(alloc, name).expect(rt, "memory");
    assert!(rt; text.as_slice() == want.as_bytes());
}

/// A name that was read from what a name is printed as.
fn read_again(rt: &impl Abort, alloc: Global, name: &Name) -> Name {
    reread(alloc, name).expect(rt, "a name")
}

/// A name's copy.
fn copied(rt: &impl Abort, alloc: Global, name: &Name) -> Name {
    name.copy(alloc).expect(rt, "memory")
}

#[test]
fn prints_what_it_reads(rt: HostRuntime) {
    let name = copied(&rt, rt.alloc(), &named(&rt, rt.alloc(), GCM));
    is_printed(&rt, rt.alloc(), &read_again(&rt, rt.alloc(), &name), GCM);
}

#[test]
fn a_name_has_a_word_and_arguments(rt: HostRuntime) {
    let name = named(&rt, rt.alloc(), GCM);
    assert!(rt; name.word() == b"gcm_base".as_slice() && name.args().len() == 2);
}

#[test]
fn a_word_alone_is_a_name(rt: HostRuntime) {
    let aes = Name::alone(rt.alloc(), bytes_of(&rt, rt.alloc(), b"aes"));
    is_printed(&rt, rt.alloc(), &aes, "aes");
}

/// A name with another word.
fn with_word(rt: &impl Abort, name: Name, word: Bytes) -> Name
    requires { IsWord word }
{
    assert!(rt; word.len() <= name.word().len());
    name.with_word(word)
}

#[test]
fn a_name_takes_another_word(rt: HostRuntime) {
    let cbc = named(&rt, rt.alloc(), "cbc(aes,sha256)");
    let ctr = with_word(&rt, cbc, bytes_of(&rt, rt.alloc(), b"ctr"));
    is_printed(&rt, rt.alloc(), &ctr, "ctr(aes,sha256)");
}

/// An error is told so.
fn is_told(rt: &impl Abort, alloc: Global, error: NameErr, want: &str) {
    let text = format!(in alloc; "{error}").expect(rt, "memory");
    assert!(rt; text.as_str() == want);
}

#[test]
fn errors_are_told(rt: HostRuntime) {
    for (error, text) in [
        (NameErr::TooLong, "a name has at most 127 bytes"),
        (NameErr::Bad(7), "no name goes on behind the first 7 bytes"),
        (NameErr::TooDeep, "a name has at most 8 levels"),
        (NameErr::TooMany, "a template has at most 4 arguments"),
        (NameErr::Memory, "out of memory"),
    ] {
        is_told(&rt, rt.alloc(), error, text);
    }
}
