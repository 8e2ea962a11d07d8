//! A registry, as its callers see it.

ghost use Rattle.std.specs.Prelude.{◌≡◌, []};
ghost use Rattle.alg_registry.specs.declared.spec.Wrap.TheVariants.{Plain};

use crate::given::{bytes_of, new_registry, number_in, words_of};
use alg_registry::{Ended, Ids, Kind, Looked, RegErr, Registry, Spec, Wrap};
use kc_base::{Bytes, Errno};
use std::alloc::Global;
use std::process::Abort;

/// A driver of AES, or of another name.
fn cipher(alloc: Global, name: Bytes, driver: Bytes, priority: u32) -> Spec
    ensures alone { result.below ≡ [] }
    ensures plain { result.wrap ≡ Plain }
{
    Spec {
        name,
        driver,
        kind: Kind::Cipher,
        wrap: Wrap::Plain,
        priority,
        below: Ids::new(alloc),
    }
}

/// `cbc(aes-generic)` over the entry 0.
fn cbc(rt: &impl Abort, alloc: Global) -> Spec {
    Spec {
        name: bytes_of(rt, alloc, b"cbc(aes)"),
        driver: bytes_of(rt, alloc, b"cbc(aes-generic)"),
        kind: Kind::Skcipher,
        wrap: Wrap::Plain,
        priority: 100,
        below: Ids::copy_of(alloc, &[0]).expect(rt, "memory"),
    }
}

/// What comes of a call: a word, and a number that goes with it, or else 0.
#[derive(Clone, Copy, PartialEq, Eq)]
struct Said(&'static str, u64);

fn refused(rt: &impl Abort, error: RegErr) -> Said {
    match error {
        RegErr::Exist => Said("EEXIST", 0),
        RegErr::NFile => Said("ENFILE", 0),
        RegErr::NoEnt => Said("ENOENT", 0),
        RegErr::Again => Said("EAGAIN", 0),
        RegErr::Memory => panic!(rt; "memory"),
    }
}

/// Another driver is enlisted.
fn enlist(
    rt: &impl Abort,
    registry: &mut Registry,
    alloc: Global,
    (name, driver): (&str, &[u8]),
    priority: u32,
) -> Said {
    let name = bytes_of(rt, alloc, name.as_bytes());
    let driver = bytes_of(rt, alloc, driver);
    match registry.enlist(0, cipher(alloc, name, driver, priority)) {
        Ok(id) => Said("made", id),
        Err(error) => refused(rt, error),
    }
}

fn look(rt: &impl Abort, registry: &mut Registry, text: &str) -> Looked {
    registry
        .look(0, text.as_bytes(), false)
        .expect(rt, "memory")
}

fn said_of_look(looked: Looked) -> Said {
    match looked {
        Looked::Found(id) => Said("found", id),
        Looked::Pending(larval) => Said("pending", larval),
        Looked::Began(larval) => Said("began", larval),
        Looked::Absent => Said("absent", 0),
    }
}

/// The larval that waits longest is built as `cbc(aes-generic)`.
fn build_next(rt: &impl Abort, registry: &mut Registry, alloc: Global) -> Ended {
    let spec = cbc(rt, alloc);
    match registry.claim(0, None).expect(rt, "memory") {
        Some(claimed) => registry.end(0, claimed.larval, Ok(spec)),
        None => panic!(rt; "no larval"),
    }
}

fn said_of_end(rt: &impl Abort, ended: Ended) -> Said {
    match ended {
        Ended::Built(id) => Said("built", id),
        Ended::Joined(id) => Said("joined", id),
        Ended::Failed(errno) => Said(errno.name(), 0),
        Ended::NoMemory => panic!(rt; "memory"),
    }
}

/// Looks the text up, and builds `cbc(aes-generic)` where a larval of it began.
fn build(rt: &impl Abort, registry: &mut Registry, alloc: Global, text: &str) -> Said {
    match look(rt, registry, text) {
        Looked::Found(id) => Said("found", id),
        _ => said_of_end(rt, build_next(rt, registry, alloc)),
    }
}

fn get(rt: &impl Abort, registry: &mut Registry, id: u64) -> Said {
    match registry.take_ref(0, id) {
        Ok(()) => Said("ok", 0),
        Err(error) => refused(rt, error),
    }
}

fn unlist(rt: &impl Abort, registry: &mut Registry, driver: &str) -> Said {
    match registry.unlist(0, driver.as_bytes()) {
        Ok(()) => Said("ok", 0),
        Err(error) => refused(rt, error),
    }
}

fn refs(rt: &impl Abort, registry: &mut Registry, driver: &str) -> Said {
    match registry.refs(0, driver.as_bytes()) {
        Ok(refs) if refs.listed => Said("listed", refs.count),
        Ok(refs) => Said("unlisted", refs.count),
        Err(error) => refused(rt, error),
    }
}

/// A further driver of AES is enlisted, by its name and its priority.
fn enlist_aes(rt: &impl Abort, registry: &mut Registry, alloc: Global, text: &str) -> Said {
    let (driver, priority) = text.split_once(' ').expect(rt, "a driver and a priority");
    let priority = number_in(rt, priority);
    enlist(rt, registry, alloc, ("aes", driver.as_bytes()), priority)
}

/// What comes of a call of caller 0.
fn come_of(
    rt: &impl Abort,
    registry: &mut Registry,
    alloc: Global,
    call: &str,
    text: &str,
) -> Said {
    match call {
        "enlist" => enlist_aes(rt, registry, alloc, text),
        "look" => said_of_look(look(rt, registry, text)),
        "build" => build(rt, registry, alloc, text),
        "get" => get(rt, registry, u64::from(number_in(rt, text))),
        "unlist" => unlist(rt, registry, text),
        "refs" => refs(rt, registry, text),
        _ => panic!(rt; "{call}"),
    }
}

/// In a row stand a call, what it is about, and what comes of it. Another text of the same name begins a larval of its
/// own, which comes to the same instance. An instance over what is unlisted isn't found any more, and no other is built
/// over it. Of equal priorities the newest is found.
const CALLS: &str = "\
build|cbc(aes)|built|3
build|cbc( aes)|joined|3
look|cbc( aes)|found|3
get|3|ok|0
unlist|aes-generic|ok|0
refs|aes-generic|unlisted|1
get|3|EAGAIN|0
build|cbc(aes)|EAGAIN|0
unlist|aes-generic|ENOENT|0
enlist|lanes 200|made|4
look|aes|found|4
enlist|table 200|made|5
look|aes|found|5
enlist|slow 50|made|6
look|aes|found|5
look|slow|found|6
enlist|slow 50|EEXIST|0
look|des|absent|0
";

/// A row holds in its turn.
fn row_holds(rt: &impl Abort, registry: &mut Registry, alloc: Global, row: &'static str) {
    let words = words_of(rt, alloc, row, '|');
    let [call, text, word, number] = words.as_slice() else {
        panic!(rt; "{row}")
    };
    let Said(found, of) = come_of(rt, registry, alloc, call, text);
    assert!(rt;
        found == *word && of == u64::from(number_in(rt, number)),
        "{row}"
    );
}

#[test]
fn calls_are_answered_in_turn(rt: HostRuntime) {
    let mut registry = new_registry(&rt, rt.alloc());
    for row in CALLS.lines() {
        row_holds(&rt, &mut registry, rt.alloc(), row);
    }
}

/// An entry under this driver comes to this.
fn is_answered(rt: &impl Abort, registry: &mut Registry, alloc: Global, driver: &[u8], want: Said) {
    assert!(rt; enlist(rt, registry, alloc, ("x", driver), 1) == want);
}

#[test]
fn entries_are_held_up_to_4096(rt: HostRuntime) {
    let mut registry = new_registry(&rt, rt.alloc());
    for number in 3..4096u64 {
        let want = Said("made", number);
        is_answered(&rt, &mut registry, rt.alloc(), &number.to_be_bytes(), want);
    }
    is_answered(&rt, &mut registry, rt.alloc(), b"more", Said("ENFILE", 0));
    is_answered(
        &rt,
        &mut registry,
        rt.alloc(),
        b"aes-generic",
        Said("EEXIST", 0),
    );
}

#[test]
fn entries_are_listed(rt: HostRuntime) {
    let mut registry = new_registry(&rt, rt.alloc());
    let listing = registry.list(0).expect(&rt, "memory");
    assert!(rt; listing.rows().len() == 3);
}

#[test]
fn an_entry_has_its_spec(rt: HostRuntime) {
    let registry = new_registry(&rt, rt.alloc());
    assert!(rt; registry.spec(2).is_some());
    assert!(rt; registry.origin(2).expect(&rt, "memory").is_some());
}

#[test]
fn a_larval_that_is_claimed_has_not_ended(rt: HostRuntime) {
    let mut registry = new_registry(&rt, rt.alloc());
    registry.look(0, b"cbc(aes)", false).expect(&rt, "memory");
    let claimed = registry.claim(1, Some(0)).expect(&rt, "memory");
    let ended = registry.waited(0, 0).expect(&rt, "memory");
    assert!(rt; claimed.is_some() && ended.is_none());
    assert!(rt; registry.history().entries().len() == 2);
}

#[test]
fn a_failure_is_waited_for(rt: HostRuntime) {
    let mut registry = new_registry(&rt, rt.alloc());
    registry.look(0, b"cbc(des)", false).expect(&rt, "memory");
    let Some(claimed) = registry.claim(1, Some(0)).expect(&rt, "memory") else {
        panic!(rt; "no larval")
    };
    let failed = Ended::Failed(Errno::ENOENT);
    let ended = registry.end(1, claimed.larval, Err(failed));
    let waited = registry.waited(0, 0).expect(&rt, "memory");
    assert!(rt; ended == failed && waited == Some(failed));
    assert!(rt; registry.history().entries().len() == 4);
}

#[test]
fn a_reference_is_given_back(rt: HostRuntime) {
    let mut registry = new_registry(&rt, rt.alloc());
    registry.take_ref(0, 0).expect(&rt, "an entry");
    registry.put_ref(0, 0);
    assert!(rt; refs(&rt, &mut registry, "aes-generic") == Said("listed", 0));
    assert!(rt; registry.history().entries().len() == 3);
}
