//! A registry that callers share.

ghost use Rattle.std.specs.Prelude.{◌≡◌, ◌+◌, ◌<◌, ◌≤◌, ◌^◌, [], true, length, IsFalse, IsTrue};
ghost use Rattle.alg_names.specs.Name.{spelling};
ghost use Rattle.alg_registry.specs.Legal.{is_worker};
ghost use Rattle.alg_registry.specs.Rows.{texts};
ghost use Rattle.templates.specs.Nesting.{is_nested_well};
ghost use Rattle.templates.specs.Table.{table};
ghost use Rattle.turn_lock.specs.Passes.{knows};
ghost use Rattle.turn_lock.specs.Turns.{fresh_pass};
ghost use Rattle.shared_registry.specs.Builds.{WasAnswered};
ghost use Rattle.shared_registry.specs.Learned.{IsLearned};
ghost use Rattle.shared_registry.specs.Passes.{IsSound, IsPassOn};
ghost use Rattle.shared_registry.specs.Within.{Begins};

use crate::builds::{build, given_of, look_for};
use crate::{RegPass, SharedRegistry, build_one, resolve, settle};
use alg_names::{Name, parse_name};
use alg_registry::{EndAnswer, Ended, Ids, Kind, Looked, RegEntry, RegErr, RegLog, Spec, Wrap};
use kc_base::{Bytes, Errno};
use std::alloc::Global;
use std::process::Abort;
use std::sync::Wait;
use std::thread::{Threads, join, yield_now};
use templates::{BuildErr, nesting};

/// How often a thread asks at most.
const TURNS: u32 = 10_000_000;

/// A name that may be looked for.
fn nested_name(rt: &impl Abort, alloc: Global, text: &str) -> Name
    ensures { is_nested_well result ≡ true }
{
    let name = parse_name(alloc, text.as_bytes()).expect(rt, "a name");
    nesting(&name).expect(rt, "a nesting that is allowed");
    name
}

/// A registry and its first pass.
fn new_registry(rt: &impl Abort, alloc: Global) -> (SharedRegistry, RegPass)
    ensures lock { IsPassOn result.0 result.1 }
    ensures first { knows result.1 ≡ fresh_pass }
{
    SharedRegistry::new(alloc).expect(rt, "memory")
}

/// A registry, its first pass, and another one of this number.
fn with_two(rt: &impl Abort, alloc: Global, number: u32) -> (SharedRegistry, RegPass, RegPass)
    requires { (1 ≤ number) × (number + 1 < 2 ^ 32) }
    ensures lock { IsPassOn result.0 result.1 × IsPassOn result.0 result.2 }
    ensures first { (knows result.1).number ≡ 0 }
    ensures second { (knows result.2).number ≡ number }
{
    let (registry, pass) = new_registry(rt, alloc);
    let (first, second) = registry.split(pass, number);
    (registry, first, second)
}

/// The history, and no registry any more.
fn history<R: Wait>(rt: &R, registry: SharedRegistry, pass: RegPass) -> RegLog
    requires { IsPassOn registry pass }
{
    registry.finish_all(rt, pass)
}

/// The history where there are two passes.
fn history_of_two<R: Wait>(
    rt: &R,
    registry: SharedRegistry,
    first: RegPass,
    second: RegPass,
) -> RegLog
    requires { IsPassOn registry first × IsPassOn registry second }
{
    let pass = registry.join(first, second);
    history(rt, registry, pass)
}

/// Builds larvals as they come, this many, and asks so often at most: how many it left.
fn build_some<R: Wait>(
    rt: &R,
    alloc: Global,
    registry: &SharedRegistry,
    pass: RegPass,
    count: u32,
    turns: u32,
) -> (RegPass, u32)
    requires { IsPassOn registry.now pass }
    ensures { IsPassOn registry.now result.0 }
{
    let mut mine = pass;
    let mut left = count;
    for _ in 0..turns {
        if left == 0 {
            return (mine, left);
        }
        let (back, built) = build_one(rt, alloc, registry, mine);
        mine = back;
        if built == Ok(true) {
            left -= 1;
        }
        yield_now();
    }
    (mine, left)
}

/// Asks how the larval ended until it has.
fn ask_until<R: Wait>(
    rt: &R,
    registry: &SharedRegistry,
    pass: RegPass,
    larval: u64,
) -> (RegPass, Option<Ended>)
    requires lock { IsPassOn registry.now pass }
    requires sound { IsSound (knows pass) }
    requires began { larval < length (texts (knows pass).seen) }
    ensures { IsPassOn registry.now result.0 }
{
    let mut mine = pass;
    for _ in 0..TURNS {
        let (back, ended) = registry.waited(rt, mine, larval);
        match ended {
            Ok(answer) => match answer {
                Some(ended) => return (back, Some(ended)),
                None => mine = back,
            },
            Err(_) => return (back, None),
        }
        yield_now();
    }
    (mine, None)
}

/// Looks for the name, claims nothing, and asks until its larval has ended.
fn look_and_wait<R: Wait>(
    rt: &R,
    alloc: Global,
    registry: &SharedRegistry,
    pass: RegPass,
    name: &Name,
) -> (RegPass, Option<Ended>)
    requires lock { IsPassOn registry.now pass }
    requires outsider { IsFalse (is_worker (knows pass).number) }
    requires nested { is_nested_well name.now ≡ true }
    ensures { IsPassOn registry.now result.0 }
{
    let (pass, looked) = look_for(rt, alloc, registry, pass, name, false);
    let answer = match looked {
        Ok(answer) => answer,
        Err(_) => return (pass, None),
    };
    match answer {
        Looked::Began(larval) => ask_until(rt, registry, pass, larval),
        _ => (pass, None),
    }
}

/// Looks for both names: what each look answered.
fn look_both<R: Abort + Wait>(
    rt: &R,
    alloc: Global,
    registry: &SharedRegistry,
    pass: RegPass,
    first: &Name,
    second: &Name,
) -> (RegPass, Looked, Looked)
    requires lock { IsPassOn registry.now pass }
    requires outsider { IsFalse (is_worker (knows pass).number) }
    requires nested { is_nested_well first.now ≡ true }
    requires nested_second { is_nested_well second.now ≡ true }
    ensures lock { IsPassOn registry.now result.0 }
    ensures sound { IsSound (knows result.0) }
    ensures answered { WasAnswered (knows result.0) (spelling first.now) result.1 }
    ensures answered_second { WasAnswered (knows result.0) (spelling second.now) result.2 }
{
    let (pass, one) = look_for(rt, alloc, registry, pass, first, false);
    let one = one.expect(rt, "memory");
    let (pass, two) = look_for(rt, alloc, registry, pass, second, false);
    let two = two.expect(rt, "memory");
    (pass, one, two)
}

/// Looks for both names, and then settles each: whether each came to an entry.
fn probe_both<R: Abort + Wait>(
    rt: &R,
    alloc: Global,
    registry: &SharedRegistry,
    pass: RegPass,
    first: &Name,
    second: &Name,
) -> (RegPass, bool)
    requires lock { IsPassOn registry.now pass }
    requires outsider { IsFalse (is_worker (knows pass).number) }
    requires nested { is_nested_well first.now ≡ true }
    requires nested_second { is_nested_well second.now ≡ true }
    ensures { IsPassOn registry.now result.0 }
{
    let (pass, one, two) = look_both(rt, alloc, registry, pass, first, second);
    let (pass, came) = settle(rt, alloc, registry, pass, first, one);
    let (pass, came_second) = settle(rt, alloc, registry, pass, second, two);
    (pass, came.is_ok() && came_second.is_ok())
}

/// What a caller does beside a worker.
#[derive(Clone, Copy)]
enum Part {
    /// Looks for a name, claims nothing, and asks how its larval ended.
    Wait(&'static str),
    /// Looks for both names, and then settles each.
    Settle(&'static str, &'static str),
}

/// What it came to.
#[derive(Clone, Copy, PartialEq, Eq)]
enum Came {
    Ended(Option<Ended>),
    Settled(bool),
}

fn play<R: Abort + Wait>(
    rt: &R,
    alloc: Global,
    registry: &SharedRegistry,
    pass: RegPass,
    part: Part,
) -> (RegPass, Came)
    requires lock { IsPassOn registry.now pass }
    requires outsider { IsFalse (is_worker (knows pass).number) }
    ensures { IsPassOn registry.now result.0 }
{
    match part {
        Part::Wait(text) => {
            let name = nested_name(rt, alloc, text);
            let (pass, ended) = look_and_wait(rt, alloc, registry, pass, &name);
            (pass, Came::Ended(ended))
        }
        Part::Settle(first, second) => {
            let first = nested_name(rt, alloc, first);
            let second = nested_name(rt, alloc, second);
            let (pass, is_settled) = probe_both(rt, alloc, registry, pass, &first, &second);
            (pass, Came::Settled(is_settled))
        }
    }
}

/// A worker builds so many, and asks so often at most, beside a caller: what the caller came to, and how many the
/// worker left unbuilt.
fn beside_worker<R: Abort + Threads + Wait + Sync>(
    rt: &R,
    alloc: Global,
    count: u32,
    turns: u32,
    part: Part,
) -> (Came, u32, RegLog) {
    let (registry, main, worker) = with_two(rt, alloc, 1);
    let shared = &registry;
    let (a, b) = join(
        rt,
        move || build_some(rt, alloc, shared, worker, count, turns),
        move || play(rt, alloc, shared, main, part),
    );
    let (worker, left) = a;
    let (main, came) = b;
    (came, left, history_of_two(rt, registry, main, worker))
}

/// Two callers look for one name at once: what each came to.
fn resolved_by_two<R: Abort + Threads + Wait + Sync>(
    rt: &R,
    alloc: Global,
    text: &str,
) -> (Result<u64, BuildErr>, Result<u64, BuildErr>, RegLog) {
    let name = nested_name(rt, alloc, text);
    let (registry, first, second) = with_two(rt, alloc, 17);
    let shared = &registry;
    let asked = &name;
    let (a, b) = join(
        rt,
        move || resolve(rt, alloc, shared, first, asked, false),
        move || resolve(rt, alloc, shared, second, asked, false),
    );
    let (first, one) = a;
    let (second, two) = b;
    (one, two, history_of_two(rt, registry, first, second))
}

fn is_built(entry: &RegEntry, driver: &str) -> bool {
    match entry {
        RegEntry::End { answer, .. } => match answer {
            EndAnswer::Built(_, spec) => spec.driver.as_slice() == driver.as_bytes(),
            _ => false,
        },
        _ => false,
    }
}

/// How often the history has an instance of the driver built.
fn count_built(log: &RegLog, driver: &str) -> u32 {
    let mut count = 0u32;
    for entry in log.entries() {
        if is_built(entry, driver) {
            count = count.saturating_add(1);
        }
    }
    count
}

#[test]
fn a_worker_builds_while_the_caller_waits(rt: HostRuntime) {
    let (came, left, log) = beside_worker(&rt, rt.alloc(), 1, TURNS, Part::Wait("cbc(aes)"));
    assert!(rt; came == Came::Ended(Some(Ended::Built(3))) && left == 0);
    assert!(rt; count_built(&log, "cbc(aes-generic)") == 1);
}

#[test]
fn each_instance_is_built_once(rt: HostRuntime) {
    let part = Part::Settle("pcrypt(gcm(aes))", "cryptd(gcm(aes))");
    for _ in 0..20 {
        let (came, _, log) = beside_worker(&rt, rt.alloc(), 2, 1000, part);
        assert!(rt; came == Came::Settled(true));
        assert!(rt; count_built(&log, "gcm_base(ctr(aes-generic),ghash-generic)") == 1);
    }
}

#[test]
fn two_callers_of_one_name_build_once(rt: HostRuntime) {
    for _ in 0..20 {
        let (one, two, log) = resolved_by_two(&rt, rt.alloc(), "cbc(aes)");
        assert!(rt; one == Ok(3) && two == Ok(3));
        assert!(rt; count_built(&log, "cbc(aes-generic)") == 1);
    }
}

/// A caller with no other beside it comes to this, which takes so many entries.
fn is_resolved<R: Abort + Wait>(
    rt: &R,
    alloc: Global,
    text: &str,
    want: Result<u64, BuildErr>,
    entries: usize,
) {
    let name = nested_name(rt, alloc, text);
    let (registry, pass) = new_registry(rt, alloc);
    let (pass, came) = resolve(rt, alloc, &registry, pass, &name, false);
    let log = history(rt, registry, pass);
    assert!(rt; came == want && log.entries().len() == entries, "{text}");
}

#[test]
fn a_caller_builds_alone(rt: HostRuntime) {
    let missing = Err(BuildErr::Fault(Errno::ENOENT));
    for (text, want, entries) in [("gcm(aes)", Ok(4), 8), ("cbc(des)", missing, 4)] {
        is_resolved(&rt, rt.alloc(), text, want, entries);
    }
}

/// Looks for a name, whose larval is the first.
fn begin<R: Abort + Wait>(
    rt: &R,
    alloc: Global,
    registry: &SharedRegistry,
    pass: RegPass,
    text: &str,
) -> RegPass
    requires lock { IsPassOn registry.now pass }
    requires outsider { IsFalse (is_worker (knows pass).number) }
    ensures { IsPassOn registry.now result }
{
    let name = nested_name(rt, alloc, text);
    let (pass, looked) = look_for(rt, alloc, registry, pass, &name, false);
    assert!(rt; looked == Ok(Looked::Began(0)), "{text}");
    pass
}

/// Builds what was asked for, if there is anything, as this says.
fn build_next<R: Abort + Wait>(
    rt: &R,
    alloc: Global,
    registry: &SharedRegistry,
    pass: RegPass,
    want: bool,
) -> RegPass
    requires { IsPassOn registry.now pass }
    ensures { IsPassOn registry.now result }
{
    let (pass, built) = build_one(rt, alloc, registry, pass);
    assert!(rt; built == Ok(want));
    pass
}

#[test]
fn a_split_pass_builds_what_another_asked_for(rt: HostRuntime) {
    let (registry, main, worker) = with_two(&rt, rt.alloc(), 1);
    let worker = build_next(&rt, rt.alloc(), &registry, worker, false);
    let main = begin(&rt, rt.alloc(), &registry, main, "cbc(aes)");
    let worker = build_next(&rt, rt.alloc(), &registry, worker, true);
    let worker = build_next(&rt, rt.alloc(), &registry, worker, false);
    let log = history_of_two(&rt, registry, main, worker);
    assert!(rt; log.entries().len() == 4);
}

fn bytes_of(rt: &impl Abort, alloc: Global, text: &[u8]) -> Bytes
    ensures { result ≡ text.now }
{
    Bytes::copy_of(alloc, text).expect(rt, "memory")
}

/// A further driver of AES.
fn table_driver(rt: &impl Abort, alloc: Global) -> Spec
    ensures alone { result.below ≡ [] }
    ensures plain { result.wrap ≡ Wrap.Plain }
    ensures driver { IsTrue (table.is_driver result) }
{
    Spec {
        name: bytes_of(rt, alloc, b"aes"),
        driver: bytes_of(rt, alloc, b"aes-table"),
        kind: Kind::Cipher,
        wrap: Wrap::Plain,
        priority: 150,
        below: Ids::new(alloc),
    }
}

fn enlist<R: Abort + Wait>(
    rt: &R,
    alloc: Global,
    registry: &SharedRegistry,
    pass: RegPass,
) -> Result<u64, RegErr>
    requires lock { IsPassOn registry.now pass }
    requires outsider { IsFalse (is_worker (knows pass).number) }
{
    let (_, enlisted) = registry.enlist(rt, pass, table_driver(rt, alloc));
    enlisted
}

/// Takes a reference to the entry, counts those of its driver and gives it back: the count.
fn hold_and_count<R: Abort + Wait>(
    rt: &R,
    registry: &SharedRegistry,
    pass: RegPass,
    id: u64,
    driver: &str,
) -> u64
    requires lock { IsPassOn registry.now pass }
    requires outsider { IsFalse (is_worker (knows pass).number) }
    requires fresh { (knows pass).made ≡ [] }
{
    let (pass, got) = registry.take_ref(rt, pass, id);
    got.expect(rt, "a listed entry");
    let (pass, refs) = registry.refs(rt, pass, driver.as_bytes());
    let _ = registry.put_ref(rt, pass, id);
    refs.expect(rt, "memory").count
}

fn take<R: Wait>(rt: &R, registry: &SharedRegistry, pass: RegPass, id: u64) -> Result<(), RegErr>
    requires lock { IsPassOn registry.now pass }
    requires outsider { IsFalse (is_worker (knows pass).number) }
{
    let (_, got) = registry.take_ref(rt, pass, id);
    got
}

/// Lists the entries: how many they are, and whether none is held.
fn list<R: Abort + Wait>(rt: &R, registry: &SharedRegistry, pass: RegPass) -> (usize, bool)
    requires lock { IsPassOn registry.now pass }
    requires outsider { IsFalse (is_worker (knows pass).number) }
{
    let (_, listing) = registry.list(rt, pass);
    let listing = listing.expect(rt, "memory");
    let rows = listing.rows();
    (rows.len(), rows.iter().all(|row| row.refs == 0))
}

/// What a caller asks for.
#[derive(Clone, Copy)]
enum Call {
    Hold(u64, &'static str),
    Enlist,
    Take(u64),
    List,
}

/// What it is answered.
#[derive(Clone, Copy, PartialEq, Eq)]
enum Said {
    Held(u64),
    Enlisted(Result<u64, RegErr>),
    Taken(Result<(), RegErr>),
    Listed(usize, bool),
}

fn answer_to<R: Abort + Wait>(
    rt: &R,
    alloc: Global,
    registry: &SharedRegistry,
    pass: RegPass,
    call: Call,
) -> Said
    requires lock { IsPassOn registry.now pass }
    requires outsider { IsFalse (is_worker (knows pass).number) }
    requires fresh { (knows pass).made ≡ [] }
{
    match call {
        Call::Hold(id, driver) => Said::Held(hold_and_count(rt, registry, pass, id, driver)),
        Call::Enlist => Said::Enlisted(enlist(rt, alloc, registry, pass)),
        Call::Take(id) => Said::Taken(take(rt, registry, pass, id)),
        Call::List => {
            let (count, is_free) = list(rt, registry, pass);
            Said::Listed(count, is_free)
        }
    }
}

/// Another caller, of this number, is answered this.
fn expect_said<R: Abort + Wait>(
    rt: &R,
    alloc: Global,
    registry: &SharedRegistry,
    pass: RegPass,
    number: u32,
    call: Call,
    want: Said,
) -> RegPass
    requires lock { IsPassOn registry.now pass }
    requires number { ((knows pass).next ≤ number) × (number + 1 < 2 ^ 32) }
    requires outsider { IsFalse (is_worker number) }
    ensures lock { IsPassOn registry.now result }
    ensures next { (knows result).next ≡ number + 1 }
{
    let (pass, caller) = registry.split(pass, number);
    assert!(rt;
        answer_to(rt, alloc, registry, caller, call) == want,
        "{number}"
    );
    pass
}

#[test]
fn callers_enlist_and_hold_through_the_lock(rt: HostRuntime) {
    let alloc = rt.alloc();
    let (registry, pass) = new_registry(&rt, alloc);
    let held = Call::Hold(0, "aes-generic");
    let pass = expect_said(&rt, alloc, &registry, pass, 17, held, Said::Held(1));
    let enlisted = Said::Enlisted(Ok(3));
    let pass = expect_said(&rt, alloc, &registry, pass, 18, Call::Enlist, enlisted);
    let again = Said::Enlisted(Err(RegErr::Exist));
    let pass = expect_said(&rt, alloc, &registry, pass, 19, Call::Enlist, again);
    let missing = Said::Taken(Err(RegErr::Again));
    let pass = expect_said(&rt, alloc, &registry, pass, 20, Call::Take(4), missing);
    let listed = Said::Listed(4, true);
    let pass = expect_said(&rt, alloc, &registry, pass, 21, Call::List, listed);
    let log = history(&rt, registry, pass);
    assert!(rt; log.entries().len() == 7);
}

/// Looks for the name and claims its larval, which nobody began before.
fn claim_new<R: Abort + Wait>(
    rt: &R,
    alloc: Global,
    registry: &SharedRegistry,
    pass: RegPass,
    name: &Name,
) -> (RegPass, u64)
    requires lock { IsPassOn registry.now pass }
    requires outsider { IsFalse (is_worker (knows pass).number) }
    requires nested { is_nested_well name.now ≡ true }
    ensures lock { IsPassOn registry.now result.0 }
    ensures known { IsLearned name.now }
    ensures begins { Begins result.1 name.now (knows result.0) }
{
    let (pass, looked) = look_for(rt, alloc, registry, pass, name, false);
    let looked = looked.expect(rt, "memory");
    let Looked::Began(larval) = looked else {
        panic!(rt; "no larval began")
    };
    let (pass, claimed) = registry.claim(rt, pass, Some(larval));
    let claimed = claimed.expect(rt, "memory");
    claimed.expect(rt, "a larval that nobody claimed");
    (pass, larval)
}

fn unlist<R: Abort + Wait>(rt: &R, registry: &SharedRegistry, pass: RegPass, driver: &str)
    requires lock { IsPassOn registry.now pass }
    requires outsider { IsFalse (is_worker (knows pass).number) }
{
    let (_, unlisted) = registry.unlist(rt, pass, driver.as_bytes());
    assert!(rt; unlisted == Ok(()), "{driver}");
}

/// How the larval of `cbc(aes)` ends where another caller unlists the driver after the claimer's look for `aes`.
fn ended_after_unlisting<R: Abort + Wait>(rt: &R, alloc: Global, driver: &str) -> Ended {
    let name = nested_name(rt, alloc, "cbc(aes)");
    let (registry, pass, other) = with_two(rt, alloc, 17);
    let (pass, larval) = claim_new(rt, alloc, &registry, pass, &name);
    let (pass, built) = build(rt, alloc, &registry, pass, &name, larval);
    unlist(rt, &registry, other, driver);
    let (_, ended) = registry.end(rt, pass, larval, given_of(built));
    ended
}

#[test]
fn an_unlisted_child_ends_with_eagain(rt: HostRuntime) {
    let again = Ended::Failed(Errno::EAGAIN);
    for (driver, want) in [("aes-generic", again), ("sha256-generic", Ended::Built(3))] {
        assert!(rt;
            ended_after_unlisting(&rt, rt.alloc(), driver) == want,
            "{driver}"
        );
    }
}
