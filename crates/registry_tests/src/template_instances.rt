//! What templates ask for and make, and how names are resolved.

ghost use Rattle.alg_registry.specs.Made.{Made};
ghost use Rattle.templates.specs.Table.{table};
ghost use Rattle.templates.specs.LookResults.{NonePending};

use crate::given::{bytes_of, kind_in, named, new_registry, number_in, words_of};
use alg_names::{Name, print_name};
use alg_registry::{Ids, Kind, Registry, Spec, Wrap};
use kc_base::Errno;
use std::alloc::Global;
use std::process::Abort;
use templates::{
    AesForm, BuildErr, GhashForm, Plan, children, derive, nesting, plan_of, resolve_outright,
};

const KINDS: [Kind; 6] = [
    Kind::Cipher,
    Kind::Hash,
    Kind::Ghash,
    Kind::Skcipher,
    Kind::Aead,
    Kind::Mac,
];

/// An entry to build over, whose requests are run at once.
fn entry(
    rt: &impl Abort,
    alloc: Global,
    (name, driver): (&str, &str),
    kind: Kind,
    priority: u32,
) -> Spec {
    Spec {
        name: bytes_of(rt, alloc, name.as_bytes()),
        driver: bytes_of(rt, alloc, driver.as_bytes()),
        kind,
        wrap: Wrap::Plain,
        priority,
        below: Ids::new(alloc),
    }
}

/// What the name's template makes of the entries.
fn made(
    rt: &impl Abort,
    alloc: Global,
    text: &str,
    below: &[(u64, Spec)],
) -> Result<Spec, BuildErr> {
    derive(alloc, &named(rt, alloc, text), below)
}

/// What the name's template makes of one entry.
fn made_of(rt: &impl Abort, alloc: Global, text: &str, below: Spec) -> Result<Spec, BuildErr> {
    made(rt, alloc, text, &[(7, below)])
}

/// What it makes of two.
fn made_of_two(
    rt: &impl Abort,
    alloc: Global,
    text: &str,
    first: Spec,
    second: Spec,
) -> Result<Spec, BuildErr> {
    made(rt, alloc, text, &[(7, first), (8, second)])
}

/// Whether an error is the one of that name.
fn is_error(error: BuildErr, word: &str) -> bool {
    match error {
        BuildErr::Fault(errno) => errno.name() == word,
        BuildErr::Memory => false,
    }
}

/// Whether this is an instance of the word's kind, or the error of that name.
fn is_made(made: Result<Spec, BuildErr>, word: &str) -> bool {
    match made {
        Ok(spec) => kind_in(word) == Some(spec.kind),
        Err(error) => is_error(error, word),
    }
}

/// In a row stand a name, the name of an entry and how its requests are run, and what comes of it for each kind of the
/// entry: a kind, or an error.
const OVER_ONE: &str = "\
cbc(x) x plain skcipher EINVAL EINVAL EINVAL EINVAL EINVAL
ctr(x) x plain skcipher EINVAL EINVAL EINVAL EINVAL EINVAL
rfc3686(x) ctr(x) plain skcipher skcipher skcipher skcipher skcipher skcipher
rfc3686(x) ctr plain EINVAL EINVAL EINVAL EINVAL EINVAL EINVAL
rfc4106(x) gcm(x) plain aead aead aead aead aead aead
rfc4106(x) gcm(x) cryptd EINVAL EINVAL EINVAL EINVAL EINVAL EINVAL
rfc4106(x) gcm_base(x) plain EINVAL EINVAL EINVAL EINVAL EINVAL EINVAL
hmac(x) x plain EINVAL mac EINVAL EINVAL EINVAL EINVAL
pcrypt(x) x plain EINVAL EINVAL EINVAL EINVAL aead EINVAL
cryptd(x) x plain EINVAL EINVAL EINVAL skcipher aead mac
cryptd(pcrypt(x)) x plain EINVAL EINVAL EINVAL EINVAL aead EINVAL
gcm(x) ctr(x) plain EINVAL EINVAL EINVAL EINVAL EINVAL EINVAL
xts(x) x plain skcipher EINVAL EINVAL EINVAL EINVAL EINVAL
ccm(x) x plain aead EINVAL EINVAL EINVAL EINVAL EINVAL
cmac(x) x plain mac EINVAL EINVAL EINVAL EINVAL EINVAL
lrw(x) x plain ENOENT ENOENT ENOENT ENOENT ENOENT ENOENT
";

fn wrap_in(word: &str) -> Option<Wrap> {
    match word {
        "plain" => Some(Wrap::Plain),
        "pcrypt" => Some(Wrap::Pcrypt),
        "cryptd" => Some(Wrap::Cryptd),
        _ => None,
    }
}

/// A name over an entry of this kind comes to what the word says.
fn is_over(
    rt: &impl Abort,
    alloc: Global,
    (text, name, wrap): (&str, &str, &str),
    kind: Kind,
    word: &str,
) -> bool {
    let mut below = entry(rt, alloc, (name, "x"), kind, 1);
    below.wrap = wrap_in(wrap).expect(rt, "a wrap");
    is_made(made_of(rt, alloc, text, below), word)
}

/// A row holds for each kind.
fn row_over_one(rt: &impl Abort, alloc: Global, row: &'static str) {
    let words = words_of(rt, alloc, row, ' ');
    let [text, name, wrap, wanted @ ..] = words.as_slice() else {
        panic!(rt; "{row}")
    };
    assert!(rt; wanted.len() == KINDS.len(), "{row}");
    for (kind, word) in KINDS.iter().zip(wanted) {
        assert!(rt;
            is_over(rt, alloc, (*text, *name, *wrap), *kind, word),
            "{row}"
        );
    }
}

#[test]
fn each_template_over_each_kind(rt: HostRuntime) {
    for row in OVER_ONE.lines() {
        row_over_one(&rt, rt.alloc(), row);
    }
}

/// In a row stand a name, the name of the first entry, and the kinds that the first and the second may have, if any.
const OVER_TWO: &str = "\
gcm(x) ctr(x) any ghash
gcm_base(x,y) ctr(x) any ghash
gcm(x) hmac(x) none none
authenc(x,y) hmac(x) mac skcipher
authenc(x,y) cmac(x) none none
authenc(x,y) hmac none none
";

/// Whether the word allows the kind.
fn is_allowed(word: &str, kind: Kind) -> bool {
    word == "any" || kind_in(word) == Some(kind)
}

/// A row holds for these kinds.
fn row_over_two(rt: &impl Abort, alloc: Global, row: &'static str, one: Kind, two: Kind) {
    let words = words_of(rt, alloc, row, ' ');
    let [text, name, firsts, seconds] = words.as_slice() else {
        panic!(rt; "{row}")
    };
    let first = entry(rt, alloc, (name, "x"), one, 1);
    let second = entry(rt, alloc, ("y", "y"), two, 1);
    let found = made_of_two(rt, alloc, text, first, second);
    let is_right = is_allowed(firsts, one) && is_allowed(seconds, two);
    assert!(rt;
        is_made(found, if is_right { "aead" } else { "EINVAL" }),
        "{row}"
    );
}

#[test]
fn each_template_over_two_kinds(rt: HostRuntime) {
    for row in OVER_TWO.lines() {
        for one in KINDS {
            for two in KINDS {
                row_over_two(&rt, rt.alloc(), row, one, two);
            }
        }
    }
}

/// Whether an instance has this name, this driver, this priority and these entries below it.
fn has(spec: &Spec, name: &str, (driver, priority): (&str, u32), below: &[u64]) -> bool {
    spec.name.as_slice() == name.as_bytes()
        && spec.driver.as_slice() == driver.as_bytes()
        && spec.priority == priority
        && spec.below.as_slice() == below
}

/// In a row stand a name, the kind, the name and the priority of an entry with the driver `d`, and the name, the driver
/// and the priority of what is made of it.
const INSTANCES: &str = "\
cbc(aes) cipher aes 100 cbc(aes) cbc(d) 100
rfc3686(z) skcipher ctr(aes) 100 rfc3686(ctr(aes)) rfc3686(d) 100
rfc4106(z) aead gcm(aes) 100 rfc4106(gcm(aes)) rfc4106(d) 100
hmac(z) hash sha256 100 hmac(sha256) hmac(d) 100
ccm(aes) cipher aes 100 ccm(aes) ccm(d) 100
cmac(z) cipher aes 100 cmac(aes) cmac(d) 100
pcrypt(z) aead gcm(aes) 100 gcm(aes) pcrypt(d) 200
pcrypt(z) aead a 4294967290 a pcrypt(d) 4294967295
cryptd(z) mac hmac(sha256) 100 hmac(sha256) cryptd(d) 150
cryptd(pcrypt(z)) aead gcm(aes) 100 gcm(aes) cryptd(pcrypt(d)) 250
cryptd(pcrypt(z)) aead a 4294967146 a cryptd(pcrypt(d)) 4294967295
";

/// A row holds.
fn instance_holds(rt: &impl Abort, alloc: Global, row: &'static str) {
    let words = words_of(rt, alloc, row, ' ');
    let [text, kind, below, priority, name, driver, raised] = words.as_slice() else {
        panic!(rt; "{row}")
    };
    let kind = kind_in(kind).expect(rt, "a kind");
    let below = entry(rt, alloc, (below, "d"), kind, number_in(rt, priority));
    let spec = made_of(rt, alloc, text, below).expect(rt, "an instance");
    assert!(rt;
        has(&spec, name, (*driver, number_in(rt, raised)), &[7]),
        "{row}"
    );
}

#[test]
fn instances_over_one(rt: HostRuntime) {
    for row in INSTANCES.lines() {
        instance_holds(&rt, rt.alloc(), row);
    }
}

/// What a name makes of GCM is run so.
fn is_run(rt: &impl Abort, alloc: Global, text: &str, wrap: Wrap) {
    let below = entry(rt, alloc, ("gcm(z)", "d"), Kind::Aead, 1);
    let spec = made_of(rt, alloc, text, below).expect(rt, "an instance");
    assert!(rt; spec.wrap == wrap, "{text}");
}

#[test]
fn how_requests_are_run(rt: HostRuntime) {
    is_run(&rt, rt.alloc(), "rfc4106(z)", Wrap::Plain);
    is_run(&rt, rt.alloc(), "pcrypt(z)", Wrap::Pcrypt);
    is_run(&rt, rt.alloc(), "cryptd(z)", Wrap::Cryptd);
    is_run(&rt, rt.alloc(), "cryptd(pcrypt(z))", Wrap::Cryptd);
}

/// A name comes to an instance over these two, with this driver and this priority.
fn is_over_two(
    rt: &impl Abort,
    alloc: Global,
    text: &str,
    (first, second): (Spec, Spec),
    made: (&str, u32),
) {
    let spec = made_of_two(rt, alloc, text, first, second).expect(rt, "an instance");
    assert!(rt; has(&spec, text, made, &[7, 8]));
}

#[test]
fn instances_over_two(rt: HostRuntime) {
    let ctr = entry(&rt, rt.alloc(), ("ctr(aes)", "ctr(d)"), Kind::Skcipher, 101);
    let ghash = entry(&rt, rt.alloc(), ("ghash", "g"), Kind::Ghash, 300);
    let made = ("gcm_base(ctr(d),g)", 200);
    is_over_two(&rt, rt.alloc(), "gcm(aes)", (ctr, ghash), made);
    let hmac = entry(&rt, rt.alloc(), ("hmac(sha256)", "hmac(d)"), Kind::Mac, 7);
    let cbc = entry(&rt, rt.alloc(), ("cbc(aes)", "cbc(e)"), Kind::Skcipher, 100);
    let made = ("authenc(hmac(d),cbc(e))", 1007);
    is_over_two(
        &rt,
        rt.alloc(),
        "authenc(hmac(sha256),cbc(aes))",
        (hmac, cbc),
        made,
    );
}

/// Over a driver of so many bytes `cbc` comes to what the word says.
fn comes_to(rt: &impl Abort, alloc: Global, count: usize, kind: Kind, word: &str) {
    let driver = vec![in alloc; b'x'; count].expect(rt, "memory");
    let driver = str::from_utf8(&driver).expect(rt, "a text");
    let below = entry(rt, alloc, ("x", driver), kind, 1);
    assert!(rt;
        is_made(made_of(rt, alloc, "cbc(x)", below), word),
        "{count} bytes"
    );
}

#[test]
fn drivers_of_127_bytes(rt: HostRuntime) {
    comes_to(&rt, rt.alloc(), 122, Kind::Cipher, "skcipher");
    comes_to(&rt, rt.alloc(), 123, Kind::Cipher, "ENAMETOOLONG");
    comes_to(&rt, rt.alloc(), 123, Kind::Mac, "EINVAL");
}

/// In a row stand a name, and what its template asks for, or the error.
const ASKED: &str = "\
gcm(aes) ctr(aes) ghash
gcm_base(c(a),g) c(a) g
authenc(a,e) a e
cbc(a,b) EINVAL
cbc EINVAL
gcm(a,b) EINVAL
authenc(a) EINVAL
xts(a,b) EINVAL
ccm(a,b) EINVAL
cmac EINVAL
cryptd(pcrypt) EINVAL
cryptd(pcrypt(a,b)) EINVAL
lrw(a,b) ENOENT
aes ENOENT
";

/// Whether a name is printed so.
fn is_printed(rt: &impl Abort, alloc: Global, name: &Name, text: &str) -> bool {
    let printed = print_name(alloc, name).expect(rt, "memory");
    printed.as_slice() == text.as_bytes()
}

/// Whether these two names are printed so.
fn are_printed(rt: &impl Abort, alloc: Global, names: &[Name], texts: &str) -> bool {
    let (first, second) = texts.split_once(' ').expect(rt, "two names");
    match names {
        [one, two] => is_printed(rt, alloc, one, first) && is_printed(rt, alloc, two, second),
        _ => false,
    }
}

/// A row holds.
fn row_is_asked(rt: &impl Abort, alloc: Global, row: &str) {
    let (text, want) = row.split_once(' ').expect(rt, "a name and a word");
    match children(alloc, &named(rt, alloc, text)) {
        Ok(names) => assert!(rt; are_printed(rt, alloc, &names, want), "{row}"),
        Err(error) => assert!(rt; is_error(error, want), "{row}"),
    }
}

#[test]
fn templates_ask_for_their_children(rt: HostRuntime) {
    for row in ASKED.lines() {
        row_is_asked(&rt, rt.alloc(), row);
    }
}

/// In a row stand a name and whether it is nested well.
const NESTED: &str = "\
pcrypt(gcm(aes)) well
cryptd well
gcm(pcrypt(aes)) EINVAL
cryptd(pcrypt(gcm(aes))) well
cryptd(pcrypt) well
pcrypt(cryptd(gcm(aes))) EINVAL
pcrypt(pcrypt(gcm(aes))) EINVAL
cryptd(cryptd(gcm(aes))) EINVAL
cryptd(pcrypt(pcrypt(gcm(aes)))) EINVAL
cryptd(pcrypt(gcm(aes)),aes) EINVAL
gcm(cryptd(pcrypt(aes))) EINVAL
authenc(hmac(sha256),cryptd) EINVAL
";

/// A row holds.
fn row_is_nested(rt: &impl Abort, alloc: Global, row: &str) {
    let (text, want) = row.split_once(' ').expect(rt, "a name and a word");
    let word = match nesting(&named(rt, alloc, text)) {
        Ok(()) => "well",
        Err(errno) => errno.name(),
    };
    assert!(rt; word == want, "{row}");
}

#[test]
fn wrappers_stand_at_the_root(rt: HostRuntime) {
    for row in NESTED.lines() {
        row_is_nested(&rt, rt.alloc(), row);
    }
}

/// In a row stand a driver and its plan, over the first drivers of AES and GHASH.
const PLANS: &str = "\
cbc(aes-generic) cbc
cryptd(ctr(aes-generic)) ctr
rfc3686(ctr(aes-generic)) rfc3686
cryptd(xts(aes-generic)) xts
pcrypt(gcm_base(ctr(aes-generic),ghash-generic)) gcm
rfc4106(gcm_base(ctr(aes-generic),ghash-generic)) rfc4106
pcrypt(ccm(aes-generic)) ccm
cryptd(pcrypt(ccm(aes-generic))) ccm
ccm(ctr(aes-generic)) EINVAL
hmac(sha256-generic) hmac
cryptd(cmac(aes-generic)) cmac
cmac(sha256-generic) EINVAL
authenc(hmac(sha256-generic),cbc(aes-generic)) authenc-cbc
authenc(hmac(sha256-generic),ctr(aes-generic)) authenc-ctr
authenc(hmac(sha256-generic),rfc3686(ctr(aes-generic))) authenc-rfc3686
authenc(hmac(sha256-generic),xts(aes-generic)) authenc-xts
authenc(cmac(aes-generic),cbc(aes-generic)) EINVAL
aes-generic EINVAL
ghash-generic EINVAL
";

fn plan_in(word: &str) -> Option<Plan> {
    let aes = AesForm::AesGeneric;
    let ghash = GhashForm::GhashGeneric;
    Some(match word {
        "cbc" => Plan::Cbc(aes),
        "ctr" => Plan::Ctr(aes),
        "rfc3686" => Plan::Rfc3686(aes),
        "xts" => Plan::Xts(aes),
        "gcm" => Plan::Gcm(aes, ghash),
        "rfc4106" => Plan::Rfc4106(aes, ghash),
        "ccm" => Plan::Ccm(aes),
        "hmac" => Plan::Hmac,
        "cmac" => Plan::Cmac(aes),
        "authenc-cbc" => Plan::AuthencCbc(aes),
        "authenc-ctr" => Plan::AuthencCtr(aes),
        "authenc-rfc3686" => Plan::AuthencRfc3686(aes),
        "authenc-xts" => Plan::AuthencXts(aes),
        _ => return None,
    })
}

/// A row holds.
fn row_has_plan(rt: &impl Abort, alloc: Global, row: &str) {
    let (text, want) = row.split_once(' ').expect(rt, "a name and a word");
    let is_right = match plan_of(&named(rt, alloc, text)) {
        Ok(plan) => plan_in(want) == Some(plan),
        Err(errno) => errno.name() == want,
    };
    assert!(rt; is_right, "{row}");
}

#[test]
fn plans_of_drivers(rt: HostRuntime) {
    for row in PLANS.lines() {
        row_has_plan(&rt, rt.alloc(), row);
    }
}

/// What a script gets for a name. The registry stays as builds leave it.
fn resolved(
    rt: &impl Abort,
    alloc: Global,
    registry: &mut Registry,
    text: &str,
) -> Result<u64, Errno>
    requires made { Made table registry.old }
    requires none { NonePending registry.old }
    ensures made { Made table registry.new }
    ensures none { NonePending registry.new }
{
    let name = named(rt, alloc, text);
    if let Err(errno) = nesting(&name) {
        return Err(errno);
    }
    match resolve_outright(alloc, registry, 0, &name) {
        Ok(id) => Ok(id),
        Err(BuildErr::Fault(errno)) => Err(errno),
        Err(BuildErr::Memory) => panic!(rt; "memory"),
    }
}

/// Names in turn, and the entry that each comes to, or the error.
const RESOLVED: &str = "\
cbc(aes) 3
cbc(aes) 3
authenc(hmac(sha256),cbc(aes)) 5
pcrypt(gcm(aes)) 8
gcm(pcrypt(aes)) EINVAL
foo(aes) ENOENT
cbc(sha256) EINVAL
cbc(nothing) ENOENT
rfc4106(gcm(aes)) 9
authenc(cmac(aes),cbc(aes)) EINVAL
cmac(aes) 10
pcrypt(ccm(aes)) 12
cryptd(pcrypt(gcm(aes))) 13
cryptd(pcrypt(cbc(aes))) EINVAL
";

/// Whether an answer is this number, or the error of that name.
fn is_answer(found: Result<u64, Errno>, word: &str) -> bool {
    match found {
        Ok(id) => word.parse::<u64>() == Ok(id),
        Err(errno) => errno.name() == word,
    }
}

/// A row holds in its turn.
fn row_resolves(rt: &impl Abort, alloc: Global, registry: &mut Registry, row: &str)
    requires made { Made table registry.old }
    requires none { NonePending registry.old }
    ensures made { Made table registry.new }
    ensures none { NonePending registry.new }
{
    let (text, want) = row.split_once(' ').expect(rt, "a name and a word");
    let found = resolved(rt, alloc, registry, text);
    assert!(rt; is_answer(found, want), "{row}");
}

#[test]
fn builds_children_first(rt: HostRuntime) {
    let mut registry = new_registry(&rt, rt.alloc());
    for row in RESOLVED.lines() {
        row_resolves(&rt, rt.alloc(), &mut registry, row);
    }
}
