//! Scripts that ask the registry, and names that it refuses.

ghost use Rattle.std.specs.Prelude.{◌<◌};

use crate::tests::{cut, decimal, expect_line, expect_rows, joined, push, push_all, push_line};
use std::alloc::Global;
use std::process::Abort;
use std::sync::Wait;
use std::thread::Threads;

const REGISTRY: &str = "\
a driver is unlisted while a transform stands on it
alloc c cbc(aes)
key c 2b7e151628aed2a6abf7158809cf4f3c
unregister aes-generic
enc c 000102030405060708090a0b0c0d0e0f - 6bc1bee22e409f96e93d7e117393172a
alloc d cbc(aes)
refs aes-generic
free c
refs aes-generic
register aes-generic 300
list
= 0
1 ok cbc(aes-generic)
2 ok
3 ok
4 ok 7649abac8119b246cee98e9b12e9197d
5 ENOENT
6 refs 1 unlisted
7 ok
8 ENOENT
9 ok
10 alg sha256 sha256-generic 100 0
10 alg ghash ghash-generic 100 0
10 alg aes aes-generic 300 0
10 listed 3
%
a driver is asked for by its name
alloc g gcm(aes)
alloc s gcm_base(ctr(aes-generic),ghash-generic)
alloc r rfc4106(gcm(aes))
refs gcm_base(ctr(aes-generic),ghash-generic)
= 0
1 ok gcm_base(ctr(aes-generic),ghash-generic)
2 ok gcm_base(ctr(aes-generic),ghash-generic)
3 ok rfc4106(gcm_base(ctr(aes-generic),ghash-generic))
4 refs 3 listed
%
before its instance is built too
alloc s gcm_base(ctr(aes-generic),ghash-generic)
alloc r rfc4106(gcm(aes))
refs gcm_base(ctr(aes-generic),ghash-generic)
= 0
1 ok gcm_base(ctr(aes-generic),ghash-generic)
2 ok rfc4106(gcm_base(ctr(aes-generic),ghash-generic))
3 refs 2 listed
%
pcrypt has priority over what it wraps
alloc p pcrypt(gcm(aes))
alloc g gcm(aes)
alloc s gcm_base(ctr(aes-generic),ghash-generic)
alloc r rfc4106(gcm(aes))
refs gcm_base(ctr(aes-generic),ghash-generic)
= 0
1 ok pcrypt(gcm_base(ctr(aes-generic),ghash-generic))
2 ok pcrypt(gcm_base(ctr(aes-generic),ghash-generic))
3 ok gcm_base(ctr(aes-generic),ghash-generic)
4 ok rfc4106(gcm_base(ctr(aes-generic),ghash-generic))
5 refs 3 listed
%
priorities, and drivers that are not there
register aes-generic 100001
register aes-generic 1
register nosuch 1
unregister nosuch
register ghash-generic 100000
unregister ghash-generic
register ghash-generic 100000
= 0
1 EINVAL
2 EEXIST
3 ENOENT
4 ENOENT
5 EEXIST
6 ok
7 ok
%
a driver of greater priority computes in what is built then
register aes-table 200
alloc c cbc(aes)
register aes-table 300
register nosuch 1
alloc d cbc(aes-generic)
alloc e cbc(aes)
= 0
1 ok
2 ok cbc(aes-table)
3 EEXIST
4 ENOENT
5 ok cbc(aes-generic)
6 ok cbc(aes-table)
%
a driver of GHASH of greater priority
register ghash-table 200
alloc g gcm(aes)
list
= 0
1 ok
2 ok gcm_base(ctr(aes-generic),ghash-table)
3 alg aes aes-generic 100 1
3 alg sha256 sha256-generic 100 0
3 alg ghash ghash-generic 100 0
3 alg ghash ghash-table 200 1
3 alg ctr(aes) ctr(aes-generic) 100 1
3 alg gcm(aes) gcm_base(ctr(aes-generic),ghash-table) 150 1
3 listed 6
%
labels are taken, and freed
alloc a ctr(aes)
alloc a ctr(aes)
key b 00
authsize b 4
authsize a 4
free b
free a
free a
alloc a ctr(aes)
= 0
1 ok ctr(aes-generic)
2 EEXIST
3 ENOENT
4 ENOENT
5 EINVAL
6 ENOENT
7 ok
8 ENOENT
9 ok ctr(aes-generic)
%
both stand on one instance, whoever built it
probe pcrypt(gcm(aes)) cryptd(gcm(aes))
refs gcm_base(ctr(aes-generic),ghash-generic)
probe des
probe des aes cbc(aes cbc(aes)
= 0
1 probed pcrypt(gcm(aes)) pcrypt(gcm_base(ctr(aes-generic),ghash-generic))
1 probed cryptd(gcm(aes)) cryptd(gcm_base(ctr(aes-generic),ghash-generic))
2 refs 2 listed
3 unprobed des ENOENT
4 unprobed des ENOENT
4 probed aes aes-generic
4 unprobed cbc(aes EINVAL
4 probed cbc(aes) cbc(aes-generic)
%
an earlier key stays where another is refused
alloc c cbc(aes)
key c 2b7e151628aed2a6abf7158809cf4f3c
key c 00
enc c 000102030405060708090a0b0c0d0e0f - 6bc1bee22e409f96e93d7e117393172a backlog
= 0
1 ok cbc(aes-generic)
2 ok
3 EINVAL
4 ok 7649abac8119b246cee98e9b12e9197d
";

#[test]
fn the_registry_answers_in_order(rt: HostRuntime) {
    expect_rows(&rt, rt.alloc(), REGISTRY);
}

// Names that `alloc` refuses, and how.
const REFUSED: &str = "\
cbc(aes = EINVAL
cbc() = EINVAL
aaaaaaaaaaaaaaaaaaaaaaaaaaaaaaaaaaaaaaaaaaaaaaaaaaaaaaaaaaaaaaaaaaaaaaaaaaaaaaaaaaaaaaaaaaaaaaaaaaaaaaaaaaaaaaaaaaaaaaaaaaaaaaaa = ENAMETOOLONG
a(a(a(a(a(a(a(a(a)))))))) = EINVAL
cbc(sha256) = EINVAL
nosuch(aes) = ENOENT
des = ENOENT
pcrypt(cryptd(gcm(aes))) = EINVAL
aes = EINVAL
cbc(aes,aes) = EINVAL
cbc(aes) 0 = EINVAL
cbc(aes) 4097 = EINVAL
cbc(aes) 4096 = EINVAL
pcrypt(cbc(aes)) = EINVAL
pcrypt(gcm(aes)) 2 = EINVAL
cryptd(cbc(aes)) 0 = EINVAL
cryptd(cbc(aes)) 4097 = EINVAL
cryptd(aes) = EINVAL
";

// An `alloc` of this row's name is refused so.
fn expect_refusal<R: Abort + Threads + Wait + Sync>(rt: &R, alloc: Global, row: &'static str) {
    let (name, errno) = cut(rt, row, " = ");
    let script = joined(rt, alloc, &["alloc a ", name, "\n"]);
    let text = joined(rt, alloc, &["1 ", errno, "\n"]);
    expect_line(rt, alloc, "--workers 1", script.as_str(), 0, text.as_str());
}

#[test]
fn names_are_refused(rt: HostRuntime) {
    for row in REFUSED.lines() {
        expect_refusal(&rt, rt.alloc(), row);
    }
}

// Allocates one transform more, as the answer says.
fn push_alloc(rt: &impl Abort, alloc: Global, script: &mut String, text: &mut String, at: u32)
    requires { at < 10000 }
{
    let label = decimal(rt, alloc, u64::from(at));
    push_all(rt, script, &["alloc t", label.as_str(), " cbc(aes)\n"]);
    push_line(rt, alloc, text, at + 1, "ok cbc(aes-generic)");
}

#[test]
fn at_most_4096_transforms_live(rt: HostRuntime) {
    let mut script = String::new(rt.alloc());
    let mut text = String::new(rt.alloc());
    for at in 0..4096u32 {
        push_alloc(&rt, rt.alloc(), &mut script, &mut text, at);
    }
    push(&rt, &mut script, "alloc t4096 cbc(aes)\n");
    push(&rt, &mut text, "4097 EMFILE\n");
    expect_line(
        &rt,
        rt.alloc(),
        "--workers 1",
        script.as_str(),
        0,
        text.as_str(),
    );
}
