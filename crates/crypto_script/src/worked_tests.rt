//! Worked scripts of each kind of transform, with each driver.

use crate::tests::{decimal, expect_line, expect_rows, joined, push, row_of, string_of};
use std::alloc::Global;
use std::process::Abort;
use std::sync::Wait;
use std::thread::Threads;

// Worked scripts. Bytes are those of the standards' test vectors, where nothing else is said.
pub const WORKED: &str = "\
SP 800-38A, F.2.1
alloc c cbc(aes)
key c 2b7e151628aed2a6abf7158809cf4f3c
enc c 000102030405060708090a0b0c0d0e0f - 6bc1bee22e409f96e93d7e117393172aae2d8a571e03ac9c9eb76fac45af8e51
enc c 000102030405060708090a0b0c0d0e0f - 00112233445566778899aabbccddee
enc c 000102030405060708090a0b0c0d0e0f - -
dec c 000102030405060708090a0b0c0d0e0f - 7649abac8119b246cee98e9b12e9197d
= 0
1 ok cbc(aes-generic)
2 ok
3 ok 7649abac8119b246cee98e9b12e9197d5086cb9b507219ee95db113a917678b2
4 EINVAL
5 ok -
6 ok 6bc1bee22e409f96e93d7e117393172a
%
its first block, cut
alloc c cbc(aes)
key c 2b7e151628aed2a6abf7158809cf4f3c
enc c 000102030405060708090a0b0c0d0e0f - 6bc1bee22e|409f96e93d7e1173|93172a
dec c 000102030405060708090a0b0c0d0e0f - 76|49abac8119b246cee98e9b12e9197d
enc c 000102030405060708090a0b0c0d0e0f - 00112233445566778899|aabbccddee
= 0
1 ok cbc(aes-generic)
2 ok
3 ok 7649abac8119b246cee98e9b12e9197d
4 ok 6bc1bee22e409f96e93d7e117393172a
5 EINVAL
%
SP 800-38A, F.5.1, of which the first bytes are sealed
alloc t ctr(aes)
key t 2b7e151628aed2a6abf7158809cf4f3c
enc t f0f1f2f3f4f5f6f7f8f9fafbfcfdfeff - 6bc1bee22e
= 0
1 ok ctr(aes-generic)
2 ok
3 ok 874d6191b6
%
a counter block of all ones, after which the counter is 0
alloc t ctr(aes)
key t 00000000000000000000000000000000
enc t ffffffffffffffffffffffffffffffff - 0000000000000000000000000000000000000000000000000000000000000000
= 0
1 ok ctr(aes-generic)
2 ok
3 ok 3f5b8cc9ea855a0afa7347d23e8d664e66e94bd4ef8a2c3b884cfa59ca342b2e
%
RFC 4231, 4.7
alloc h hmac(sha256)
key h aaaaaaaaaaaaaaaaaaaaaaaaaaaaaaaaaaaaaaaaaaaaaaaaaaaaaaaaaaaaaaaaaaaaaaaaaaaaaaaaaaaaaaaaaaaaaaaaaaaaaaaaaaaaaaaaaaaaaaaaaaaaaaaaaaaaaaaaaaaaaaaaaaaaaaaaaaaaaaaaaaaaaaaaaaaaaaaaaaaaaaaaaaaaaaaaaaaaaaaaaaaaaaaaaaaaaaaaaaaaaaaaaaaaaaaaaaaaaaaaaaaaaaaaaaaaaaaaaaaaaa
mac h 54657374205573696e67204c6172676572205468616e20426c6f636b2d53697a65204b6579202d2048617368204b6579204669727374
= 0
1 ok hmac(sha256-generic)
2 ok
3 ok 60e431591ee0b67f0d8a26aacbf5b77f8e0bc6213728c5140546040f0ee37f54
%
GCM of no text, with tags of 16 and of 12 bytes
alloc g gcm(aes)
key g 00000000000000000000000000000000
enc g 000000000000000000000000 - -
authsize g 12
enc g 000000000000000000000000 - -
authsize g 5
= 0
1 ok gcm_base(ctr(aes-generic),ghash-generic)
2 ok
3 ok 58e2fccefa7e3061367f1d57a4e7455a
4 ok
5 ok 58e2fccefa7e3061367f1d57
6 EINVAL
%
RFC 4231, 1 and 2
alloc h hmac(sha256)
key h 0b0b0b0b0b0b0b0b0b0b0b0b0b0b0b0b0b0b0b0b
mac h 4869205468657265
key h 4a656665
mac h 7768617420646f2079612077616e7420666f72206e6f7468696e673f
= 0
1 ok hmac(sha256-generic)
2 ok
3 ok b0344c61d8db38535ca8afceaf0bf12b881dc200c9833da726e9376c2e32cff7
4 ok
5 ok 5bdcc146bf60754e6a042426089575c75a003f089d2739839dec58b964ec3843
%
what GCM refuses
alloc g gcm(aes)
enc g 000000000000000000000000 - -
key g 000000
key g 00000000000000000000000000000000
dec g 000000000000000000000000 - 000000000000000000000000000000
enc g 0000000000000000 - -
enc x 000000000000000000000000 - -
mac g 00
= 0
1 ok gcm_base(ctr(aes-generic),ghash-generic)
2 ENOKEY
3 EINVAL
4 ok
5 EINVAL
6 EINVAL
7 ENOENT
8 EINVAL
%
authenc, over RFC 4231's first tag
alloc a authenc(hmac(sha256),ctr(aes))
key a 08000100000000100b0b0b0b0b0b0b0b0b0b0b0b0b0b0b0b0b0b0b0b00000000000000000000000000000000
enc a 00000000000000000000000000000000 - 2e806b8087ef5e5e
dec a 00000000000000000000000000000000 - 4869205468657265b0344c61d8db38535ca8afceaf0bf12b881dc200c9833da726e9376c2e32cff7
dec a 00000000000000000000000000000000 00 4869205468657265b0344c61d8db38535ca8afceaf0bf12b881dc200c9833da726e9376c2e32cff7
key a 080001000000001100000000000000000000000000000000
dec a 00000000000000000000000000000000 - 4869205468657265b0344c61d8db38535ca8afceaf0bf12b881dc200c9833da726e9376c2e32cff7
= 0
1 ok authenc(hmac(sha256-generic),ctr(aes-generic))
2 ok
3 ok 4869205468657265b0344c61d8db38535ca8afceaf0bf12b881dc200c9833da726e9376c2e32cff7
4 ok 2e806b8087ef5e5e
5 EBADMSG
6 EINVAL
7 ok 2e806b8087ef5e5e
%
RFC 3686, 1
alloc r rfc3686(ctr(aes))
key r ae6852f8121067cc4bf7a5765577f39e00000030
enc r 0000000000000000 - 53696e676c6520626c6f636b206d7367
= 0
1 ok rfc3686(ctr(aes-generic))
2 ok
3 ok e4095d4fb7a7b3792d6175a3261311b8
%
RFC 4106 with salt and IV zero is GCM with the last eight associated bytes left out
alloc s rfc4106(gcm(aes))
key s 00000000000000000000000000000000
key s 0000000000000000000000000000000000000000
enc s 0000000000000000 000000000000000000000000000000 -
enc s 0000000000000000 00000000000000000000000000000000 00000000000000000000000000000000
alloc g gcm(aes)
key g 00000000000000000000000000000000
enc g 000000000000000000000000 0000000000000000 00000000000000000000000000000000
= 0
1 ok rfc4106(gcm_base(ctr(aes-generic),ghash-generic))
2 EINVAL
3 ok
4 EINVAL
5 ok 0388dace60b6a392f328c2b971b2fe7897fe4c23374201e0819f8dc5d741a01b
6 ok gcm_base(ctr(aes-generic),ghash-generic)
7 ok
8 ok 0388dace60b6a392f328c2b971b2fe7897fe4c23374201e0819f8dc5d741a01b
%
GCM's second test case three times under pcrypt
alloc p pcrypt(gcm(aes))
key p 00000000000000000000000000000000
enc p 000000000000000000000000 - 00000000000000000000000000000000
enc p 000000000000000000000000 - 00000000000000000000000000000000
enc p 000000000000000000000000 - 00000000000000000000000000000000
drain p
= 0
1 ok pcrypt(gcm_base(ctr(aes-generic),ghash-generic))
2 ok
3 EINPROGRESS
4 EINPROGRESS
5 EINPROGRESS
3 done 0388dace60b6a392f328c2b971b2fe78ab6e47d42cec13bdf53a67b21257bddf
4 done 0388dace60b6a392f328c2b971b2fe78ab6e47d42cec13bdf53a67b21257bddf
5 done 0388dace60b6a392f328c2b971b2fe78ab6e47d42cec13bdf53a67b21257bddf
6 drained 3
%
a wrong tag between right ones
alloc p pcrypt(gcm(aes))
key p 00000000000000000000000000000000
dec p 000000000000000000000000 - 0388dace60b6a392f328c2b971b2fe78ab6e47d42cec13bdf53a67b21257bddf
dec p 000000000000000000000000 - 0388dace60b6a392f328c2b971b2fe78ab6e47d42cec13bdf53a67b21257bdde
dec p 000000000000000000000000 - 0388dace60b6a392f328c2b971b2fe78ab6e47d42cec13bdf53a67b21257bddf
drain p
= 0
1 ok pcrypt(gcm_base(ctr(aes-generic),ghash-generic))
2 ok
3 EINPROGRESS
4 EINPROGRESS
5 EINPROGRESS
3 done 00000000000000000000000000000000
4 fail EBADMSG
5 done 00000000000000000000000000000000
6 drained 3
%
RFC 4231, 2, as the tag of no text; and a length that fails, which is answered late
alloc a pcrypt(authenc(hmac(sha256),cbc(aes)))
key a 08000100000000104a6566652b7e151628aed2a6abf7158809cf4f3c
enc a 000102030405060708090a0b0c0d0e0f 7768617420646f2079612077616e7420666f72206e6f7468696e673f -
enc a 000102030405060708090a0b0c0d0e0f 7768617420646f2079612077616e7420666f72206e6f7468696e673f 00
drain a
= 0
1 ok pcrypt(authenc(hmac(sha256-generic),cbc(aes-generic)))
2 ok
3 EINPROGRESS
4 EINPROGRESS
3 done 5bdcc146bf60754e6a042426089575c75a003f089d2739839dec58b964ec3843
4 fail EINVAL
5 drained 2
%
a request keeps the key that it came with
alloc m cryptd(hmac(sha256))
key m 0b0b0b0b0b0b0b0b0b0b0b0b0b0b0b0b0b0b0b0b
hold m
mac m 4869205468657265
key m 4a656665
mac m 7768617420646f2079612077616e7420666f72206e6f7468696e673f
go m
drain m
= 0
1 ok cryptd(hmac(sha256-generic))
2 ok
3 ok
4 EINPROGRESS
5 ok
6 EINPROGRESS
7 ok
4 done b0344c61d8db38535ca8afceaf0bf12b881dc200c9833da726e9376c2e32cff7
6 done 5bdcc146bf60754e6a042426089575c75a003f089d2739839dec58b964ec3843
8 drained 2
%
a request keeps the tag size too; the second bytes are of python's `cryptography`
alloc p pcrypt(gcm(aes))
key p 00000000000000000000000000000000
enc p 000000000000000000000000 - 00000000000000000000000000000000
key p 2b7e151628aed2a6abf7158809cf4f3c
authsize p 12
enc p 000000000000000000000000 - 00000000000000000000000000000000
drain p
= 0
1 ok pcrypt(gcm_base(ctr(aes-generic),ghash-generic))
2 ok
3 EINPROGRESS
4 ok
5 ok
6 EINPROGRESS
3 done 0388dace60b6a392f328c2b971b2fe78ab6e47d42cec13bdf53a67b21257bddf
6 done 973f2ef34879e2027f1734303ff21f894ffe0a3c3617e6c15db0bc07
7 drained 2
%
RFC 4493, examples 1 and 2
alloc m cmac(aes)
key m 2b7e151628aed2a6abf7158809cf4f3c
mac m -
mac m 6bc1bee22e409f96e93d7e117393172a
alloc a authenc(cmac(aes),cbc(aes))
= 0
1 ok cmac(aes-generic)
2 ok
3 ok bb1d6929e95937287fa37d129b756746
4 ok 070a16b46b4d4144f79bdd9dd04a287c
5 EINVAL
%
SP 800-38C, example 1
alloc c ccm(aes)
key c 404142434445464748494a4b4c4d4e4f
authsize c 4
enc c 07101112131415160000000000000000 0001020304050607 20212223
enc c 00101112131415160000000000000000 0001020304050607 20212223
authsize c 5
= 0
1 ok ccm(aes-generic)
2 ok
3 ok
4 ok 7162015b4dac255d
5 EINVAL
6 EINVAL
%
the same, with a wrong tag between right ones
alloc p pcrypt(ccm(aes))
key p 404142434445464748494a4b4c4d4e4f
authsize p 4
dec p 07101112131415160000000000000000 0001020304050607 7162015b4dac255d
dec p 07101112131415160000000000000000 0001020304050607 7162015b4dac255c
dec p 07101112131415160000000000000000 0001020304050607 7162015b4dac255d
drain p
= 0
1 ok pcrypt(ccm(aes-generic))
2 ok
3 ok
4 EINPROGRESS
5 EINPROGRESS
6 EINPROGRESS
4 done 20212223
5 fail EBADMSG
6 done 20212223
7 drained 3
%
XTS: IEEE 1619's first vector, a byte more by python's AES, and what it refuses
alloc x xts(aes)
key x 0000000000000000000000000000000000000000000000000000000000000000
enc x 00000000000000000000000000000000 - 0000000000000000000000000000000000000000000000000000000000000000
enc x 00000000000000000000000000000000 - 0000000000000000000000000000000000
enc x 00000000000000000000000000000000 - 00
key x 00000000000000000000000000000000
= 0
1 ok xts(aes-generic)
2 ok
3 ok 917cf69ebd68b2ec9b9fe9a3eadda692cd43d2f59598ed858c02c2652fbf922e
4 ok e62b361e89c90e48001d65120f8ea4d491
5 EINVAL
6 EINVAL
%
that vector behind a queue
alloc q cryptd(xts(aes))
key q 0000000000000000000000000000000000000000000000000000000000000000
enc q 00000000000000000000000000000000 - 0000000000000000000000000000000000000000000000000000000000000000
drain q
= 0
1 ok cryptd(xts(aes-generic))
2 ok
3 EINPROGRESS
3 done 917cf69ebd68b2ec9b9fe9a3eadda692cd43d2f59598ed858c02c2652fbf922e
4 drained 1
";

#[test]
fn transforms_answer_by_the_standards(rt: HostRuntime) {
    expect_rows(&rt, rt.alloc(), WORKED);
}

// Adds what a text says where another driver computes.
fn push_replaced(rt: &impl Abort, to: &mut String, text: &str, driver: &str, form: &str) {
    for (place, part) in text.split(driver).enumerate() {
        if place > 0 {
            push(rt, to, form);
        }
        push(rt, to, part);
    }
}

// Adds a line that comes one line later, where another driver computes.
fn push_later(
    rt: &impl Abort,
    alloc: Global,
    to: &mut String,
    line: &str,
    driver: &str,
    form: &str,
) {
    let (number, rest) = line.split_once(' ').unwrap_or((line, ""));
    let number = number.parse::<u64>().unwrap_or(0).saturating_add(1);
    push(rt, to, decimal(rt, alloc, number).as_str());
    push(rt, to, " ");
    push_replaced(rt, to, rest, driver, form);
    push(rt, to, "\n");
}

// What a script prints that begins with one line more, where this form computes in the place of that driver.
fn moved(rt: &impl Abort, alloc: Global, text: &str, driver: &str, form: &str) -> String {
    let mut moved = string_of(rt, alloc, "1 ok\n");
    for line in text.lines() {
        push_later(rt, alloc, &mut moved, line, driver, form);
    }
    moved
}

// A script has the same text where this form computes in the place of that driver.
fn expect_form<R: Abort + Threads + Wait + Sync>(
    rt: &R,
    alloc: Global,
    driver: &'static str,
    form: &'static str,
    row: &'static str,
) {
    let row = row_of(rt, row);
    let script = joined(rt, alloc, &["register ", form, " 200\n", row.script]);
    let text = moved(rt, alloc, row.text, driver, form);
    expect_line(rt, alloc, "--workers 2", script.as_str(), 0, text.as_str());
}

#[test]
fn each_form_answers_the_same(rt: HostRuntime) {
    for (driver, form) in [
        ("aes-generic", "aes-table"),
        ("aes-generic", "aes-lanes"),
        ("ghash-generic", "ghash-table"),
    ] {
        for row in WORKED.split("%\n") {
            expect_form(&rt, rt.alloc(), driver, form, row);
        }
    }
}

// Values by another library, of the texts that SplitMix64 draws.
const BULK: &str = "\
long texts are sealed in chunks
alloc c ctr(aes)
bulk c 1 0
key c 2b7e151628aed2a6abf7158809cf4f3c
bulk c 16 0
enc c e220a8397b1dcdaf6e789e6aa1b965f4 - 06c45d188009454ff88bb8a8724c81ec
bulk c 17 999999999
bulk c 1000000 7
bulk c 0 1
bulk c 16777217 1
bulk d 1 0
alloc d rfc3686(ctr(aes))
key d 2b7e151628aed2a6abf7158809cf4f3c00000030
bulk d 1 0
= 0
1 ok ctr(aes-generic)
2 ENOKEY
3 ok
4 ok 5da613b1cdf3fb3fdb32a52c776f17db51bf88c9d67ea981e1e19e764ce50283
5 ok 3c895ffd93583b74604f93534c46542b
6 ok c2c3863290e9fc43f6ebe5a14a8239bbd30d6160c83a1b985591dadf273ded9b
7 ok 2f805dd73829288ad6ca372288e288a5f54a29e3f8cf6e615406e4a1e79a0024
8 EINVAL
9 EINVAL
10 ENOENT
11 ok rfc3686(ctr(aes-generic))
12 ok
13 EINVAL
";

#[test]
fn long_texts_are_sealed_in_chunks(rt: HostRuntime) {
    let row = row_of(&rt, BULK);
    for line in ["--workers 0", "--workers 1", "--workers 8"] {
        expect_line(&rt, rt.alloc(), line, row.script, row.status, row.text);
    }
}
