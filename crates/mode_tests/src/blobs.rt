//! Keys of authenc, as they are read.

use crate::segments::bytes;
use authenc::read_blob;
use kc_base::Errno;
use std::alloc::Global;
use std::process::Abort;

/// The keys of a blob in hexadecimal are these.
fn reads_as(rt: &impl Abort, alloc: Global, blob: &str, mac: &str, cipher: &str) -> bool {
    let key = bytes(rt, alloc, blob);
    let Ok(keys) = read_blob(&key) else {
        return false;
    };
    keys.mac == bytes(rt, alloc, mac).as_slice()
        && keys.cipher == bytes(rt, alloc, cipher).as_slice()
}

#[test]
fn blobs_are_read(rt: HostRuntime) {
    for (blob, mac, cipher) in [
        ("0800010000000000", "", ""),
        ("080001000000000201020304", "0102", "0304"),
        ("080001000000000401020304", "", "01020304"),
    ] {
        assert!(rt; reads_as(&rt, rt.alloc(), blob, mac, cipher), "{blob}");
    }
}

#[test]
fn other_blobs_are_refused(rt: HostRuntime) {
    for blob in [
        "",
        "08000100000000",
        "0900010000000000",
        "0008010000000000",
        "0800020000000000",
        "0800000100000000",
        "080001000000000501020304",
        "080001000400000001020304",
    ] {
        let key = bytes(&rt, rt.alloc(), blob);
        assert!(rt; read_blob(&key).err() == Some(Errno::EINVAL), "{blob}");
    }
}
