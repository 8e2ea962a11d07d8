//! What no clause says of a word that threads share.

use crate::counted::Counted;
use crate::masked::MaskedPads;
use std::test::Fail;

#[test]
fn a_job_that_came_since_is_not_forgotten(rt: HostRuntime) -> Result<(), Fail> {
    let counted = Counted::new();
    assert_eq!(rt; counted.count(), 0);
    let seen = counted.seen();
    // as many are unnoticed then as before, and it is another one
    assert!(rt; counted.notice_seen(counted.seen()));
    assert_eq!(rt; counted.count(), 0);
    counted.forget(seen);
    assert_eq!(rt; counted.unnoticed(), 1);
    Ok(())
}

#[test]
fn a_job_that_came_since_is_not_noticed_for_an_older_one(rt: HostRuntime) -> Result<(), Fail> {
    let counted = Counted::new();
    assert_eq!(rt; counted.count(), 0);
    let seen = counted.seen();
    assert!(rt; counted.notice_seen(counted.seen()));
    assert_eq!(rt; counted.count(), 0);
    assert!(rt; !counted.notice_seen(seen));
    assert_eq!(rt; counted.unnoticed(), 1);
    Ok(())
}

#[test]
fn those_that_were_seen_are_forgotten(rt: HostRuntime) -> Result<(), Fail> {
    let counted = Counted::new();
    assert_eq!(rt; counted.count(), 0);
    assert_eq!(rt; counted.count(), 1);
    counted.forget(counted.seen());
    assert_eq!(rt; counted.unnoticed(), 0);
    assert!(rt; !counted.notice_seen(counted.seen()));
    Ok(())
}

#[test]
fn a_pad_is_masked_until_it_admits_each_worker(rt: HostRuntime) -> Result<(), Fail> {
    let pads = MaskedPads::new();
    assert!(rt; pads.set(7, 0b1101));
    assert!(rt; pads.is_masked(7, 2) && !pads.is_masked(7, 1));
    assert!(rt; pads.leave_out(2) && !pads.leave_out(1));
    assert!(rt; !pads.is_masked(8, 16));
    assert!(rt; pads.set(7, 0b1111));
    assert!(rt; pads.is_masked(7, 5) && !pads.is_masked(7, 4));
    assert!(rt; pads.set(7, 0xffff));
    assert!(rt; !pads.is_masked(7, 16));
    Ok(())
}

#[test]
fn sixteen_masked_pads_are_told_apart(rt: HostRuntime) -> Result<(), Fail> {
    let pads = MaskedPads::new();
    for pad in 0..16u64 {
        assert!(rt; pads.set(pad, 0));
    }
    assert!(rt; !pads.set(16, 0));
    pads.leave(3);
    assert!(rt; pads.set(16, 0));
    assert!(rt; pads.is_masked(16, 1) && !pads.is_masked(3, 1));
    Ok(())
}
