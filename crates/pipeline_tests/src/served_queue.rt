use cryptd::Cryptd;
use kc_base::{Callback, Callbacks};
use request_queue::Verdict;
use std::test::Fail;

#[test]
fn a_held_queue_serves_its_backlog_in_order(rt: HostRuntime) -> Result<(), Fail> {
    let mut queue = Cryptd::new(rt.alloc(), 2);
    queue.reserve(4)?;
    queue.hold();
    let verdicts = (
        queue.enqueue(0, 'a', false),
        queue.enqueue(1, 'b', false),
        queue.enqueue(2, 'c', true),
        queue.enqueue(3, 'd', false),
    );
    let serves = queue.serve().is_some() || queue.may_serve() || queue.is_idle();
    let accepts = (queue.accepts(true), queue.accepts(false), queue.accepted());
    queue.go();
    let goes = queue.may_serve();
    assert!(rt; !serves && accepts == (true, false, 3) && goes);
    assert!(rt;
        matches!(
            verdicts,
            (
                Verdict::InProgress,
                Verdict::InProgress,
                Verdict::Busy,
                Verdict::NoSpace('d'),
            )
        )
    );
    for _ in 0..3 {
        let Some(served) = queue.serve() else {
            panic!(rt; "a job waits")
        };
        // one job at a time
        let another = queue.serve().is_some();
        queue.done(served.number, served.item.to_ascii_uppercase());
        assert!(rt; !another);
    }
    assert!(rt; queue.is_idle() && !queue.may_serve());
    let mut into = Callbacks::new(rt.alloc());
    into.reserve(queue.pending())?;
    queue.collect(&mut into);
    match into.as_slice() {
        [
            Callback::Started(2),
            Callback::Done(0, 'A'),
            Callback::Done(1, 'B'),
            Callback::Done(2, 'C'),
        ] => Ok(()),
        _ => panic!(rt; "other callbacks"),
    }
}

#[test]
fn what_is_passed_on_is_told_in_order(rt: HostRuntime) -> Result<(), Fail> {
    let mut queue = Cryptd::new(rt.alloc(), 1);
    queue.reserve(2)?;
    let verdicts = (queue.enqueue(0, 'a', false), queue.enqueue(1, 'b', true));
    let passes = (queue.pass_on().is_some(), queue.pass_on().is_some());
    let counts = (queue.waiting(), queue.unreleased());
    assert!(rt; matches!(verdicts, (Verdict::InProgress, Verdict::Busy)));
    assert!(rt; passes == (true, true) && counts == (0, 2));
    queue.release(0, 'A');
    queue.release(1, 'B');
    let mut into = Callbacks::new(rt.alloc());
    into.reserve(queue.pending())?;
    queue.collect(&mut into);
    match into.as_slice() {
        [
            Callback::Started(1),
            Callback::Done(0, 'A'),
            Callback::Done(1, 'B'),
        ] => Ok(()),
        _ => panic!(rt; "other callbacks"),
    }
}
