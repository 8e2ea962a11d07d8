use request_queue::{Queue, Verdict};
use std::test::Fail;

#[test]
fn a_queue_of_one_takes_one_item(rt: HostRuntime) -> Result<(), Fail> {
    let mut queue = Queue::new(rt.alloc(), 1);
    queue.reserve(3)?;
    let verdicts = (
        queue.enqueue(0, 'a', false),
        queue.enqueue(1, 'b', false),
        queue.enqueue(1, 'c', true),
        queue.enqueue(2, 'd', true),
    );
    let counts = (queue.len(), queue.accepted());
    let accepts = (queue.accepts(true), queue.accepts(false));
    assert!(rt; counts == (3, 3) && accepts == (true, false));
    assert!(rt;
        matches!(
            verdicts,
            (
                Verdict::InProgress,
                Verdict::NoSpace('b'),
                Verdict::Busy,
                Verdict::Busy,
            )
        )
    );
    for row in [
        Some((0, 'a', Some(1))),
        Some((1, 'c', Some(2))),
        Some((2, 'd', None)),
        None,
    ] {
        let served = queue.dequeue().map(|it| (it.number, it.item, it.started));
        assert_eq!(rt; served, row);
    }
    Ok(())
}
