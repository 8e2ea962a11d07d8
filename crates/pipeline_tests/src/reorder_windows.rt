use reorder_window::{Refusal, Window};
use std::test::Fail;

#[test]
fn requests_come_back_in_order_after_a_wild_finish(rt: HostRuntime) -> Result<(), Fail> {
    let mut window = Window::new(rt.alloc(), 8, 8, false, 0b0110)?;
    let accepted = window.submit_many(['a', 'b', 'c'].as_slice(), false).count;
    let mut jobs = ['-'; 4];
    let taken = window.take_many(1, jobs.as_mut_slice());
    let ends = [
        window.finish(2, 1),
        window.finish(0, 2),
        window.finish(0, 1),
        window.finish(0, 1),
        window.finish(3, 1),
    ];
    let mut out = ['-'; 4];
    let first = window.poll_many(out.as_mut_slice());
    let finished = window.finish_many(1, 2, 1);
    let mut rest = ['-'; 4];
    let second = window.poll_many(rest.as_mut_slice());
    assert!(rt; accepted == 3 && taken == 3 && jobs == ['a', 'b', 'c', '-']);
    assert!(rt; ends == [true, false, true, false, false] && finished == 1);
    assert!(rt; first == 1 && out == ['a', '-', '-', '-']);
    assert!(rt; second == 2 && rest == ['b', 'c', '-', '-'] && window.is_drained());
    Ok(())
}

#[test]
fn a_serial_window_runs_one_and_tells_what_left_its_backlog(rt: HostRuntime) -> Result<(), Fail> {
    let mut window = Window::new(rt.alloc(), 4, 1, true, u64::MAX)?;
    let verdicts = [
        window.submit('a', false),
        window.submit('b', false),
        window.submit('b', true),
    ];
    let before = (window.has_backlog(), window.started());
    let takes = [window.take(5), window.take(6)];
    let after = (window.has_backlog(), window.started());
    let finished = window.finish(0, 5);
    let next = window.take(6);
    assert!(rt; verdicts == [Ok(0), Err(Refusal::NoSpace), Ok(1)]);
    assert!(rt; before == (true, 1) && after == (true, 2));
    assert!(rt; takes == [Some((0, 'a')), None] && finished && next == Some((1, 'b')));
    Ok(())
}

#[test]
fn a_window_that_is_held_hands_nothing_to_workers(rt: HostRuntime) -> Result<(), Fail> {
    let mut window = Window::new(rt.alloc(), 4, 4, false, 0b0010)?;
    let accepted = window.submit_many(['a', 'b', 'c'].as_slice(), false).count;
    window.hold();
    let held = window.take(1);
    window.go();
    let let_go = [window.take(1), window.take(0), window.take(64)];
    window.set_mask(0b0001);
    let masked = [window.take(1), window.take(0)];
    assert!(rt; accepted == 3 && held.is_none());
    assert!(rt; let_go == [Some((0, 'a')), None, None]);
    assert!(rt; masked == [None, Some((1, 'b'))] && window.waiting() == 1);
    Ok(())
}

#[test]
fn a_window_that_is_full_takes_the_next_after_a_poll(rt: HostRuntime) -> Result<(), Fail> {
    let mut window = Window::new(rt.alloc(), 2, 2, false, 1)?;
    let accepted = window.submit_many(['a', 'b', 'c'].as_slice(), true);
    let job = window.take(0);
    let finished = window.finish(0, 0);
    let refused = window.submit('c', true);
    let polls = [window.poll(), window.poll()];
    let number = window.submit('c', true);
    assert!(rt; accepted.count == 2 && accepted.refusal == Some(Refusal::Full));
    assert!(rt; job == Some((0, 'a')) && finished && refused == Err(Refusal::Full));
    assert!(rt; polls == [Some((0, 'a')), None] && number == Ok(2) && window.in_flight() == 2);
    Ok(())
}
