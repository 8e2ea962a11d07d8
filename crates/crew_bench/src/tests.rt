//! What no clause says of threads: that two are inside jobs at once, and that each crew ends.

use crate::asker::{asked_beside_worker, count_built_by};
use crate::callers::callers_see_their_own;
use crate::calls::crew_of;
use crate::sharer::shared_number;
use alg_registry::Ended;
use crew::{BarrierGate, NoGate};
use std::test::Fail;

#[test]
fn two_are_inside_at_once(rt: HostRuntime) -> Result<(), Fail> {
    let gate = BarrierGate::of(2);
    assert!(rt; crew_of(&rt, rt.alloc(), 2, 2, 10, &gate).is_some());
    assert_eq!(rt; gate.gave_up(), 0);
    assert_eq!(rt; gate.entered(), 2);
    Ok(())
}

#[test]
fn each_crew_ends(rt: HostRuntime) -> Result<(), Fail> {
    // the last one ends while all but one sleep
    for (workers, jobs, turns) in [
        (0u32, 300u32, 10u64),
        (1, 300, 10),
        (2, 300, 10),
        (8, 300, 10),
        (16, 300, 10),
        (16, 0, 10),
        (16, 1, 10_000_000),
    ] {
        assert!(rt; crew_of(&rt, rt.alloc(), workers, jobs, turns, &NoGate).is_some());
    }
    Ok(())
}

#[test]
fn another_submits_to_a_shared_pad(rt: HostRuntime) -> Result<(), Fail> {
    assert_eq!(rt; shared_number(&rt, rt.alloc()), Some(0));
    Ok(())
}

#[test]
fn eight_callers_see_their_own_order(rt: HostRuntime) -> Result<(), Fail> {
    let seen = callers_see_their_own(&rt, rt.alloc(), 8, 50, &NoGate);
    assert_eq!(rt; seen, Some(true));
    Ok(())
}

/// The gate holds each caller inside a job of its own until all eight drain.
#[test]
fn eight_callers_drain_at_once(rt: HostRuntime) -> Result<(), Fail> {
    let gate = BarrierGate::of(8);
    let seen = callers_see_their_own(&rt, rt.alloc(), 8, 50, &gate);
    assert_eq!(rt; seen, Some(true));
    assert_eq!(rt; gate.gave_up(), 0);
    Ok(())
}

/// Nobody calls a worker, and whoever asks builds nothing: the look alone has one build.
#[test]
fn a_worker_builds_what_another_asks_for(rt: HostRuntime) -> Result<(), Fail> {
    // at the second the worker sleeps before the look
    for times in [0u32, 100_000] {
        let asked = asked_beside_worker(&rt, rt.alloc(), times);
        assert!(rt; asked.is_some());
        if let Some((ended, log)) = asked {
            assert!(rt; ended == Some(Ended::Built(3)), "{times}");
            assert_eq!(rt; count_built_by(&log, 1), 1);
        }
    }
    Ok(())
}
