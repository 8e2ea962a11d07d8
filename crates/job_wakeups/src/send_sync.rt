//! The wake-ups may be shared by threads.

use crate::wakeups::JobWakeups;

fn is_shared<X: Send + Sync>(_x: &X) {}

pub fn can_be_shared(wakeups: &JobWakeups) {
    is_shared(wakeups);
}
