//! The comparison of secrets.

ghost use Rattle.perdoaze_calls.specs.Comparison.{Compares};

use crate::status::Status;
use aes_block::tags_differ;

/// Compares two texts: `BadMessage` where they differ. Where they are equally long, each byte is looked at.
pub fn compare(a: &[u8], b: &[u8]) -> Status
    ensures { Compares a.now b.now result }
{
    if a.len() != b.len() {
        return Status::BadMessage;
    }
    if tags_differ(a, b) {
        Status::BadMessage
    } else {
        Status::Done
    }
}
