//! SubWord of the key schedule, by the S-box of the lanes.

ghost use Rattle.std.specs.Prelude.{◌≡◌};

use crate::one_block::{one_in_tower, one_made_last};
use aes_block::SubWord;
use std::simd::prelude::*;

/// The S-box in a vector: no place that is read depends on the bytes.
pub(crate) struct ByLanes {}

impl SubWord for ByLanes {
    fn sub_word(w: [u8; 4]) -> [u8; 4] {
        let lanes = u8x16::from_array([w[0], w[1], w[2], w[3], 0, 0, 0, 0, 0, 0, 0, 0, 0, 0, 0, 0]);
        let made = one_made_last(one_in_tower(lanes)).to_array();
        [made[0], made[1], made[2], made[3]]
    }
}
