//! SubWord of the key schedule, by AESENCLAST.

ghost use Rattle.std.specs.Prelude.{◌≡◌};

use aes_block::SubWord;
use instructions::aesenclast;
use std::simd::prelude::*;

/// The S-box by the last round of sealing, under a key of zeros. No table is read where that is the instruction.
pub(crate) struct ByInstruction {}

impl SubWord for ByInstruction {
    /// ShiftRows moves no byte of a state whose columns are the same.
    fn sub_word(w: [u8; 4]) -> [u8; 4] {
        let [a, b, c, d] = w;
        let columns = u8x16::from_array([a, b, c, d, a, b, c, d, a, b, c, d, a, b, c, d]);
        let made = aesenclast(columns, u8x16::splat(0)).to_array();
        [made[0], made[1], made[2], made[3]]
    }
}
