//! The counter blocks of CTR.

ghost use Rattle.std.specs.Prelude.{◌+◌, ◌%◌, ◌^◌};
ghost use Rattle.std_defs.specs.Blocks.{block_bytes as bytes_of};

use ctr_mode::CounterBlocks;
use std_defs::block_bytes;

/// The counter blocks from one on, by its number.
#[derive(Drop)]
pub(crate) struct BlocksFrom(pub(crate) u128);

impl CounterBlocks for BlocksFrom {
    ghost block = { λ blocks n. bytes_of ((blocks.0 + n) % 2 ^ 128) };

    fn first(&self) -> [u8; 16] {
        block_bytes(self.0)
    }

    fn first_eight(&self) -> [[u8; 16]; 8] {
        [
            block_bytes(self.0),
            block_bytes(self.0.wrapping_add(1)),
            block_bytes(self.0.wrapping_add(2)),
            block_bytes(self.0.wrapping_add(3)),
            block_bytes(self.0.wrapping_add(4)),
            block_bytes(self.0.wrapping_add(5)),
            block_bytes(self.0.wrapping_add(6)),
            block_bytes(self.0.wrapping_add(7)),
        ]
    }

    fn skip(&mut self, count: u64) {
        self.0 = self.0.wrapping_add(u128::from(count));
    }
}
