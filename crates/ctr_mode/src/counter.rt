//! Counters of a whole block.

ghost use Rattle.std.specs.Prelude.{◌≡◌, ◌+◌, ◌%◌, ◌^◌, map};
ghost use Rattle.std.specs.List.{range_with_len};
ghost use Rattle.std_defs.specs.Blocks.{block_number as number_of, block_bytes as bytes_of};

use crate::key_stream::CounterBlocks;
use std_defs::{block_bytes, block_number};

/// The counter blocks from one on, each one more than the one before as a number of 128 bits.
#[derive(Drop)]
pub struct Counter {
    /// The first of them, its bytes read with the high one first.
    pub next: u128,
}

impl Counter {
    /// The counter that begins with a block.
    pub fn from_block(first: [u8; 16]) -> Counter
        ensures { result.next ≡ number_of first }
    {
        Counter {
            next: block_number(first),
        }
    }
}

impl CounterBlocks for Counter {
    ghost block = { λ counter n. bytes_of ((counter.next + n) % 2 ^ 128) };

    fn first(&self) -> [u8; 16] {
        block_bytes(self.next)
    }

    fn first_eight(&self) -> [[u8; 16]; 8] {
        [
            block_bytes(self.next),
            block_bytes(self.next.wrapping_add(1)),
            block_bytes(self.next.wrapping_add(2)),
            block_bytes(self.next.wrapping_add(3)),
            block_bytes(self.next.wrapping_add(4)),
            block_bytes(self.next.wrapping_add(5)),
            block_bytes(self.next.wrapping_add(6)),
            block_bytes(self.next.wrapping_add(7)),
        ]
    }

    fn skip(&mut self, count: u64) {
        self.next = self.next.wrapping_add(u128::from(count));
    }
}
