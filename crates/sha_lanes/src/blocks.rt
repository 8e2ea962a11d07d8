//! Whole blocks, taken into a hash value (6.2.2).

ghost use Rattle.std.specs.Prelude.{◌≡◌, ◌*◌, ◌/◌, ◌<◌, ◌≤◌, length};
ghost use Rattle.sha2.specs.Sha256.{hash_after};

use crate::lane_rounds::lane_compressed;
use crate::lanes::write_eight;
use crate::one_block::compressed;

/// Takes in blocks one by one.
fn take_one_by_one(state: &mut [u32; 8], bytes: &[u8])
    ensures { state.new ≡ hash_after state.old bytes.now (length bytes.now / 64) }
{
    for i in 0..bytes.len() / 64 {
        *state = compressed(*state, &bytes[64 * i..64 * i + 64]);
    }
}

/// Takes in the first blocks of eight, in room for their words.
fn take_first(state: &mut [u32; 8], rows: &mut [[u32; 8]; 64], blocks: &[u8], count: usize)
    requires blocks { length blocks.now ≡ 512 }
    requires count { count ≤ 8 }
    ensures { state.new ≡ hash_after state.old blocks.now count }
{
    write_eight(rows, blocks);
    for lane in 0..count {
        *state = lane_compressed(*state, rows, lane);
    }
}

/// Takes in the whole blocks of fewer bytes than eight have. The words of fewer than three are computed sooner one by
/// one.
fn take_rest(state: &mut [u32; 8], rows: &mut [[u32; 8]; 64], bytes: &[u8])
    requires { length bytes.now < 512 }
    ensures { state.new ≡ hash_after state.old bytes.now (length bytes.now / 64) }
{
    if bytes.len() < 192 {
        take_one_by_one(state, bytes);
    } else {
        let mut blocks = [0u8; 512];
        blocks[..bytes.len()].copy_from_slice(bytes);
        take_first(state, rows, &blocks, bytes.len() / 64);
    }
}

/// Takes in the whole blocks of the bytes, eight at a time.
fn take_in_lanes(state: &mut [u32; 8], bytes: &[u8])
    ensures { state.new ≡ hash_after state.old bytes.now (length bytes.now / 64) }
{
    let mut rows = [[0u32; 8]; 64];
    let batches = bytes.len() / 512;
    for i in 0..batches {
        take_first(state, &mut rows, &bytes[512 * i..512 * i + 512], 8);
    }
    take_rest(state, &mut rows, &bytes[512 * batches..]);
}

/// Takes in the whole blocks of the bytes. Fewer than three need no room for eight.
pub(crate) fn take_blocks(state: &mut [u32; 8], bytes: &[u8])
    ensures { state.new ≡ hash_after state.old bytes.now (length bytes.now / 64) }
{
    if bytes.len() < 192 {
        take_one_by_one(state, bytes);
    } else {
        take_in_lanes(state, bytes);
    }
}
