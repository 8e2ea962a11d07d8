//! A key as a block of 64 bytes, and the pads over it.

ghost use Rattle.std.specs.Prelude.{◌≡◌, ◌≤◌, ◌++◌, ◌-◌, length, replicate};
ghost use Rattle.std_defs.specs.Hmac.{block_key, xor_pad};

use sha_lanes::Sha256;
use sha2::Digest;

/// The bytes, and zeros behind them.
fn filled(front: &[u8]) -> [u8; 64]
    requires { length front.now ≤ 64 }
    ensures { result ≡ front.now ++ replicate (64 - length front.now) 0 }
{
    let mut block = [0u8; 64];
    block[..front.len()].copy_from_slice(front);
    block
}

/// The key as a block. A key of more than 64 bytes is hashed first.
#[tactic(auto, unfolding(std_defs::specs::Hmac::block_key, std_defs::specs::Hmac::short_key))]
pub fn block_of(key: &[u8]) -> [u8; 64]
    ensures { result ≡ block_key key.now }
{
    if key.len() > 64 {
        filled(&Sha256::digest(key))
    } else {
        filled(key)
    }
}

/// Xors the pad into each byte of the block.
pub fn add_pad(block: &mut [u8; 64], pad: u8)
    ensures { block.new ≡ xor_pad pad block.old }
{
    for byte in block.iter_mut() {
        *byte ^= pad;
    }
}
