//! Modes with a tag, and MACs, over keys of 16 bytes and tags of 16.

ghost use Rattle.std.specs.Prelude.{◌≡◌, ◌<◌, ◌^◌, length};

use crate::arrays::{block_of, nonce_of};
use aes_lanes::LaneAes;
use authenc::Authenc;
use cbc_mode::Cbc;
use cmac_ccm::{Ccm, Cmac};
use gcm_mode::Gcm;
use ghash_field::{BitGhash, GhashKey, LaneGhash, ghash_of};
use hmac_sha::Mac;
use std_defs::block_bytes;

/// GHASH of the text bit by bit, under a hash subkey.
#[unsafe(no_mangle)]
pub extern "C" fn cipher_ghash_bits(key: &[u8], text: &[u8], tag: &mut [u8])
    requires key { length key.now ≡ 16 }
    requires tag { length tag.old ≡ 16 }
{
    let subkey = BitGhash::new(block_of(key));
    tag.copy_from_slice(&block_bytes(ghash_of(&subkey, &[], text, 0)));
}

/// Seals by GCM, in lanes both.
#[unsafe(no_mangle)]
pub extern "C" fn cipher_gcm_seal(
    key: &[u8],
    iv: &[u8],
    associated: &[u8],
    text: &mut [u8],
    tag: &mut [u8],
)
    requires key { length key.now ≡ 16 }
    requires iv { length iv.now ≡ 12 }
    requires associated_short { length associated.now < 2 ^ 32 }
    requires text_short { length text.old < 2 ^ 32 }
    requires tag { length tag.old ≡ 16 }
{
    let mode: Gcm<LaneAes, LaneGhash> = Gcm::new(LaneAes::new(key).unwrap());
    let mut full = [0; 16];
    mode.seal(&nonce_of(iv), associated, text, &mut full);
    tag.copy_from_slice(&full);
}

/// Opens by GCM, in lanes both: whether the tag is right.
#[unsafe(no_mangle)]
pub extern "C" fn cipher_gcm_open(
    key: &[u8],
    iv: &[u8],
    associated: &[u8],
    text: &mut [u8],
    tag: &[u8],
) -> bool
    requires key { length key.now ≡ 16 }
    requires iv { length iv.now ≡ 12 }
    requires associated_short { length associated.now < 2 ^ 32 }
    requires text_short { length text.old < 2 ^ 32 }
    requires tag { length tag.now ≡ 16 }
{
    let mode: Gcm<LaneAes, LaneGhash> = Gcm::new(LaneAes::new(key).unwrap());
    mode.unseal(&nonce_of(iv), associated, text, tag).is_ok()
}

/// Seals by CCM, with AES in lanes.
#[unsafe(no_mangle)]
pub extern "C" fn cipher_ccm_seal(
    key: &[u8],
    iv: &[u8],
    associated: &[u8],
    text: &mut [u8],
    tag: &mut [u8],
)
    requires key { length key.now ≡ 16 }
    requires iv { length iv.now ≡ 16 }
    requires associated_short { length associated.now < 65280 }
    requires text_short { length text.old < 65536 }
    requires tag { length tag.old ≡ 16 }
{
    let mode = Ccm::new(LaneAes::new(key).unwrap());
    let _ = mode.seal(&block_of(iv), associated, text, tag);
}

/// Opens by CCM, with AES in lanes: whether the tag is right.
#[unsafe(no_mangle)]
pub extern "C" fn cipher_ccm_open(
    key: &[u8],
    iv: &[u8],
    associated: &[u8],
    text: &mut [u8],
    tag: &[u8],
) -> bool
    requires key { length key.now ≡ 16 }
    requires iv { length iv.now ≡ 16 }
    requires associated_short { length associated.now < 65280 }
    requires text_short { length text.old < 65536 }
    requires tag { length tag.now ≡ 16 }
{
    let mode = Ccm::new(LaneAes::new(key).unwrap());
    mode.unseal(&block_of(iv), associated, text, tag).is_ok()
}

/// The MAC by CMAC, with AES in lanes.
#[unsafe(no_mangle)]
pub extern "C" fn cipher_cmac(key: &[u8], text: &[u8], tag: &mut [u8])
    requires key { length key.now ≡ 16 }
    requires tag { length tag.old ≡ 16 }
{
    let mode = Cmac::new(LaneAes::new(key).unwrap());
    tag.copy_from_slice(&mode.mac(text));
}

/// The first 16 bytes of the MAC by HMAC.
#[unsafe(no_mangle)]
pub extern "C" fn cipher_hmac(key: &[u8], text: &[u8], tag: &mut [u8])
    requires { length tag.old ≡ 16 }
{
    tag.copy_from_slice(&Mac::new(key).mac(text, &[])[..16]);
}

/// Seals by CBC, with AES in lanes, and makes the first 16 bytes of the MAC. One key serves for both.
#[unsafe(no_mangle)]
pub extern "C" fn cipher_authenc_seal(
    key: &[u8],
    iv: &[u8],
    associated: &[u8],
    text: &mut [u8],
    tag: &mut [u8],
)
    requires key { length key.now ≡ 16 }
    requires iv { length iv.now ≡ 16 }
    requires tag { length tag.old ≡ 16 }
{
    let mode = Authenc::new(Mac::new(key), Cbc::new(LaneAes::new(key).unwrap()));
    let mut full = [0; 32];
    let _ = mode.seal(iv, associated, text, &mut full);
    tag.copy_from_slice(&full[..16]);
}

/// Opens by CBC, with AES in lanes, under the first 16 bytes of the MAC: whether they are right.
#[unsafe(no_mangle)]
pub extern "C" fn cipher_authenc_open(
    key: &[u8],
    iv: &[u8],
    associated: &[u8],
    text: &mut [u8],
    tag: &[u8],
) -> bool
    requires key { length key.now ≡ 16 }
    requires iv { length iv.now ≡ 16 }
    requires tag { length tag.now ≡ 16 }
{
    let mode = Authenc::new(Mac::new(key), Cbc::new(LaneAes::new(key).unwrap()));
    mode.unseal(iv, associated, text, tag).is_ok()
}
