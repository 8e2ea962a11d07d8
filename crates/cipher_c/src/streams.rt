//! Modes without a tag, over 16 bytes of key for each cipher and 16 bytes of IV.

ghost use Rattle.std.specs.Prelude.{◌≡◌, length};

use aes_block::{Aes, Skcipher};
use aes_lanes::LaneAes;
use aes_table::TableAes;
use cbc_mode::Cbc;
use ctr_mode::Ctr;
use xts_mode::Xts;

/// Seals by CTR, with AES by its S-box.
#[unsafe(no_mangle)]
pub extern "C" fn cipher_ctr_generic(key: &[u8], iv: &[u8], text: &mut [u8])
    requires key { length key.now ≡ 16 }
    requires iv { length iv.now ≡ 16 }
{
    let mode = Ctr::new(Aes::new(key).unwrap());
    let _ = mode.seal(iv, text);
}

/// Seals by CTR, with AES by tables.
#[unsafe(no_mangle)]
pub extern "C" fn cipher_ctr_table(key: &[u8], iv: &[u8], text: &mut [u8])
    requires key { length key.now ≡ 16 }
    requires iv { length iv.now ≡ 16 }
{
    let mode = Ctr::new(TableAes::new(key).unwrap());
    let _ = mode.seal(iv, text);
}

/// Seals by CTR, with AES in lanes.
#[unsafe(no_mangle)]
pub extern "C" fn cipher_ctr(key: &[u8], iv: &[u8], text: &mut [u8])
    requires key { length key.now ≡ 16 }
    requires iv { length iv.now ≡ 16 }
{
    let mode = Ctr::new(LaneAes::new(key).unwrap());
    let _ = mode.seal(iv, text);
}

/// Seals by CBC, with AES in lanes.
#[unsafe(no_mangle)]
pub extern "C" fn cipher_cbc_seal(key: &[u8], iv: &[u8], text: &mut [u8])
    requires key { length key.now ≡ 16 }
    requires iv { length iv.now ≡ 16 }
{
    let mode = Cbc::new(LaneAes::new(key).unwrap());
    let _ = mode.seal(iv, text);
}

/// Opens by CBC, with AES in lanes.
#[unsafe(no_mangle)]
pub extern "C" fn cipher_cbc_open(key: &[u8], iv: &[u8], text: &mut [u8])
    requires key { length key.now ≡ 16 }
    requires iv { length iv.now ≡ 16 }
{
    let mode = Cbc::new(LaneAes::new(key).unwrap());
    let _ = mode.unseal(iv, text);
}

/// Seals by XTS, with AES in lanes under the key for the data and that for the tweaks.
#[unsafe(no_mangle)]
pub extern "C" fn cipher_xts_seal(data_key: &[u8], tweak_key: &[u8], iv: &[u8], text: &mut [u8])
    requires data_key { length data_key.now ≡ 16 }
    requires tweak_key { length tweak_key.now ≡ 16 }
    requires iv { length iv.now ≡ 16 }
{
    let mode = Xts::new(
        LaneAes::new(data_key).unwrap(),
        LaneAes::new(tweak_key).unwrap(),
    );
    let _ = mode.seal(iv, text);
}

/// Opens by XTS, with AES in lanes under the key for the data and that for the tweaks.
#[unsafe(no_mangle)]
pub extern "C" fn cipher_xts_open(data_key: &[u8], tweak_key: &[u8], iv: &[u8], text: &mut [u8])
    requires data_key { length data_key.now ≡ 16 }
    requires tweak_key { length tweak_key.now ≡ 16 }
    requires iv { length iv.now ≡ 16 }
{
    let mode = Xts::new(
        LaneAes::new(data_key).unwrap(),
        LaneAes::new(tweak_key).unwrap(),
    );
    let _ = mode.unseal(iv, text);
}
