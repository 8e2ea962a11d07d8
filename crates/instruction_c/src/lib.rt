//! The functions of `instructions` as a C program calls them, and AES over them, for tools/check-instructions. It is no
//! interface for other uses.
#![tactic(auto)]

mod aes;
mod products;

ghost use Rattle.std.specs.Prelude.{◌≡◌, length};

use aes_block::BlockCipher;
use aes_ni::NiAes;
use instructions::has_instructions;

/// Whether the functions are instructions.
#[unsafe(no_mangle)]
pub extern "C" fn instruction_presence() -> bool {
    has_instructions()
}

/// Seals eight blocks by AES over these functions.
#[unsafe(no_mangle)]
pub extern "C" fn instruction_seal(key: &[u8], blocks: &mut [[u8; 16]; 8])
    requires { length key.now ≡ 16 }
{
    NiAes::new(key).unwrap().seal_eight(blocks);
}

/// Unseals eight blocks by AES over these functions.
#[unsafe(no_mangle)]
pub extern "C" fn instruction_unseal(key: &[u8], blocks: &mut [[u8; 16]; 8])
    requires { length key.now ≡ 16 }
{
    NiAes::new(key).unwrap().unseal_eight(blocks);
}

/// Seals one block, and unseals another, by AES over these functions.
#[unsafe(no_mangle)]
pub extern "C" fn instruction_one_each(key: &[u8], sealed: &mut [u8; 16], unsealed: &mut [u8; 16])
    requires { length key.now ≡ 16 }
{
    let aes = NiAes::new(key).unwrap();
    aes.seal_block(sealed);
    aes.unseal_block(unsealed);
}
