//! Bytes of a known number.

ghost use Rattle.std.specs.Prelude.{◌≡◌, length};

/// The bytes of a block.
pub(crate) fn block_of(bytes: &[u8]) -> [u8; 16]
    requires { length bytes.now ≡ 16 }
    ensures { result ≡ bytes.now }
{
    let mut block = [0; 16];
    block.copy_from_slice(bytes);
    block
}

/// The bytes of a nonce.
pub(crate) fn nonce_of(bytes: &[u8]) -> [u8; 12]
    requires { length bytes.now ≡ 12 }
    ensures { result ≡ bytes.now }
{
    let mut nonce = [0; 12];
    nonce.copy_from_slice(bytes);
    nonce
}
