//! The requests that are taken.

ghost use Rattle.std.specs.Prelude.{◌≡◌, ◌==◌, ◌&&◌, length};
ghost use Rattle.transforms.specs.Asked.{aead_takes, cipher_takes, mac_takes, is_plain};

use crate::aead::Aead;
use crate::request::{Dir, Request};

/// An IV of that size and no associated bytes.
fn is_plain(request: &Request, size: usize) -> bool
    ensures { result ≡ is_plain size request.now }
{
    request.iv.len() == size && request.aad.len() == 0
}

/// Whether a mode without a tag takes a request.
pub fn takes_plain(request: &Request, size: usize) -> bool
    ensures { result ≡ cipher_takes size request.now }
{
    match request.dir {
        Dir::Enc => is_plain(request, size),
        Dir::Dec => is_plain(request, size),
        Dir::Mac => false,
    }
}

/// Whether a MAC takes a request.
pub fn takes_mac(request: &Request) -> bool
    ensures { result ≡ mac_takes request.now }
{
    match request.dir {
        Dir::Enc => false,
        Dir::Dec => false,
        Dir::Mac => is_plain(request, 0),
    }
}

/// Whether a mode with a tag takes an IV of any size, with so many associated bytes and so many bytes of text.
pub fn takes_input<A: Aead>(aead: &A, iv: &[u8], aad: usize, text: usize) -> bool
    ensures { result ≡ (length iv.now == A.iv_size aead.now && A.takes_input aead.now iv.now aad text) }
{
    if iv.len() == aead.iv_len() {
        aead.takes(iv, aad, text)
    } else {
        false
    }
}

/// Whether a mode with a tag takes a request: a decryption is no shorter than its tag.
pub fn takes_aead<A: Aead>(aead: &A, request: &Request, authsize: usize) -> bool
    ensures { result ≡ aead_takes (A.takes_input aead.now) (A.iv_size aead.now) authsize request.now }
{
    let text = request.text.len();
    let aad = request.aad.len();
    match request.dir {
        Dir::Enc => takes_input(aead, request.iv.as_slice(), aad, text),
        Dir::Dec => {
            authsize <= text && takes_input(aead, request.iv.as_slice(), aad, text - authsize)
        }
        Dir::Mac => false,
    }
}
