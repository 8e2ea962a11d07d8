//! Requests to a mode under its key. A job's buffer begins with the text, and becomes the answer.

ghost use Rattle.std.specs.Prelude.{◌≡◌, ◌≤◌, ◌<◌, ◌^◌, ◌+◌, ◌-◌, length, true, take, drop, IsTrue, MatchResult};
ghost use Rattle.std_defs.specs.Value.Value.{bytes, invalid};
ghost use Rattle.transforms.specs.Macs.{room_in, makes_of};
ghost use Rattle.aes_block.specs.Opened.{IsRefusal};
ghost use Rattle.transforms.specs.Modes.{cipher_value, aead_value};
ghost use Rattle.transforms.specs.Asked.{aead_room, aead_takes};
ghost use Rattle.transforms.specs.Finish.{finished_value};

use crate::aead::Aead;
use crate::any_mac::AnyMac;
use crate::request::{Dir, Finished, Request};
use aes_block::Skcipher;
use kc_base::{Bytes, Errno};

/// A request to a cipher.
pub fn run_cipher<S: Skcipher>(cipher: &S, request: &Request, buffer: Vec<u8>) -> Finished
    requires iv_fits { length request.now.iv ≡ S.iv_size cipher.now }
    requires text { buffer.items ≡ request.now.text.text }
    ensures { finished_value result ≡ cipher_value (S.seals cipher.now) (S.unseals cipher.now) request.now }
{
    let mut buffer = buffer;
    let answer = match request.dir {
        Dir::Enc => cipher.seal(request.iv.as_slice(), buffer.as_mut_slice()),
        Dir::Dec => cipher.unseal(request.iv.as_slice(), buffer.as_mut_slice()),
        Dir::Mac => Err(Errno::EINVAL),
    };
    match answer {
        Ok(()) => Finished::Bytes(Bytes::from_vec(buffer)),
        Err(_) => Finished::Invalid,
    }
}

/// A request to a MAC.
pub fn run_mac(mac: &AnyMac, request: &Request, buffer: Vec<u8>) -> Finished
    requires { buffer.items ≡ room_in mac.now request.now.text }
    ensures { finished_value result ≡ bytes (makes_of mac.now request.now.text.text) }
{
    let mut buffer = buffer;
    mac.make(&request.text, &mut buffer);
    Finished::Bytes(Bytes::from_vec(buffer))
}

/// Seals the front of the buffer, and writes the tag behind it.
fn seal_front<A: Aead>(
    aead: &A,
    iv: &[u8],
    aad: &[u8],
    buffer: &mut [u8],
    n: usize,
) -> Result<(), Errno>
    requires within { n ≤ length buffer.old }
    requires iv_fits { length iv.now ≡ A.iv_size aead.now }
    requires tag_fits { length buffer.old ≤ n + A.tag_size aead.now }
    requires tag_taken { IsTrue (A.takes_tag aead.now (length buffer.old - n)) }
    requires input_taken { IsTrue (A.takes_input aead.now iv.now (length aad.now) n) }
    requires aad_short { length aad.now < 2 ^ 32 }
    requires text_short { n < 2 ^ 32 }
    ensures { MatchResult result
        (λ _. A.seals aead.now (length buffer.old - n) iv.now aad.now (take n buffer.old) ≡ bytes buffer.new)
        (λ e. (e ≡ Errno.EINVAL) × (A.seals aead.now (length buffer.old - n) iv.now aad.now (take n buffer.old) ≡ invalid)) }
{
    let (text, tag) = buffer.split_at_mut(n);
    aead.seal(iv, aad, text, tag)
}

/// Unseals the front of the buffer, under the tag behind it.
fn unseal_front<A: Aead>(
    aead: &A,
    iv: &[u8],
    aad: &[u8],
    buffer: &mut [u8],
    n: usize,
) -> Result<(), Errno>
    requires within { n ≤ length buffer.old }
    requires iv_fits { length iv.now ≡ A.iv_size aead.now }
    requires tag_fits { length buffer.old ≤ n + A.tag_size aead.now }
    requires tag_taken { IsTrue (A.takes_tag aead.now (length buffer.old - n)) }
    requires input_taken { IsTrue (A.takes_input aead.now iv.now (length aad.now) n) }
    requires aad_short { length aad.now < 2 ^ 32 }
    requires text_short { n < 2 ^ 32 }
    ensures { MatchResult result
        (λ _. A.opens aead.now iv.now aad.now (take n buffer.old) (drop n buffer.old) ≡ bytes (take n buffer.new))
        (λ e. IsRefusal e (A.opens aead.now iv.now aad.now (take n buffer.old) (drop n buffer.old))) }
{
    let (text, tag) = buffer.split_at_mut(n);
    aead.unseal(iv, aad, text, tag)
}

/// A request to a mode with a tag.
pub fn run_aead<A: Aead>(aead: &A, authsize: usize, request: &Request, buffer: Vec<u8>) -> Finished
    requires taken { aead_takes (A.takes_input aead.now) (A.iv_size aead.now) authsize request.now ≡ true }
    requires tag_fits { authsize ≤ A.tag_size aead.now }
    requires tag_taken { IsTrue (A.takes_tag aead.now authsize) }
    requires aad_short { length request.now.aad < 2 ^ 32 }
    requires text_short { length request.now.text.text < 2 ^ 32 }
    requires room { buffer.items ≡ aead_room authsize request.now }
    ensures { finished_value result ≡ aead_value (A.seals aead.now) (A.opens aead.now) authsize request.now }
{
    let mut buffer = buffer;
    match request.dir {
        Dir::Enc => {
            let n = request.text.len();
            match seal_front(
                aead,
                request.iv.as_slice(),
                request.aad.as_slice(),
                buffer.as_mut_slice(),
                n,
            ) {
                Ok(()) => Finished::Bytes(Bytes::from_vec(buffer)),
                Err(_) => Finished::Invalid,
            }
        }
        Dir::Dec => {
            let n = request.text.len() - authsize;
            match unseal_front(
                aead,
                request.iv.as_slice(),
                request.aad.as_slice(),
                buffer.as_mut_slice(),
                n,
            ) {
                Ok(()) => {
                    buffer.truncate(n);
                    Finished::Bytes(Bytes::from_vec(buffer))
                }
                Err(Errno::EBADMSG) => Finished::BadMsg,
                Err(_) => Finished::Invalid,
            }
        }
        Dir::Mac => Finished::Invalid,
    }
}
