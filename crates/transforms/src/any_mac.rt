//! The MACs.

ghost use Rattle.std.specs.Prelude.{◌≡◌, ◌++◌, ◌<◌, ◌≤◌, ◌^◌, [], true, false, length, vec_capacity, replicate, MatchOption, MatchResult, Some, None};
ghost use Rattle.std_defs.specs.Aes.{seal};
ghost use Rattle.std_defs.specs.Cmac.{cmac};
ghost use Rattle.templates.specs.declared.driver_plans.Plan.TheVariants as plan;
ghost use Rattle.transforms.specs.Asked.{text_to_join};
ghost use Rattle.transforms.specs.Forms.{key_of};
ghost use Rattle.transforms.specs.Kept.{IsNotKept};
ghost use Rattle.transforms.specs.Plans.{takes_key};

use crate::any_aes::AnyAes;
use crate::room::{add_text, add_zeros};
use crate::tfm_err::TfmErr;
use cmac_ccm::Cmac;
use hmac_sha::Mac;
use sg_walk::Segs;
use std::alloc::Global;
use templates::AesForm;

/// A MAC, under a key.
#[derive(Drop)]
pub enum AnyMac {
    Hmac(Mac),
    Cmac(Cmac<AnyAes>),
}

impl AnyMac {
    ghost use Rattle.transforms.specs.Macs.{IsMac, room_in, makes_of, aes_of};

    /// HMAC with SHA-256 under a key of any length.
    pub fn hmac(key: &[u8]) -> AnyMac
        ensures { IsMac result plan.Hmac key.now }
    {
        AnyMac::Hmac(Mac::new(key))
    }

    /// CMAC under a key. `Inval` exactly where the key hasn't 16, 24 or 32 bytes.
    pub fn cmac(alloc: Global, form: AesForm, key: &[u8]) -> Result<AnyMac, TfmErr>
        ensures { MatchResult result
            (λ m. (takes_key (plan.Cmac form) key.now ≡ true) × IsMac m (plan.Cmac form) key.now)
            (λ e. IsNotKept e (takes_key (plan.Cmac form) key.now)) }
    {
        Ok(AnyMac::Cmac(Cmac::new(AnyAes::new(alloc, form, key)?)))
    }

    /// The cipher under it, or none under HMAC.
    pub fn aes(&self) -> Option<&AnyAes>
        ensures { MatchOption result (aes_of self.now ≡ None) (λ a. aes_of self.now ≡ Some a.now) }
    {
        match self {
            AnyMac::Hmac(_) => None,
            AnyMac::Cmac(mac) => Some(mac.cipher()),
        }
    }

    /// How many bytes the room for the MAC of a text has. HMAC goes over the segments of the text. CMAC takes it in one
    /// piece, which stands before the MAC's place where the text lies in several segments.
    pub fn room_length(&self, text: &Segs) -> usize
        requires { length text.now.text < 2 ^ 32 }
        ensures { result ≡ length (room_in self.now text.now) }
    {
        match self {
            AnyMac::Hmac(_) => HMAC_SIZE,
            AnyMac::Cmac(_) => cmac_room_length(text),
        }
    }

    /// Writes what the room for the MAC of a text begins with. No memory is taken.
    pub fn fill(&self, text: &Segs, room: &mut Vec<u8>)
        requires empty { room.old.items ≡ [] }
        requires reserved { length (room_in self.now text.now) ≤ vec_capacity room.old }
        ensures { room.new.items ≡ room_in self.now text.now }
    {
        match self {
            AnyMac::Hmac(_) => add_zeros(room, HMAC_SIZE),
            AnyMac::Cmac(_) => fill_for_cmac(text, room),
        }
    }

    /// Makes the MAC of a text in its room.
    pub fn make(&self, text: &Segs, room: &mut Vec<u8>)
        requires { room.old.items ≡ room_in self.now text.now }
        ensures { room.new.items ≡ makes_of self.now text.now.text }
    {
        match self {
            AnyMac::Hmac(mac) => room.copy_from_slice(&mac.mac_segs(&[], text)),
            AnyMac::Cmac(mac) => {
                let made = cmac_of(mac, text, room.as_slice());
                room.truncate(CMAC_SIZE);
                room.copy_from_slice(&made);
            }
        }
    }
}

/// The bytes of a MAC of HMAC with SHA-256.
const HMAC_SIZE: usize = 32;

/// The bytes of a MAC of CMAC.
const CMAC_SIZE: usize = 16;

/// The bytes of the CMAC of a text, and of the text where it lies in several segments.
fn cmac_room_length(text: &Segs) -> usize
    requires { length text.now.text < 2 ^ 32 }
    ensures { result ≡ length (text_to_join text.now ++ replicate 16 0) }
{
    match text.single() {
        Some(_) => CMAC_SIZE,
        None => text.len() + CMAC_SIZE,
    }
}

/// Writes the text where it lies in several segments, and zeros for its CMAC.
fn fill_for_cmac(text: &Segs, room: &mut Vec<u8>)
    requires empty { room.old.items ≡ [] }
    requires reserved { length (text_to_join text.now ++ replicate 16 0) ≤ vec_capacity room.old }
    ensures { room.new.items ≡ text_to_join text.now ++ replicate 16 0 }
{
    if text.single().is_none() {
        add_text(room, text);
    }
    add_zeros(room, CMAC_SIZE);
}

/// The CMAC of a text, which stands in the room where it lies in several segments.
fn cmac_of(mac: &Cmac<AnyAes>, text: &Segs, room: &[u8]) -> [u8; 16]
    requires { room.now ≡ text_to_join text.now ++ replicate 16 0 }
    ensures { result ≡ cmac (seal (key_of mac.now)) text.now.text }
{
    match text.single() {
        Some(bytes) => mac.mac(bytes),
        None => mac.mac(&room[..text.len()]),
    }
}
