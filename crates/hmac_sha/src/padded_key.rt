//! The hashers behind the padded blocks of a key.

ghost use Rattle.std.specs.Prelude.{◌≡◌, length};
ghost use Rattle.std_defs.specs.Hmac.{xor_pad};
ghost use Rattle.sha_lanes.specs.Hashers.{HasAbsorbed};

use crate::mac::Mac;
use sha_lanes::Sha256;

impl Mac {
    /// The hasher that has taken the block with the inner pad, and nothing behind it.
    #[tactic(auto, unfolding(std_defs::specs::Hmac::xor_pad))]
    pub fn inner(&self) -> &Sha256
        ensures taken { HasAbsorbed result.now (xor_pad 0x36 self.now) }
        ensures block { length (xor_pad 0x36 self.now) ≡ 64 }
    {
        &self.inner
    }

    /// The hasher that has taken the block with the outer pad, and nothing behind it.
    #[tactic(auto, unfolding(std_defs::specs::Hmac::xor_pad))]
    pub fn outer(&self) -> &Sha256
        ensures taken { HasAbsorbed result.now (xor_pad 0x5c self.now) }
        ensures block { length (xor_pad 0x5c self.now) ≡ 64 }
    {
        &self.outer
    }
}
