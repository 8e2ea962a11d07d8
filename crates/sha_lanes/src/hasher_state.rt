//! Where a hasher stands.

ghost use Rattle.std.specs.Prelude.{◌≡◌, ℕ, List, ◌/◌, ◌%◌, ◌^◌, length};
ghost use Rattle.sha2.specs.Sha256.{hash_after, initial_hash_256};
ghost use Rattle.sha_lanes.specs.Hashers.{HasAbsorbed};

use crate::hasher::Sha256;

impl Sha256 {
    /// The hash value behind the whole blocks of the message that it holds.
    #[tactic(auto, unfolding(crate::specs::Hashers::HasAbsorbed))]
    pub fn value(&self) -> [u32; 8]
        ensures { (m : List ℕ) → HasAbsorbed self.now m → result ≡ hash_after initial_hash_256 m (length m / 64) }
    {
        self.state
    }

    /// How many bytes the message has, modulo 2^64.
    #[tactic(auto, unfolding(crate::specs::Hashers::HasAbsorbed))]
    pub fn taken(&self) -> u64
        ensures { (m : List ℕ) → HasAbsorbed self.now m → result ≡ length m % 2 ^ 64 }
    {
        self.length
    }
}
