//! The blocks that CCM makes of an IV, the associated bytes and the text's length (A.2, A.3).

ghost use Rattle.std.specs.Prelude.{◌≡◌, ◌+◌, ◌-◌, ◌≤◌, ◌<◌, ◌^◌, ◌/◌, ◌∷◌, ◌++◌, ℕ, length, map, take, drop, slice_index};
ghost use Rattle.std.specs.List.{range_with_len};
ghost use Rattle.std.specs.Int.{bytes_high_first};
ghost use Rattle.std_defs.specs.Ccm.{ccm_q, ccm_nonce, ccm_flags, ccm_first_block, ccm_associated, ccm_counter};
ghost use Rattle.std_defs.specs.Cmac.{chained};

use crate::chain::{chain_block, chain_padded};
use aes_block::BlockCipher;
use ctr_mode::CounterBlocks;

/// A byte, the IV's nonce, and a number in the q bytes behind it.
fn with_field(first: u8, iv: &[u8; 16], number: u64) -> [u8; 16]
    requires { slice_index iv.now 0 ≤ 7 }
    ensures { result ≡ first ∷ ccm_nonce iv.now ++ bytes_high_first (ccm_q iv.now) number }
{
    let q = iv[0] as usize + 1;
    let mut block = *iv;
    block[0] = first;
    block[16 - q..].copy_from_slice(&number.to_be_bytes()[8 - q..]);
    block
}

/// B 0 (A.2.1).
pub(crate) fn first_block(iv: &[u8; 16], tag_len: usize, aad: &[u8], text: &[u8]) -> [u8; 16]
    requires iv_taken { slice_index iv.now 0 ≤ 7 }
    requires tag_short { tag_len ≤ 16 }
    ensures { result ≡ ccm_first_block tag_len iv.now aad.now text.now }
{
    let adata = if aad.is_empty() { 0 } else { 64 };
    let flags = adata + 8 * (tag_len.saturating_sub(2) as u8 / 2) + iv[0];
    with_field(flags, iv, text.len() as u64)
}

/// Adds the associated bytes, behind their length, to the chain (A.2.2).
pub(crate) fn chain_associated<C: BlockCipher>(cipher: &C, chain: &mut [u8; 16], aad: &[u8])
    requires { length aad.now < 2 ^ 16 }
    ensures { chain.new ≡ chained (C.sealed cipher.now) chain.old (ccm_associated aad.now) (length (ccm_associated aad.now) / 16) }
{
    if aad.is_empty() {
        return;
    }
    let front = aad.len().min(14);
    let mut first = [0u8; 16];
    first[..2].copy_from_slice(&(aad.len() as u16).to_be_bytes());
    first[2..2 + front].copy_from_slice(&aad[..front]);
    chain_block(cipher, chain, &first);
    chain_padded(cipher, chain, &aad[front..]);
}

/// Ctr i (A.3).
pub(crate) fn counter_block(iv: &[u8; 16], i: u64) -> [u8; 16]
    requires { slice_index iv.now 0 ≤ 7 }
    ensures { result ≡ ccm_counter iv.now i }
{
    with_field(iv[0], iv, i)
}

/// The counter blocks of an IV from one on.
#[derive(Drop)]
pub(crate) struct Counter {
    pub(crate) iv: [u8; 16],
    pub(crate) next: u64,
    ghost taken: { slice_index iv 0 ≤ 7 },
}

impl CounterBlocks for Counter {
    ghost block = { λ counter n. ccm_counter counter.iv (n + counter.next) };

    fn first(&self) -> [u8; 16] {
        counter_block(&self.iv, self.next)
    }

    fn first_eight(&self) -> [[u8; 16]; 8] {
        [
            counter_block(&self.iv, self.next),
            counter_block(&self.iv, self.next.wrapping_add(1)),
            counter_block(&self.iv, self.next.wrapping_add(2)),
            counter_block(&self.iv, self.next.wrapping_add(3)),
            counter_block(&self.iv, self.next.wrapping_add(4)),
            counter_block(&self.iv, self.next.wrapping_add(5)),
            counter_block(&self.iv, self.next.wrapping_add(6)),
            counter_block(&self.iv, self.next.wrapping_add(7)),
        ]
    }

    fn skip(&mut self, count: u64) {
        self.next = self.next.wrapping_add(count);
    }
}
