//! What the lanes take of their asks, and what they answer.

ghost use Rattle.std.specs.Prelude.{◌≡◌, ◌<◌, ℕ, [], Some, None, length, slice_index, slice_index_or};
ghost use Rattle.std.specs.Arc.{arc_value};
ghost use Rattle.std.specs.Global.{Global as GlobalAlloc};
ghost use Rattle.std.specs.Option.{option_map};
ghost use Rattle.std.specs.declared.sync.Arc.{Arc as ArcValue};
ghost use Rattle.std_defs.specs.Value.Value.{bytes};
ghost use Rattle.in_step.specs.Pieces.{piece};
ghost use Rattle.transforms.specs.Finish.{finished_value};
ghost use Rattle.transforms.specs.declared.ask.Ask.{Ask as AskValue};
ghost use Rattle.jobs_in_step.specs.Lanes.{text_in, text_length, aad_in};

use kc_base::Bytes;
use std::alloc::Global;
use std::mem;
use std::sync::Arc;
use transforms::{Ask, Finished};

fn length_of(ask: &Option<Arc<Ask>>) -> usize
    ensures { result ≡ text_length ask.now }
{
    match ask {
        Some(ask) => ask.request.text.len(),
        None => 0,
    }
}

/// How many bytes each text has.
pub fn lengths_of(asks: &[Option<Arc<Ask>>; 8]) -> [usize; 8]
    ensures { (n : ℕ) → n < 8 → slice_index result n ≡ text_length (slice_index_or asks.now n None) }
{
    [
        length_of(&asks[0]),
        length_of(&asks[1]),
        length_of(&asks[2]),
        length_of(&asks[3]),
        length_of(&asks[4]),
        length_of(&asks[5]),
        length_of(&asks[6]),
        length_of(&asks[7]),
    ]
}

/// The IV, where it has 16 bytes.
fn iv_of(ask: &Option<Arc<Ask>>) -> [u8; 16]
    ensures { (a : ArcValue AskValue GlobalAlloc) → ask.now ≡ Some a → length (arc_value a).request.iv ≡ 16
        → result ≡ (arc_value a).request.iv }
{
    let mut iv = [0u8; 16];
    if let Some(ask) = ask {
        if ask.request.iv.len() == 16 {
            iv.copy_from_slice(ask.request.iv.as_slice());
        }
    }
    iv
}

/// The IV of each request, where it has 16 bytes.
pub fn ivs_of(asks: &[Option<Arc<Ask>>; 8]) -> [[u8; 16]; 8]
    ensures { (n : ℕ) (a : ArcValue AskValue GlobalAlloc) → n < 8 → slice_index_or asks.now n None ≡ Some a
        → length (arc_value a).request.iv ≡ 16 → slice_index_or result n [] ≡ (arc_value a).request.iv }
{
    [
        iv_of(&asks[0]),
        iv_of(&asks[1]),
        iv_of(&asks[2]),
        iv_of(&asks[3]),
        iv_of(&asks[4]),
        iv_of(&asks[5]),
        iv_of(&asks[6]),
        iv_of(&asks[7]),
    ]
}

fn aad_of(ask: &Option<Arc<Ask>>) -> &[u8]
    ensures { result.now ≡ aad_in ask.now }
{
    match ask {
        Some(ask) => ask.request.aad.as_slice(),
        None => &[],
    }
}

/// The associated bytes of each request.
pub fn aads_of(asks: &[Option<Arc<Ask>>; 8]) -> [&[u8]; 8]
    ensures { (n : ℕ) → n < 8 → piece result n ≡ aad_in (slice_index_or asks.now n None) }
{
    [
        aad_of(&asks[0]),
        aad_of(&asks[1]),
        aad_of(&asks[2]),
        aad_of(&asks[3]),
        aad_of(&asks[4]),
        aad_of(&asks[5]),
        aad_of(&asks[6]),
        aad_of(&asks[7]),
    ]
}

/// The text as the answer to an ask, where there is one.
fn answer_of(alloc: Global, ask: &Option<Arc<Ask>>, text: &mut Vec<u8>) -> Option<Finished>
    ensures { option_map finished_value result ≡ option_map (λ a. bytes text.old.items) ask.now }
{
    match ask {
        Some(_) => {
            let made = mem::replace(text, Vec::new(alloc));
            Some(Finished::Bytes(Bytes::from_vec(made)))
        }
        None => None,
    }
}

/// The text of each lane, moved into the answer to its ask, where there is one.
pub fn answers_of(
    alloc: Global,
    asks: &[Option<Arc<Ask>>; 8],
    texts: &mut [Vec<u8>; 8],
) -> [Option<Finished>; 8]
    ensures { (n : ℕ) → n < 8 → option_map finished_value (slice_index_or result n None)
        ≡ option_map (λ a. bytes (text_in texts.old n)) (slice_index_or asks.now n None) }
{
    let mut answers = [None, None, None, None, None, None, None, None];
    for n in 0..8usize {
        answers[n] = answer_of(alloc, &asks[n], &mut texts[n]);
    }
    answers
}
