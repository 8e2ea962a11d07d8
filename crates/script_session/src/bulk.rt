//! `bulk`: a long text sealed in chunks.

ghost use Rattle.std.specs.Prelude.{◌≡◌, ◌<◌, ◌≤◌, ◌^◌, ℕ, true, Some, IfOk, MatchResult};
ghost use Rattle.dialogues.specs.Bulk.{bulk, bulk_counter, bulk_digest as digest_of, bulk_said, bulk_text, is_ctr};
ghost use Rattle.reply_text.specs.declared.answers.Answer.TheVariants.{Refused};
ghost use Rattle.script_session.specs.PerformedDialogue.{Performs, StopsIn};
ghost use Rattle.script_session.specs.States.{StateMatches};
ghost use Rattle.transforms.specs.Forms.{key_of};

use crate::answers::{answer_errno, say};
use crate::scripts::Session;
use crate::transform::Transform;
use aes_block::BlockCipher;
use generator::Generator;
use kc_base::{Bytes, Errno};
use mt_jobs::{MtJob, chunk_of, ctr_chunked};
use recorded_calls::Stop;
use reply_text::Answer;
use sha2::{Digest, Sha256};
use std::alloc::{AllocError, Global};
use std::thread::Threads;
use templates::Plan;
use transforms::AnyAes;

/// The most bytes of a bulk.
const MOST_BYTES: u32 = 16_777_216;

/// The bytes that are worth a thread.
const MIN_CHUNK: u64 = 4_096;

// The cipher of a transform that computes CTR and has no pipeline. Why there is none is what `bulk` is refused by,
// whatever its size.
fn ctr_cipher(live: &Transform) -> Result<&AnyAes, Errno>
    ensures { MatchResult result
        (λ cipher. (is_ctr live.now.plan live.now.pipe ≡ true) × (live.now.key ≡ Some (key_of cipher.now)))
        (λ e. (n size seed : ℕ) → bulk_said n live.now size seed ≡ Refused n e) }
{
    let Some(keyed) = live.keyed() else {
        return Err(Errno::ENOKEY);
    };
    match (live.plan(), live.pipe()) {
        (Plan::Ctr(_), None) => keyed.cipher().ok_or(Errno::EINVAL),
        _ => Err(Errno::EINVAL),
    }
}

// A first counter block and a text of so many bytes, drawn from a seed.
fn draw(alloc: Global, size: u32, seed: u32) -> Result<([u8; 16], Vec<u8>), AllocError>
    ensures { IfOk result (λ drawn. (drawn.0 ≡ bulk_counter seed) × (drawn.1.items ≡ bulk_text size seed)) }
{
    let mut text = vec![in alloc; 0u8; size as usize]?;
    let mut counter = [0u8; 16];
    let mut generator = Generator::new(u64::from(seed));
    generator.fill(&mut counter);
    generator.fill(&mut text);
    Ok((counter, text))
}

// The digest of CTR of what is drawn, which is sealed in chunks for so many threads.
fn bulk_digest<R: Threads + Sync, C: BlockCipher + Sync>(
    rt: &R,
    alloc: Global,
    cipher: &C,
    threads: u32,
    size: u32,
    seed: u32,
) -> Result<[u8; 32], AllocError>
    requires threads { 0 < threads }
    requires size { size ≤ 2 ^ 24 }
    ensures { IfOk result (λ digest. digest ≡ digest_of (C.sealed cipher.now) size seed) }
{
    let (counter, mut text) = draw(alloc, size, seed)?;
    let job = MtJob {
        start: 0,
        size: u64::from(size),
        align: 16,
        min_chunk: MIN_CHUNK,
        max_threads: threads,
    };
    ctr_chunked(rt, cipher, &counter, &mut text, chunk_of(&job) as usize);
    Ok(Sha256::digest(text.as_slice()))
}

// The answer to a bulk of a transform.
fn bulk_answer<R: Threads + Sync>(
    rt: &R,
    alloc: Global,
    threads: u32,
    line: u32,
    live: &Transform,
    size: u32,
    seed: u32,
) -> Result<Answer, Stop>
    requires { 0 < threads }
    ensures { IfOk result (λ answer. answer ≡ bulk_said line live.now size seed) }
{
    let cipher = match ctr_cipher(live) {
        Ok(cipher) => cipher,
        Err(errno) => return Ok(Answer::Refused { line, errno }),
    };
    if size == 0 || size > MOST_BYTES {
        return Ok(Answer::Refused {
            line,
            errno: Errno::EINVAL,
        });
    }
    let digest = bulk_digest(rt, alloc, cipher, threads, size, seed)?;
    let bytes = Bytes::copy_of(alloc, &digest)?;
    Ok(Answer::Value { line, bytes })
}

impl Session {
    // `bulk T SIZE SEED`
    pub(crate) fn bulk<R: Threads + Sync>(
        &mut self,
        rt: &R,
        number: u32,
        label: &Bytes,
        size: u32,
        seed: u32,
        answers: &mut Vec<Answer>,
    ) -> Result<(), Stop>
        requires state { StateMatches self.old }
        ensures { MatchResult result
            (λ _. Performs (bulk self.old.script_state number label.now size seed) self.old self.new answers.old.items answers.new.items)
            (λ _. StopsIn (bulk self.old.script_state number label.now size seed) self.old self.new) }
    {
        let threads = self.workers.max(1);
        let Some(live) = self.either_of(label.as_slice()) else {
            return answer_errno(answers, number, Errno::ENOENT);
        };
        let answer = bulk_answer(rt, self.alloc, threads, number, live, size, seed)?;
        say(answers, answer)
    }
}
