//! Several encryptions at one call.

ghost use Rattle.std.specs.Prelude.{◌≡◌, ◌<◌, ◌≤◌, ◌+◌, ◌^◌, ℕ, [], Some, IsTrue, IsFalse, length, map, slice_index, slice_index_or};
ghost use Rattle.in_step.specs.Pieces.{piece};
ghost use Rattle.perdoaze_calls.specs.Many.{CameTo, FitsInStep, question_of, iv_in, aad_in, len_in, written_in, status_in, bytes_in};
ghost use Rattle.piece_modes.specs.Pieces.{size_of};
ghost use Rattle.perdoaze_calls.specs.Requests.{EncryptsWithin};
ghost use Rattle.perdoaze_calls.specs.Status.{code_of};

use crate::encryption::Encryption;
use crate::status::Status;
use crate::transform::Transform;
use jobs_in_step::{StepKey, seal_fronts, step_key};
use piece_modes::PieceMut;
use transforms::Keyed;

/// Answers one request in its buffer.
fn answer_one(transform: &Transform, asked: &mut Encryption<'_>, buffer: &mut [u8])
    ensures came { (status : Status) × (asked.new.status ≡ code_of status)
        × EncryptsWithin transform.now asked.old.iv.now asked.old.aad.now asked.old.len status buffer.old buffer.new asked.new.written }
    ensures kept { question_of asked.new ≡ question_of asked.old }
    ensures size { length buffer.new ≡ length buffer.old }
{
    let mut written = 0;
    let status = transform.encrypt_within(asked.iv, asked.aad, buffer, asked.len, &mut written);
    asked.status = status.code();
    asked.written = written;
}

/// Answers each request by itself.
fn answer_each(transform: &Transform, asked: &mut [Encryption<'_>], buffers: &mut [PieceMut<'_>])
    ensures came { (i : ℕ) → i < length asked.old → i < length buffers.old
        → CameTo (Some transform.now) asked.old asked.new buffers.old buffers.new i }
    ensures kept { map question_of asked.new ≡ map question_of asked.old }
    ensures sizes { map size_of buffers.new ≡ map size_of buffers.old }
{
    for i in 0..asked.len().min(buffers.len()) {
        answer_one(transform, &mut asked[i], buffers[i].bytes);
    }
}

/// Refuses each request.
pub fn refuse_each(asked: &mut [Encryption<'_>])
    ensures refused { (i : ℕ) → i < length asked.old
        → (status_in asked.new i ≡ code_of Status.Invalid) × (written_in asked.new i ≡ 0) }
    ensures kept { map question_of asked.new ≡ map question_of asked.old }
{
    for i in 0..asked.len() {
        refuse(&mut asked[i]);
    }
}

fn refuse(asked: &mut Encryption<'_>)
    ensures refused { (asked.new.status ≡ code_of Status.Invalid) × (asked.new.written ≡ 0) }
    ensures kept { question_of asked.new ≡ question_of asked.old }
{
    asked.status = Status::Invalid.code();
    asked.written = 0;
}

/// Writes down that the request is done.
fn mark(asked: &mut Encryption<'_>, tag_size: usize)
    requires { asked.old.len + tag_size < 2 ^ 64 }
    ensures marked { (asked.new.status ≡ code_of Status.Done) × (asked.new.written ≡ asked.old.len + tag_size) }
    ensures kept { question_of asked.new ≡ question_of asked.old }
{
    asked.status = Status::Done.code();
    asked.written = asked.len + tag_size;
}

/// Writes down that each request is done.
fn mark_each(asked: &mut [Encryption<'_>], tag_size: usize)
    requires tag { tag_size ≤ 32 }
    requires short { (i : ℕ) → i < length asked.old → len_in asked.old i < 2 ^ 32 }
    ensures marked { (i : ℕ) → i < length asked.old
        → (status_in asked.new i ≡ code_of Status.Done) × (written_in asked.new i ≡ len_in asked.old i + tag_size) }
    ensures kept { map question_of asked.new ≡ map question_of asked.old }
{
    for i in 0..asked.len() {
        mark(&mut asked[i], tag_size);
    }
}

/// Whether the request goes in step: whole blocks under an IV of 16 bytes, and room for the tag behind them.
fn fits(key: StepKey<'_>, tag_size: usize, asked: &Encryption<'_>, room: usize) -> bool
    requires { tag_size ≤ 32 }
    ensures { IsTrue result → FitsInStep key.entry tag_size asked.now.iv.now asked.now.aad.now asked.now.len room }
{
    asked.iv.len() == 16
        && asked.len % 16 == 0
        && asked.len < 0x1_0000_0000
        && asked.aad.len() < 0x1_0000_0000
        && key.takes_associated(asked.aad.len())
        && asked.len + tag_size <= room
}

/// Whether all requests go in step: at most eight, each in a buffer.
fn all_fit(
    key: StepKey<'_>,
    tag_size: usize,
    asked: &[Encryption<'_>],
    buffers: &[PieceMut<'_>],
) -> bool
    requires { tag_size ≤ 32 }
    ensures { IsTrue result → (length asked.now ≡ length buffers.now) × (length asked.now ≤ 8) × ((i : ℕ) → i < length asked.now
        → FitsInStep key.entry tag_size (iv_in asked.now i) (aad_in asked.now i) (len_in asked.now i) (length (bytes_in buffers.now i))) }
{
    if asked.len() != buffers.len() || asked.len() > 8 {
        return false;
    }
    for i in 0..asked.len() {
        if !fits(key, tag_size, &asked[i], buffers[i].bytes.len()) {
            return false;
        }
    }
    true
}

/// The IV of request `n`, where it has 16 bytes.
fn iv_at(asked: &[Encryption<'_>], n: usize) -> [u8; 16]
    ensures { length (iv_in asked.now n) ≡ 16 → result ≡ iv_in asked.now n }
{
    let mut iv = [0u8; 16];
    if n < asked.len() && asked[n].iv.len() == 16 {
        iv.copy_from_slice(asked[n].iv);
    }
    iv
}

fn aad_at<'a>(asked: &[Encryption<'a>], n: usize) -> &'a [u8]
    ensures { result.now ≡ aad_in asked.now n }
{
    if n < asked.len() { asked[n].aad } else { &[] }
}

fn len_at(asked: &[Encryption<'_>], n: usize) -> usize
    ensures { result ≡ len_in asked.now n }
{
    if n < asked.len() { asked[n].len } else { 0 }
}

fn ivs_of(asked: &[Encryption<'_>]) -> [[u8; 16]; 8]
    ensures { (n : ℕ) → n < 8 → length (iv_in asked.now n) ≡ 16 → slice_index_or result n [] ≡ iv_in asked.now n }
{
    [
        iv_at(asked, 0),
        iv_at(asked, 1),
        iv_at(asked, 2),
        iv_at(asked, 3),
        iv_at(asked, 4),
        iv_at(asked, 5),
        iv_at(asked, 6),
        iv_at(asked, 7),
    ]
}

fn aads_of<'a>(asked: &[Encryption<'a>]) -> [&'a [u8]; 8]
    ensures { (n : ℕ) → n < 8 → piece result n ≡ aad_in asked.now n }
{
    [
        aad_at(asked, 0),
        aad_at(asked, 1),
        aad_at(asked, 2),
        aad_at(asked, 3),
        aad_at(asked, 4),
        aad_at(asked, 5),
        aad_at(asked, 6),
        aad_at(asked, 7),
    ]
}

fn lens_of(asked: &[Encryption<'_>]) -> [usize; 8]
    ensures { (n : ℕ) → n < 8 → slice_index result n ≡ len_in asked.now n }
{
    [
        len_at(asked, 0),
        len_at(asked, 1),
        len_at(asked, 2),
        len_at(asked, 3),
        len_at(asked, 4),
        len_at(asked, 5),
        len_at(asked, 6),
        len_at(asked, 7),
    ]
}

impl Transform {
    /// Answers at most eight requests in step, where the plan is CBC or authenc over it, and none of them is refused.
    /// Otherwise nothing is done.
    fn encrypt_in_step(&self, asked: &mut [Encryption<'_>], buffers: &mut [PieceMut<'_>]) -> bool
        ensures came { IsTrue result → (i : ℕ) → i < length asked.old → i < length buffers.old
            → CameTo (Some self.now) asked.old asked.new buffers.old buffers.new i }
        ensures undone { IsFalse result → (asked.new ≡ asked.old) × (buffers.new ≡ buffers.old) }
        ensures kept { map question_of asked.new ≡ map question_of asked.old }
        ensures sizes { map size_of buffers.new ≡ map size_of buffers.old }
    {
        let Ok(keyed) = self.ready(0, 0) else {
            return false;
        };
        let Some(key) = step_key(keyed) else {
            return false;
        };
        let tag_size = self.authsize as usize;
        if tag_size > key.most_tag() {
            return false;
        }
        if !all_fit(key, tag_size, asked, buffers) {
            return false;
        }
        let aads = aads_of(asked);
        seal_fronts(
            key,
            &ivs_of(asked),
            &aads,
            buffers,
            &lens_of(asked),
            tag_size,
        );
        mark_each(asked, tag_size);
        true
    }

    /// Encrypts the text of each request in the buffer beside it, and writes the tag behind it. No memory is taken.
    pub fn encrypt_many(&self, asked: &mut [Encryption<'_>], buffers: &mut [PieceMut<'_>])
        ensures came { (i : ℕ) → i < length asked.old → i < length buffers.old
            → CameTo (Some self.now) asked.old asked.new buffers.old buffers.new i }
        ensures kept { map question_of asked.new ≡ map question_of asked.old }
        ensures sizes { map size_of buffers.new ≡ map size_of buffers.old }
    {
        if !self.encrypt_in_step(asked, buffers) {
            answer_each(self, asked, buffers);
        }
    }
}
