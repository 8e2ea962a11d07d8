//! The calls of C, each on a place for a transform.

ghost use Rattle.std.specs.Prelude.{◌≡◌, ◌≢◌, ◌<◌, ℕ, length, map, None};
ghost use Rattle.perdoaze_calls.specs.Many.{CameTo, question_of};
ghost use Rattle.perdoaze_calls.specs.Pieces.{text_in};
ghost use Rattle.piece_modes.specs.Pieces.{text_over, size_of};
ghost use Rattle.perdoaze_calls.specs.Requests.{Encrypts, Decrypts, EncryptsWithin, DecryptsWithin, Digests, OnPlace, OrNoMemory};
ghost use Rattle.perdoaze_calls.specs.Settings.{KeySet, SizeSet, Duplicates};

use crate::encryption::Encryption;
use crate::many::refuse_each;
use crate::pieces::Piece;
use crate::slot::Slot;
use crate::status::Status;
use piece_modes::PieceMut;
use std::alloc::Global;

/// Encrypts.
pub fn encrypt(
    slot: &mut Slot,
    alloc: Global,
    iv: &[u8],
    aad: &[u8],
    text: &[u8],
    out: &mut [u8],
    written: &mut usize,
) -> Status
    ensures kept { slot.new.handle.value ≡ slot.old.handle.value }
    ensures came { OnPlace slot.old.handle.value (λ t. Encrypts t iv.now aad.now text.now) result out.old out.new written.new }
{
    *written = 0;
    let Some(held) = slot.take(alloc) else {
        return Status::Invalid;
    };
    let status = held.encrypt(iv, aad, text, out, written);
    slot.fill(held);
    status
}

/// Decrypts.
pub fn decrypt(
    slot: &mut Slot,
    alloc: Global,
    iv: &[u8],
    aad: &[u8],
    text: &[u8],
    out: &mut [u8],
    written: &mut usize,
) -> Status
    ensures kept { slot.new.handle.value ≡ slot.old.handle.value }
    ensures came { OnPlace slot.old.handle.value (λ t. Decrypts t iv.now aad.now text.now) result out.old out.new written.new }
{
    *written = 0;
    let Some(held) = slot.take(alloc) else {
        return Status::Invalid;
    };
    let status = held.decrypt(iv, aad, text, out, written);
    slot.fill(held);
    status
}

/// Encrypts the front of a buffer in its place.
pub fn encrypt_within(
    slot: &mut Slot,
    alloc: Global,
    iv: &[u8],
    aad: &[u8],
    buffer: &mut [u8],
    n: usize,
    written: &mut usize,
) -> Status
    ensures kept { slot.new.handle.value ≡ slot.old.handle.value }
    ensures came { OnPlace slot.old.handle.value (λ t. EncryptsWithin t iv.now aad.now n) result buffer.old buffer.new written.new }
{
    *written = 0;
    let Some(held) = slot.take(alloc) else {
        return Status::Invalid;
    };
    let status = held.encrypt_within(iv, aad, buffer, n, written);
    slot.fill(held);
    status
}

/// Decrypts the front of a buffer in its place.
pub fn decrypt_within(
    slot: &mut Slot,
    alloc: Global,
    iv: &[u8],
    aad: &[u8],
    buffer: &mut [u8],
    n: usize,
    written: &mut usize,
) -> Status
    ensures kept { slot.new.handle.value ≡ slot.old.handle.value }
    ensures came { OnPlace slot.old.handle.value (λ t. DecryptsWithin t iv.now aad.now n) result buffer.old buffer.new written.new }
{
    *written = 0;
    let Some(held) = slot.take(alloc) else {
        return Status::Invalid;
    };
    let status = held.decrypt_within(iv, aad, buffer, n, written);
    slot.fill(held);
    status
}

/// Encrypts a text in pieces.
pub fn encrypt_pieces(
    slot: &mut Slot,
    alloc: Global,
    iv: &[u8],
    aad: &[u8],
    pieces: &[Piece<'_>],
    out: &mut [u8],
    written: &mut usize,
) -> Status
    ensures kept { slot.new.handle.value ≡ slot.old.handle.value }
    ensures came { OnPlace slot.old.handle.value (λ t. Encrypts t iv.now aad.now (text_in pieces.now)) result out.old out.new written.new }
{
    *written = 0;
    let Some(held) = slot.take(alloc) else {
        return Status::Invalid;
    };
    let status = held.encrypt_pieces(iv, aad, pieces, out, written);
    slot.fill(held);
    status
}

/// Decrypts a text in pieces.
pub fn decrypt_pieces(
    slot: &mut Slot,
    alloc: Global,
    iv: &[u8],
    aad: &[u8],
    pieces: &[Piece<'_>],
    out: &mut [u8],
    written: &mut usize,
) -> Status
    ensures kept { slot.new.handle.value ≡ slot.old.handle.value }
    ensures came { OnPlace slot.old.handle.value (λ t. Decrypts t iv.now aad.now (text_in pieces.now)) result out.old out.new written.new }
{
    *written = 0;
    let Some(held) = slot.take(alloc) else {
        return Status::Invalid;
    };
    let status = held.decrypt_pieces(iv, aad, pieces, out, written);
    slot.fill(held);
    status
}

/// Encrypts the front of a text in pieces in its place.
pub fn encrypt_pieces_within(
    slot: &mut Slot,
    alloc: Global,
    iv: &[u8],
    aad: &[u8],
    pieces: &mut [PieceMut<'_>],
    n: usize,
    written: &mut usize,
) -> Status
    ensures kept { slot.new.handle.value ≡ slot.old.handle.value }
    ensures came { OnPlace slot.old.handle.value (λ t. OrNoMemory (EncryptsWithin t iv.now aad.now n))
        result (text_over pieces.old) (text_over pieces.new) written.new }
    ensures one { length pieces.old ≡ 1 → result ≢ Status.NoMemory }
    ensures sizes { map size_of pieces.new ≡ map size_of pieces.old }
{
    *written = 0;
    let Some(held) = slot.take(alloc) else {
        return Status::Invalid;
    };
    let status = held.encrypt_pieces_within(alloc, iv, aad, pieces, n, written);
    slot.fill(held);
    status
}

/// Decrypts the front of a text in pieces in its place.
pub fn decrypt_pieces_within(
    slot: &mut Slot,
    alloc: Global,
    iv: &[u8],
    aad: &[u8],
    pieces: &mut [PieceMut<'_>],
    n: usize,
    written: &mut usize,
) -> Status
    ensures kept { slot.new.handle.value ≡ slot.old.handle.value }
    ensures came { OnPlace slot.old.handle.value (λ t. OrNoMemory (DecryptsWithin t iv.now aad.now n))
        result (text_over pieces.old) (text_over pieces.new) written.new }
    ensures one { length pieces.old ≡ 1 → result ≢ Status.NoMemory }
    ensures sizes { map size_of pieces.new ≡ map size_of pieces.old }
{
    *written = 0;
    let Some(held) = slot.take(alloc) else {
        return Status::Invalid;
    };
    let status = held.decrypt_pieces_within(alloc, iv, aad, pieces, n, written);
    slot.fill(held);
    status
}

/// Encrypts each of several texts in the buffer beside it.
pub fn encrypt_many(
    slot: &mut Slot,
    alloc: Global,
    asked: &mut [Encryption<'_>],
    buffers: &mut [PieceMut<'_>],
)
    ensures kept { slot.new.handle.value ≡ slot.old.handle.value }
    ensures came { (i : ℕ) → i < length asked.old → i < length buffers.old
        → CameTo slot.old.handle.value asked.old asked.new buffers.old buffers.new i }
    ensures questions { map question_of asked.new ≡ map question_of asked.old }
    ensures sizes { map size_of buffers.new ≡ map size_of buffers.old }
{
    let Some(held) = slot.take(alloc) else {
        refuse_each(asked);
        return;
    };
    held.encrypt_many(asked, buffers);
    slot.fill(held);
}

/// Makes the MAC of a text.
pub fn digest(
    slot: &mut Slot,
    alloc: Global,
    text: &[u8],
    out: &mut [u8],
    written: &mut usize,
) -> Status
    ensures kept { slot.new.handle.value ≡ slot.old.handle.value }
    ensures came { OnPlace slot.old.handle.value (λ t. Digests t text.now) result out.old out.new written.new }
{
    *written = 0;
    let Some(held) = slot.take(alloc) else {
        return Status::Invalid;
    };
    let status = held.digest(text, out, written);
    slot.fill(held);
    status
}

/// Makes the MAC of a text in pieces.
pub fn digest_pieces(
    slot: &mut Slot,
    alloc: Global,
    pieces: &[Piece<'_>],
    out: &mut [u8],
    written: &mut usize,
) -> Status
    ensures kept { slot.new.handle.value ≡ slot.old.handle.value }
    ensures came { OnPlace slot.old.handle.value (λ t. Digests t (text_in pieces.now)) result out.old out.new written.new }
{
    *written = 0;
    let Some(held) = slot.take(alloc) else {
        return Status::Invalid;
    };
    let status = held.digest_pieces(pieces, out, written);
    slot.fill(held);
    status
}

/// Sets the key of the transform in the place.
pub fn set_key(slot: &mut Slot, alloc: Global, key: &[u8]) -> Status
    ensures { KeySet slot.old.handle.value slot.new.handle.value key.now result }
{
    let Some(mut held) = slot.take(alloc) else {
        return Status::Invalid;
    };
    let status = held.set_key(alloc, key);
    slot.fill(held);
    status
}

/// Sets the tag size of the transform in the place.
pub fn set_tag_size(slot: &mut Slot, alloc: Global, n: u32) -> Status
    ensures { SizeSet slot.old.handle.value slot.new.handle.value n result }
{
    let Some(mut held) = slot.take(alloc) else {
        return Status::Invalid;
    };
    let status = held.set_tag_size(n);
    slot.fill(held);
    status
}

/// Makes a second transform of the one in the place `from`, which shares its key, in the place `into`.
pub fn dup(from: &mut Slot, alloc: Global, into: &mut Slot) -> Status
    ensures kept { from.new.handle.value ≡ from.old.handle.value }
    ensures made { Duplicates from.old.handle.value into.new.handle.value result }
{
    drop(into.take(alloc));
    let Some(held) = from.take(alloc) else {
        return Status::Invalid;
    };
    let made = held.duplicate(alloc);
    from.fill(held);
    match made {
        Ok(second) => {
            into.fill(second);
            Status::Done
        }
        Err(status) => status,
    }
}

/// Frees what is in the place.
pub fn free(slot: &mut Slot, alloc: Global)
    ensures { slot.new.handle.value ≡ None }
{
    drop(slot.take(alloc));
}
