//! What C calls. No pointer is NULL here, not even beside the length 0: the functions of c/ see to that.

ghost use Rattle.std.specs.Prelude.{◌≡◌, ◌≢◌, ◌<◌, ℕ, length, map, None};
ghost use Rattle.perdoaze_calls.specs.Comparison.{ComparesTo};
ghost use Rattle.perdoaze_calls.specs.Infos.{ListsTo, TellsTo};
ghost use Rattle.perdoaze_calls.specs.Many.{CameTo, question_of};
ghost use Rattle.perdoaze_calls.specs.Names.{BeginsTo};
ghost use Rattle.perdoaze_calls.specs.Pieces.{text_in};
ghost use Rattle.piece_modes.specs.Pieces.{text_over, size_of};
ghost use Rattle.perdoaze_calls.specs.Requests.{Encrypts, Decrypts, EncryptsWithin, DecryptsWithin, Digests, OnPlaceTo, OrNoMemory};
ghost use Rattle.perdoaze_calls.specs.Settings.{KeySetTo, SizeSetTo, DuplicatesTo};
ghost use Rattle.perdoaze_calls.specs.Status.{code_of};
ghost use Rattle.perdoaze_calls.specs.declared.status.Status.TheVariants as Status;

use perdoaze_calls::{Encryption, Info, Piece, PieceMut, Slot, calls, compare, init, list, tell};
use std::alloc::Global;

/// Makes the transform of a name in the place, in place of the one that was there.
#[unsafe(no_mangle)]
pub extern "C" fn perdoaze_raw_init(slot: &mut Slot, alloc: Global, name: &[u8]) -> i32
    ensures { BeginsTo slot.new.handle.value name.now result }
{
    init(slot, alloc, name).code()
}

/// Sets the key.
#[unsafe(no_mangle)]
pub extern "C" fn perdoaze_raw_setkey(slot: &mut Slot, alloc: Global, key: &[u8]) -> i32
    ensures { KeySetTo slot.old.handle.value slot.new.handle.value key.now result }
{
    calls::set_key(slot, alloc, key).code()
}

/// Sets the size of the tag in bytes.
#[unsafe(no_mangle)]
pub extern "C" fn perdoaze_raw_setauthsize(slot: &mut Slot, alloc: Global, n: u32) -> i32
    ensures { SizeSetTo slot.old.handle.value slot.new.handle.value n result }
{
    calls::set_tag_size(slot, alloc, n).code()
}

/// Encrypts. Where there is a tag, it stands behind the ciphertext.
#[unsafe(no_mangle)]
pub extern "C" fn perdoaze_raw_encrypt(
    slot: &mut Slot,
    alloc: Global,
    iv: &[u8],
    aad: &[u8],
    text: &[u8],
    out: &mut [u8],
    written: &mut usize,
) -> i32
    ensures kept { slot.new.handle.value ≡ slot.old.handle.value }
    ensures came { OnPlaceTo slot.old.handle.value (λ t. Encrypts t iv.now aad.now text.now) result out.old out.new written.new }
{
    calls::encrypt(slot, alloc, iv, aad, text, out, written).code()
}

/// Decrypts. Where there is a tag, it stands behind the ciphertext.
#[unsafe(no_mangle)]
pub extern "C" fn perdoaze_raw_decrypt(
    slot: &mut Slot,
    alloc: Global,
    iv: &[u8],
    aad: &[u8],
    text: &[u8],
    out: &mut [u8],
    written: &mut usize,
) -> i32
    ensures kept { slot.new.handle.value ≡ slot.old.handle.value }
    ensures came { OnPlaceTo slot.old.handle.value (λ t. Decrypts t iv.now aad.now text.now) result out.old out.new written.new }
{
    calls::decrypt(slot, alloc, iv, aad, text, out, written).code()
}

/// Encrypts the first `n` bytes of a buffer in their place.
#[unsafe(no_mangle)]
pub extern "C" fn perdoaze_raw_encrypt_in_place(
    slot: &mut Slot,
    alloc: Global,
    iv: &[u8],
    aad: &[u8],
    buffer: &mut [u8],
    n: usize,
    written: &mut usize,
) -> i32
    ensures kept { slot.new.handle.value ≡ slot.old.handle.value }
    ensures came { OnPlaceTo slot.old.handle.value (λ t. EncryptsWithin t iv.now aad.now n) result buffer.old buffer.new written.new }
{
    calls::encrypt_within(slot, alloc, iv, aad, buffer, n, written).code()
}

/// Decrypts the first `n` bytes of a buffer in their place.
#[unsafe(no_mangle)]
pub extern "C" fn perdoaze_raw_decrypt_in_place(
    slot: &mut Slot,
    alloc: Global,
    iv: &[u8],
    aad: &[u8],
    buffer: &mut [u8],
    n: usize,
    written: &mut usize,
) -> i32
    ensures kept { slot.new.handle.value ≡ slot.old.handle.value }
    ensures came { OnPlaceTo slot.old.handle.value (λ t. DecryptsWithin t iv.now aad.now n) result buffer.old buffer.new written.new }
{
    calls::decrypt_within(slot, alloc, iv, aad, buffer, n, written).code()
}

/// Encrypts a text in pieces.
#[unsafe(no_mangle)]
pub extern "C" fn perdoaze_raw_encryptv(
    slot: &mut Slot,
    alloc: Global,
    iv: &[u8],
    aad: &[u8],
    text: &[Piece<'_>],
    out: &mut [u8],
    written: &mut usize,
) -> i32
    ensures kept { slot.new.handle.value ≡ slot.old.handle.value }
    ensures came { OnPlaceTo slot.old.handle.value (λ t. Encrypts t iv.now aad.now (text_in text.now)) result out.old out.new written.new }
{
    calls::encrypt_pieces(slot, alloc, iv, aad, text, out, written).code()
}

/// Decrypts a text in pieces.
#[unsafe(no_mangle)]
pub extern "C" fn perdoaze_raw_decryptv(
    slot: &mut Slot,
    alloc: Global,
    iv: &[u8],
    aad: &[u8],
    text: &[Piece<'_>],
    out: &mut [u8],
    written: &mut usize,
) -> i32
    ensures kept { slot.new.handle.value ≡ slot.old.handle.value }
    ensures came { OnPlaceTo slot.old.handle.value (λ t. Decrypts t iv.now aad.now (text_in text.now)) result out.old out.new written.new }
{
    calls::decrypt_pieces(slot, alloc, iv, aad, text, out, written).code()
}

/// Encrypts the first `n` bytes of a text in pieces in their place.
#[unsafe(no_mangle)]
pub extern "C" fn perdoaze_raw_encryptv_in_place(
    slot: &mut Slot,
    alloc: Global,
    iv: &[u8],
    aad: &[u8],
    text: &mut [PieceMut<'_>],
    n: usize,
    written: &mut usize,
) -> i32
    ensures kept { slot.new.handle.value ≡ slot.old.handle.value }
    ensures came { OnPlaceTo slot.old.handle.value (λ t. OrNoMemory (EncryptsWithin t iv.now aad.now n))
        result (text_over text.old) (text_over text.new) written.new }
    ensures one { length text.old ≡ 1 → result ≢ code_of Status.NoMemory }
    ensures sizes { map size_of text.new ≡ map size_of text.old }
{
    calls::encrypt_pieces_within(slot, alloc, iv, aad, text, n, written).code()
}

/// Decrypts the first `n` bytes of a text in pieces in their place.
#[unsafe(no_mangle)]
pub extern "C" fn perdoaze_raw_decryptv_in_place(
    slot: &mut Slot,
    alloc: Global,
    iv: &[u8],
    aad: &[u8],
    text: &mut [PieceMut<'_>],
    n: usize,
    written: &mut usize,
) -> i32
    ensures kept { slot.new.handle.value ≡ slot.old.handle.value }
    ensures came { OnPlaceTo slot.old.handle.value (λ t. OrNoMemory (DecryptsWithin t iv.now aad.now n))
        result (text_over text.old) (text_over text.new) written.new }
    ensures one { length text.old ≡ 1 → result ≢ code_of Status.NoMemory }
    ensures sizes { map size_of text.new ≡ map size_of text.old }
{
    calls::decrypt_pieces_within(slot, alloc, iv, aad, text, n, written).code()
}

/// Encrypts each of several texts in the buffer beside it.
#[unsafe(no_mangle)]
pub extern "C" fn perdoaze_raw_encrypt_many(
    slot: &mut Slot,
    alloc: Global,
    asked: &mut [Encryption<'_>],
    buffers: &mut [PieceMut<'_>],
)
    ensures kept { slot.new.handle.value ≡ slot.old.handle.value }
    ensures came { (i : ℕ) → i < length asked.old → i < length buffers.old
        → CameTo slot.old.handle.value asked.old asked.new buffers.old buffers.new i }
    ensures questions { map question_of asked.new ≡ map question_of asked.old }
    ensures sizes { map size_of buffers.new ≡ map size_of buffers.old }
{
    calls::encrypt_many(slot, alloc, asked, buffers);
}

/// Makes the MAC of a text.
#[unsafe(no_mangle)]
pub extern "C" fn perdoaze_raw_digest(
    slot: &mut Slot,
    alloc: Global,
    text: &[u8],
    out: &mut [u8],
    written: &mut usize,
) -> i32
    ensures kept { slot.new.handle.value ≡ slot.old.handle.value }
    ensures came { OnPlaceTo slot.old.handle.value (λ t. Digests t text.now) result out.old out.new written.new }
{
    calls::digest(slot, alloc, text, out, written).code()
}

/// Makes the MAC of a text in pieces.
#[unsafe(no_mangle)]
pub extern "C" fn perdoaze_raw_digestv(
    slot: &mut Slot,
    alloc: Global,
    text: &[Piece<'_>],
    out: &mut [u8],
    written: &mut usize,
) -> i32
    ensures kept { slot.new.handle.value ≡ slot.old.handle.value }
    ensures came { OnPlaceTo slot.old.handle.value (λ t. Digests t (text_in text.now)) result out.old out.new written.new }
{
    calls::digest_pieces(slot, alloc, text, out, written).code()
}

/// Makes a second transform of the one in the place `from`, which shares its key, in the place `into`.
#[unsafe(no_mangle)]
pub extern "C" fn perdoaze_raw_dup(from: &mut Slot, alloc: Global, into: &mut Slot) -> i32
    ensures kept { from.new.handle.value ≡ from.old.handle.value }
    ensures made { DuplicatesTo from.old.handle.value into.new.handle.value result }
{
    calls::dup(from, alloc, into).code()
}

/// What is told of the transform in the place.
#[unsafe(no_mangle)]
pub extern "C" fn perdoaze_raw_get_info(slot: &mut Slot, alloc: Global, info: &mut Info) -> i32
    ensures kept { slot.new.handle.value ≡ slot.old.handle.value }
    ensures told { TellsTo slot.old.handle.value result info.old info.new }
{
    tell(slot, alloc, info).code()
}

/// What is told of the driver at a place of the list of all drivers.
#[unsafe(no_mangle)]
pub extern "C" fn perdoaze_raw_list(index: usize, info: &mut Info) -> i32
    ensures { ListsTo index result info.old info.new }
{
    list(index, info).code()
}

/// Frees what is in the place.
#[unsafe(no_mangle)]
pub extern "C" fn perdoaze_raw_free(slot: &mut Slot, alloc: Global)
    ensures { slot.new.handle.value ≡ None }
{
    calls::free(slot, alloc);
}

/// Compares two texts.
#[unsafe(no_mangle)]
pub extern "C" fn perdoaze_raw_compare(a: &[u8], b: &[u8]) -> i32
    ensures { ComparesTo a.now b.now result }
{
    compare(a, b).code()
}
