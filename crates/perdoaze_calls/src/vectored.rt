//! Requests whose text lies in pieces.

ghost use Rattle.std.specs.Prelude.{◌≡◌, ◌≢◌, ◌≤◌, length, map, IsTrue, IsFalse, MatchOption};
ghost use Rattle.perdoaze_calls.specs.Pieces.{text_in, most_on_stack};
ghost use Rattle.piece_modes.specs.Pieces.{text_over, size_of};
ghost use Rattle.perdoaze_calls.specs.Requests.{Encrypts, Decrypts, EncryptsWithin, DecryptsWithin, Digests, OrNoMemory};

use crate::macs::make_of_pieces;
use crate::over_pieces::{open_keyed_over, seal_keyed_over};
use crate::pieces::{
    MOST_ON_STACK, Piece, are_few, gather, gather_all, have, joined_over, scatter, total_len,
};
use crate::requests::{clear_front, copy_front, open_under, seal_front, status_of};
use crate::status::Status;
use crate::transform::Transform;
use piece_modes::{PieceMut, read_at};
use std::alloc::Global;

impl Transform {
    /// Encrypts a text in pieces into `out`, and writes the tag behind the ciphertext.
    pub fn encrypt_pieces(
        &self,
        iv: &[u8],
        aad: &[u8],
        pieces: &[Piece<'_>],
        out: &mut [u8],
        written: &mut usize,
    ) -> Status
        ensures { Encrypts self.now iv.now aad.now (text_in pieces.now) result out.old out.new written.new }
    {
        *written = 0;
        let Some(n) = total_len(pieces) else {
            return Status::Invalid;
        };
        let keyed = match self.ready(aad.len(), n) {
            Ok(keyed) => keyed,
            Err(status) => return status,
        };
        let size = n + self.authsize as usize;
        if out.len() < size {
            return Status::NoRoom;
        }
        gather(pieces, 0, n, out);
        match seal_front(keyed, iv, aad, out, n, self.authsize as usize) {
            Ok(()) => {
                *written = size;
                Status::Done
            }
            Err(_) => {
                clear_front(out, n);
                Status::Invalid
            }
        }
    }

    /// Decrypts a text in pieces, of which the last bytes are the tag, into `out`.
    pub fn decrypt_pieces(
        &self,
        iv: &[u8],
        aad: &[u8],
        pieces: &[Piece<'_>],
        out: &mut [u8],
        written: &mut usize,
    ) -> Status
        ensures { Decrypts self.now iv.now aad.now (text_in pieces.now) result out.old out.new written.new }
    {
        *written = 0;
        let Some(n) = total_len(pieces) else {
            return Status::Invalid;
        };
        let keyed = match self.ready(aad.len(), n) {
            Ok(keyed) => keyed,
            Err(status) => return status,
        };
        let tag_size = self.authsize as usize;
        if n < tag_size {
            return Status::Invalid;
        }
        let size = n - tag_size;
        if out.len() < size {
            return Status::NoRoom;
        }
        let mut tag = [0u8; 32];
        gather(pieces, size, tag_size, &mut tag);
        gather(pieces, 0, size, out);
        match open_under(keyed, iv, aad, out, size, &tag[..tag_size]) {
            Ok(()) => {
                *written = size;
                Status::Done
            }
            Err(error) => {
                clear_front(out, size);
                status_of(error)
            }
        }
    }

    /// The same of `encrypt_within`, where there is one piece.
    fn encrypt_one_within(
        &self,
        iv: &[u8],
        aad: &[u8],
        pieces: &mut [PieceMut<'_>],
        n: usize,
        written: &mut usize,
    ) -> Status
        requires { length pieces.old ≡ 1 }
        ensures came { EncryptsWithin self.now iv.now aad.now n result (text_over pieces.old) (text_over pieces.new) written.new }
        ensures sizes { map size_of pieces.new ≡ map size_of pieces.old }
    {
        self.encrypt_within(iv, aad, pieces[0].bytes, n, written)
    }

    /// The same of `encrypt_within`, where the pieces have few bytes: these are copied to the stack.
    fn encrypt_few_within(
        &self,
        iv: &[u8],
        aad: &[u8],
        pieces: &mut [PieceMut<'_>],
        n: usize,
        written: &mut usize,
    ) -> Status
        requires { length (text_over pieces.old) ≤ most_on_stack }
        ensures came { EncryptsWithin self.now iv.now aad.now n result (text_over pieces.old) (text_over pieces.new) written.new }
        ensures sizes { map size_of pieces.new ≡ map size_of pieces.old }
    {
        let mut room = [0u8; MOST_ON_STACK];
        let total = gather_all(pieces, &mut room);
        let status = self.encrypt_within(iv, aad, &mut room[..total], n, written);
        scatter(&room[..total], pieces);
        status
    }

    /// The same of `decrypt_within`, where there is one piece.
    fn decrypt_one_within(
        &self,
        iv: &[u8],
        aad: &[u8],
        pieces: &mut [PieceMut<'_>],
        n: usize,
        written: &mut usize,
    ) -> Status
        requires { length pieces.old ≡ 1 }
        ensures came { DecryptsWithin self.now iv.now aad.now n result (text_over pieces.old) (text_over pieces.new) written.new }
        ensures sizes { map size_of pieces.new ≡ map size_of pieces.old }
    {
        self.decrypt_within(iv, aad, pieces[0].bytes, n, written)
    }

    /// The same of `decrypt_within`, where the pieces have few bytes.
    fn decrypt_few_within(
        &self,
        iv: &[u8],
        aad: &[u8],
        pieces: &mut [PieceMut<'_>],
        n: usize,
        written: &mut usize,
    ) -> Status
        requires { length (text_over pieces.old) ≤ most_on_stack }
        ensures came { DecryptsWithin self.now iv.now aad.now n result (text_over pieces.old) (text_over pieces.new) written.new }
        ensures sizes { map size_of pieces.new ≡ map size_of pieces.old }
    {
        let mut room = [0u8; MOST_ON_STACK];
        let total = gather_all(pieces, &mut room);
        let status = self.decrypt_within(iv, aad, &mut room[..total], n, written);
        scatter(&room[..total], pieces);
        status
    }

    /// The same of `encrypt_within`, where the mode goes over pieces and nothing is refused. Otherwise nothing is done.
    fn encrypt_over(
        &self,
        iv: &[u8],
        aad: &[u8],
        pieces: &mut [PieceMut<'_>],
        n: usize,
        written: &mut usize,
    ) -> bool
        ensures came { IsTrue result → EncryptsWithin self.now iv.now aad.now n Status.Done (text_over pieces.old)
            (text_over pieces.new) written.new }
        ensures undone { IsFalse result → text_over pieces.new ≡ text_over pieces.old }
        ensures sizes { map size_of pieces.new ≡ map size_of pieces.old }
    {
        let Ok(keyed) = self.ready(aad.len(), n) else {
            return false;
        };
        let tag_size = self.authsize as usize;
        let size = n + tag_size;
        if !have(pieces, size) {
            return false;
        }
        if !seal_keyed_over(keyed, iv, aad, pieces, n, tag_size) {
            return false;
        }
        *written = size;
        true
    }

    /// The same of `decrypt_within`, where the mode goes over pieces, and the request is taken. Otherwise nothing is
    /// done.
    fn decrypt_over(
        &self,
        iv: &[u8],
        aad: &[u8],
        pieces: &mut [PieceMut<'_>],
        n: usize,
        written: &mut usize,
    ) -> Option<Status>
        ensures came { MatchOption result (text_over pieces.new ≡ text_over pieces.old)
            (λ status. DecryptsWithin self.now iv.now aad.now n status (text_over pieces.old) (text_over pieces.new) written.new) }
        ensures sizes { map size_of pieces.new ≡ map size_of pieces.old }
    {
        *written = 0;
        let Ok(keyed) = self.ready(aad.len(), n) else {
            return None;
        };
        let tag_size = self.authsize as usize;
        if n < tag_size {
            return None;
        }
        if !have(pieces, n) {
            return None;
        }
        let size = n - tag_size;
        let mut room = [0u8; 32];
        let (tag, _) = room.split_at_mut(tag_size);
        read_at(pieces, size, tag);
        let right = open_keyed_over(keyed, iv, aad, pieces, size, tag)?;
        if !right {
            return Some(Status::BadMessage);
        }
        *written = size;
        Some(Status::Done)
    }

    /// Encrypts the first `n` bytes of the pieces in their place, and writes the tag behind them. It takes memory for
    /// all of them only where there are several, of more than 4,160 bytes together, and the mode doesn't go over pieces
    /// or the request isn't taken.
    pub fn encrypt_pieces_within(
        &self,
        alloc: Global,
        iv: &[u8],
        aad: &[u8],
        pieces: &mut [PieceMut<'_>],
        n: usize,
        written: &mut usize,
    ) -> Status
        ensures came { OrNoMemory (EncryptsWithin self.now iv.now aad.now n)
            result (text_over pieces.old) (text_over pieces.new) written.new }
        ensures one { length pieces.old ≡ 1 → result ≢ Status.NoMemory }
        ensures sizes { map size_of pieces.new ≡ map size_of pieces.old }
    {
        if pieces.len() == 1 {
            return self.encrypt_one_within(iv, aad, pieces, n, written);
        }
        if are_few(pieces) {
            return self.encrypt_few_within(iv, aad, pieces, n, written);
        }
        if self.encrypt_over(iv, aad, pieces, n, written) {
            return Status::Done;
        }
        *written = 0;
        let Ok(mut whole) = joined_over(alloc, pieces) else {
            return Status::NoMemory;
        };
        let status = self.encrypt_within(iv, aad, whole.as_mut_slice(), n, written);
        scatter(whole.as_slice(), pieces);
        status
    }

    /// Decrypts the first `n` bytes of the pieces in their place, of which the last are the tag. It takes memory for
    /// all of them only where there are several, of more than 4,160 bytes together, and the mode doesn't go over pieces
    /// or the request isn't taken.
    pub fn decrypt_pieces_within(
        &self,
        alloc: Global,
        iv: &[u8],
        aad: &[u8],
        pieces: &mut [PieceMut<'_>],
        n: usize,
        written: &mut usize,
    ) -> Status
        ensures came { OrNoMemory (DecryptsWithin self.now iv.now aad.now n)
            result (text_over pieces.old) (text_over pieces.new) written.new }
        ensures one { length pieces.old ≡ 1 → result ≢ Status.NoMemory }
        ensures sizes { map size_of pieces.new ≡ map size_of pieces.old }
    {
        if pieces.len() == 1 {
            return self.decrypt_one_within(iv, aad, pieces, n, written);
        }
        if are_few(pieces) {
            return self.decrypt_few_within(iv, aad, pieces, n, written);
        }
        if let Some(status) = self.decrypt_over(iv, aad, pieces, n, written) {
            return status;
        }
        *written = 0;
        let Ok(mut whole) = joined_over(alloc, pieces) else {
            return Status::NoMemory;
        };
        let status = self.decrypt_within(iv, aad, whole.as_mut_slice(), n, written);
        scatter(whole.as_slice(), pieces);
        status
    }

    /// Writes the MAC of a text in pieces into `out`. No memory is taken.
    pub fn digest_pieces(&self, pieces: &[Piece<'_>], out: &mut [u8], written: &mut usize) -> Status
        ensures { Digests self.now (text_in pieces.now) result out.old out.new written.new }
    {
        *written = 0;
        let Some(n) = total_len(pieces) else {
            return Status::Invalid;
        };
        let keyed = match self.ready(0, n) {
            Ok(keyed) => keyed,
            Err(status) => return status,
        };
        let mut room = [0u8; 32];
        match make_of_pieces(keyed, pieces, n, &mut room) {
            Ok(size) => {
                if out.len() < size {
                    return Status::NoRoom;
                }
                copy_front(&room[..size], out);
                *written = size;
                Status::Done
            }
            Err(_) => Status::Invalid,
        }
    }
}
