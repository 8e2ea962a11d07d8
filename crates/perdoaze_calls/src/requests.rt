//! Requests to a transform. The text is changed where the answer goes, or sealed from its place into that one, so that
//! no memory is taken.

ghost use Rattle.std.specs.Prelude.{◌≡◌, ◌≤◌, ◌<◌, ◌^◌, ◌+◌, ◌-◌, ◌++◌, ◌⊎◌, length, take, drop, replicate, true, IsTrue, IsFalse, MatchResult, None, Some};
ghost use Rattle.std_defs.specs.Value.Value.{bytes};
ghost use Rattle.transforms.specs.InPlace as kept;
ghost use Rattle.transforms.specs.InPlace.{sealing, unsealing, opening};
ghost use Rattle.transforms.specs.Plans.{fits_tag};
ghost use Rattle.perdoaze_calls.specs.Requests.{Encrypts, Decrypts, EncryptsWithin, DecryptsWithin, Digests, refusal};
ghost use Rattle.perdoaze_calls.specs.Under.{key_within};

use crate::direct::seal_directly;
use crate::status::Status;
use crate::transform::Transform;
use kc_base::Errno;
use transforms::Keyed;

/// Copies all of `from` to the front of `into`.
pub fn copy_front(from: &[u8], into: &mut [u8])
    requires { length from.now ≤ length into.old }
    ensures { into.new ≡ from.now ++ drop (length from.now) into.old }
{
    into[..from.len()].copy_from_slice(from);
}

/// Makes zeros of the first `n` bytes.
pub(crate) fn clear_front(bytes: &mut [u8], n: usize)
    requires { n ≤ length bytes.old }
    ensures { bytes.new ≡ replicate n 0 ++ drop n bytes.old }
{
    bytes[..n].fill(0);
}

/// Why a request was refused.
pub(crate) fn status_of(error: Errno) -> Status
    ensures { result ≡ refusal error }
{
    match error {
        Errno::EBADMSG => Status::BadMessage,
        _ => Status::Invalid,
    }
}

/// Seals all but the end of `whole` in its place, and writes the tag there.
fn seal_whole(keyed: &Keyed, iv: &[u8], aad: &[u8], whole: &mut [u8], n: usize) -> Result<(), Errno>
    requires within { n ≤ length whole.old }
    requires tag_fits { fits_tag keyed.now.0 (length whole.old - n) ≡ true }
    requires aad_short { length aad.now < 2 ^ 32 }
    requires text_short { n < 2 ^ 32 }
    ensures sealed { let q = sealing iv.now aad.now (take n whole.old) in MatchResult result
        (λ _. kept.HasValue keyed.now (length whole.old - n) q (bytes whole.new))
        (λ e. kept.IsInvalid keyed.now (length whole.old - n) q × (whole.new ≡ whole.old)) }
    ensures len { length whole.new ≡ length whole.old }
{
    let (text, tag) = whole.split_at_mut(n);
    keyed.seal_in_place(iv, aad, text, tag)
}

/// Opens all but the end of `whole` in its place, under the tag there.
#[tactic(auto, using(crate::proofs::Answering::whole))]
fn open_whole(keyed: &Keyed, iv: &[u8], aad: &[u8], whole: &mut [u8], n: usize) -> Result<(), Errno>
    requires within { n ≤ length whole.old }
    requires tag_fits { fits_tag keyed.now.0 (length whole.old - n) ≡ true }
    requires aad_short { length aad.now < 2 ^ 32 }
    requires text_short { n < 2 ^ 32 }
    ensures opened { let q = unsealing iv.now aad.now whole.old in MatchResult result
        (λ _. kept.HasValue keyed.now (length whole.old - n) q (bytes (take n whole.new)))
        (λ e. kept.IsRefused e keyed.now (length whole.old - n) q × (whole.new ≡ whole.old)) }
    ensures rest { drop n whole.new ≡ drop n whole.old }
    ensures len { length whole.new ≡ length whole.old }
{
    let (text, tag) = whole.split_at_mut(n);
    keyed.open_in_place(iv, aad, text, tag)
}

/// Seals the first `n` bytes of `buffer` in their place, and writes a tag of `tag_size` bytes behind them.
pub(crate) fn seal_front(
    keyed: &Keyed,
    iv: &[u8],
    aad: &[u8],
    buffer: &mut [u8],
    n: usize,
    tag_size: usize,
) -> Result<(), Errno>
    requires within { n + tag_size ≤ length buffer.old }
    requires tag_fits { fits_tag keyed.now.0 tag_size ≡ true }
    requires aad_short { length aad.now < 2 ^ 32 }
    requires text_short { n < 2 ^ 32 }
    ensures sealed { let q = sealing iv.now aad.now (take n buffer.old) in MatchResult result
        (λ _. kept.HasValue keyed.now tag_size q (bytes (take (n + tag_size) buffer.new)))
        (λ e. kept.IsInvalid keyed.now tag_size q × (buffer.new ≡ buffer.old)) }
    ensures rest { drop (n + tag_size) buffer.new ≡ drop (n + tag_size) buffer.old }
    ensures len { length buffer.new ≡ length buffer.old }
{
    let (whole, _) = buffer.split_at_mut(n + tag_size);
    seal_whole(keyed, iv, aad, whole, n)
}

/// Opens the first `n` bytes of `buffer` in their place, of which the last `tag_size` are the tag.
fn open_front(
    keyed: &Keyed,
    iv: &[u8],
    aad: &[u8],
    buffer: &mut [u8],
    n: usize,
    tag_size: usize,
) -> Result<(), Errno>
    requires within { n ≤ length buffer.old }
    requires tag_within { tag_size ≤ n }
    requires tag_fits { fits_tag keyed.now.0 tag_size ≡ true }
    requires aad_short { length aad.now < 2 ^ 32 }
    requires text_short { n < 2 ^ 32 }
    ensures opened { let q = unsealing iv.now aad.now (take n buffer.old) in MatchResult result
        (λ _. kept.HasValue keyed.now tag_size q (bytes (take (n - tag_size) buffer.new)))
        (λ e. kept.IsRefused e keyed.now tag_size q × (buffer.new ≡ buffer.old)) }
    ensures rest { drop (n - tag_size) buffer.new ≡ drop (n - tag_size) buffer.old }
    ensures len { length buffer.new ≡ length buffer.old }
{
    let (whole, _) = buffer.split_at_mut(n);
    open_whole(keyed, iv, aad, whole, n - tag_size)
}

/// Opens the first `n` bytes of `buffer` in their place, under a tag that lies elsewhere.
pub(crate) fn open_under(
    keyed: &Keyed,
    iv: &[u8],
    aad: &[u8],
    buffer: &mut [u8],
    n: usize,
    tag: &[u8],
) -> Result<(), Errno>
    requires within { n ≤ length buffer.old }
    requires tag_fits { fits_tag keyed.now.0 (length tag.now) ≡ true }
    requires aad_short { length aad.now < 2 ^ 32 }
    requires text_short { n < 2 ^ 32 }
    ensures opened { let q = opening iv.now aad.now (take n buffer.old) tag.now in MatchResult result
        (λ _. kept.HasValue keyed.now (length tag.now) q (bytes (take n buffer.new)))
        (λ e. kept.IsRefused e keyed.now (length tag.now) q × (buffer.new ≡ buffer.old)) }
    ensures rest { drop n buffer.new ≡ drop n buffer.old }
    ensures len { length buffer.new ≡ length buffer.old }
{
    let (text, _) = buffer.split_at_mut(n);
    keyed.open_in_place(iv, aad, text, tag)
}

impl Transform {
    /// The key. `NoKey` where none was set, and `Invalid` where there are 2^32 bytes or more.
    pub(crate) fn ready(&self, aad: usize, text: usize) -> Result<&Keyed, Status>
        ensures { MatchResult result
            (λ k. (k.now.0 ≡ self.now.plan) × (key_within self.now.keyed ≡ Some k.now.1) × (aad < 2 ^ 32) × (text < 2 ^ 32))
            (λ e. ((e ≡ Status.NoKey) × (key_within self.now.keyed ≡ None))
            ⊎ ((e ≡ Status.Invalid) × ((2 ^ 32 ≤ aad) ⊎ (2 ^ 32 ≤ text)))) }
    {
        let Some(keyed) = &self.keyed else {
            return Err(Status::NoKey);
        };
        if aad >= 0x1_0000_0000 || text >= 0x1_0000_0000 {
            return Err(Status::Invalid);
        }
        Ok(&**keyed)
    }

    /// Encrypts the first `n` bytes of `buffer` in their place, and writes the tag behind them.
    pub fn encrypt_within(
        &self,
        iv: &[u8],
        aad: &[u8],
        buffer: &mut [u8],
        n: usize,
        written: &mut usize,
    ) -> Status
        ensures { EncryptsWithin self.now iv.now aad.now n result buffer.old buffer.new written.new }
    {
        *written = 0;
        if buffer.len() < n {
            return Status::NoRoom;
        }
        let keyed = match self.ready(aad.len(), n) {
            Ok(keyed) => keyed,
            Err(status) => return status,
        };
        let size = n + self.authsize as usize;
        if buffer.len() < size {
            return Status::NoRoom;
        }
        match seal_front(keyed, iv, aad, buffer, n, self.authsize as usize) {
            Ok(()) => {
                *written = size;
                Status::Done
            }
            Err(_) => Status::Invalid,
        }
    }

    /// Decrypts the first `n` bytes of `buffer` in their place, of which the last are the tag.
    pub fn decrypt_within(
        &self,
        iv: &[u8],
        aad: &[u8],
        buffer: &mut [u8],
        n: usize,
        written: &mut usize,
    ) -> Status
        ensures { DecryptsWithin self.now iv.now aad.now n result buffer.old buffer.new written.new }
    {
        *written = 0;
        if buffer.len() < n {
            return Status::NoRoom;
        }
        let keyed = match self.ready(aad.len(), n) {
            Ok(keyed) => keyed,
            Err(status) => return status,
        };
        let tag_size = self.authsize as usize;
        if n < tag_size {
            return Status::Invalid;
        }
        match open_front(keyed, iv, aad, buffer, n, tag_size) {
            Ok(()) => {
                *written = n - tag_size;
                Status::Done
            }
            Err(error) => status_of(error),
        }
    }

    /// Encrypts `text` into `out` without a copy of it, and writes the tag behind the ciphertext, where the plan is CBC
    /// or authenc over it and nothing is refused. Otherwise `out` stays.
    fn encrypt_directly(
        &self,
        iv: &[u8],
        aad: &[u8],
        text: &[u8],
        out: &mut [u8],
        written: &mut usize,
    ) -> bool
        ensures came { IsTrue result → Encrypts self.now iv.now aad.now text.now Status.Done out.old out.new written.new }
        ensures undone { IsFalse result → out.new ≡ out.old }
    {
        let Ok(keyed) = self.ready(aad.len(), text.len()) else {
            return false;
        };
        let tag_size = self.authsize as usize;
        let size = text.len() + tag_size;
        if out.len() < size {
            return false;
        }
        if !seal_directly(keyed, iv, aad, text, out, tag_size) {
            return false;
        }
        *written = size;
        true
    }

    /// Encrypts `text` into `out`, and writes the tag behind the ciphertext.
    pub fn encrypt(
        &self,
        iv: &[u8],
        aad: &[u8],
        text: &[u8],
        out: &mut [u8],
        written: &mut usize,
    ) -> Status
        ensures { Encrypts self.now iv.now aad.now text.now result out.old out.new written.new }
    {
        if self.encrypt_directly(iv, aad, text, out, written) {
            return Status::Done;
        }
        self.encrypt_copied(iv, aad, text, out, written)
    }

    /// The same by a copy of the text in `out`, which is encrypted in its place.
    fn encrypt_copied(
        &self,
        iv: &[u8],
        aad: &[u8],
        text: &[u8],
        out: &mut [u8],
        written: &mut usize,
    ) -> Status
        ensures { Encrypts self.now iv.now aad.now text.now result out.old out.new written.new }
    {
        *written = 0;
        let keyed = match self.ready(aad.len(), text.len()) {
            Ok(keyed) => keyed,
            Err(status) => return status,
        };
        let size = text.len() + self.authsize as usize;
        if out.len() < size {
            return Status::NoRoom;
        }
        copy_front(text, out);
        match seal_front(keyed, iv, aad, out, text.len(), self.authsize as usize) {
            Ok(()) => {
                *written = size;
                Status::Done
            }
            Err(_) => {
                clear_front(out, text.len());
                Status::Invalid
            }
        }
    }

    /// Decrypts `text`, of which the last bytes are the tag, into `out`.
    pub fn decrypt(
        &self,
        iv: &[u8],
        aad: &[u8],
        text: &[u8],
        out: &mut [u8],
        written: &mut usize,
    ) -> Status
        ensures { Decrypts self.now iv.now aad.now text.now result out.old out.new written.new }
    {
        *written = 0;
        let keyed = match self.ready(aad.len(), text.len()) {
            Ok(keyed) => keyed,
            Err(status) => return status,
        };
        let tag_size = self.authsize as usize;
        if text.len() < tag_size {
            return Status::Invalid;
        }
        let (sealed, tag) = text.split_at(text.len() - tag_size);
        if out.len() < sealed.len() {
            return Status::NoRoom;
        }
        copy_front(sealed, out);
        match open_under(keyed, iv, aad, out, sealed.len(), tag) {
            Ok(()) => {
                *written = sealed.len();
                Status::Done
            }
            Err(error) => {
                clear_front(out, sealed.len());
                status_of(error)
            }
        }
    }

    /// Writes the MAC of `text` into `out`.
    pub fn digest(&self, text: &[u8], out: &mut [u8], written: &mut usize) -> Status
        ensures { Digests self.now text.now result out.old out.new written.new }
    {
        *written = 0;
        let keyed = match self.ready(0, text.len()) {
            Ok(keyed) => keyed,
            Err(status) => return status,
        };
        let mut room = [0u8; 32];
        match keyed.make_in_place(text, &mut room) {
            Ok(size) => {
                if out.len() < size {
                    return Status::NoRoom;
                }
                copy_front(&room[..size], out);
                *written = size;
                Status::Done
            }
            Err(_) => Status::Invalid,
        }
    }
}
