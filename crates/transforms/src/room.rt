//! The memory of a job's answer. It is reserved with the job and written as the job runs, so that whoever runs it is
//! the first to touch it.

ghost use Rattle.std.specs.Prelude.{◌≡◌, ◌++◌, ◌+◌, ◌≤◌, ◌<◌, ◌^◌, [], length, vec_capacity, replicate};
ghost use Rattle.std.specs.List.{concat};
ghost use Rattle.transforms.specs.Asked.{aead_room};

use crate::request::{Dir, Request};
use kc_base::Bytes;
use sg_walk::Segs;

/// Adds the bytes of each piece, for which there is room. No memory is taken.
fn add_parts(buffer: &mut Vec<u8>, parts: &[Bytes])
    requires { length buffer.old.items + length (concat parts.now) ≤ vec_capacity buffer.old }
    ensures items { buffer.new.items ≡ buffer.old.items ++ concat parts.now }
    ensures capacity { vec_capacity buffer.old ≤ vec_capacity buffer.new }
{
    for part in parts {
        let _ = buffer.extend_from_slice(part.as_slice());
    }
}

/// Adds so many zeros, for which there is room. No memory is taken.
pub fn add_zeros(buffer: &mut Vec<u8>, zeros: usize)
    requires { length buffer.old.items + zeros ≤ vec_capacity buffer.old }
    ensures { buffer.new.items ≡ buffer.old.items ++ replicate zeros 0 }
{
    let _ = buffer.resize(buffer.len() + zeros, 0);
}

/// Adds the text in one piece, for which there is room. No memory is taken.
pub fn add_text(buffer: &mut Vec<u8>, text: &Segs)
    requires { length buffer.old.items + length text.now.text ≤ vec_capacity buffer.old }
    ensures items { buffer.new.items ≡ buffer.old.items ++ text.now.text }
    ensures capacity { vec_capacity buffer.old ≤ vec_capacity buffer.new }
{
    add_parts(buffer, text.parts());
}

/// The bytes of a text, and of the tag behind the text of an encryption.
pub fn length_with_tag(authsize: usize, request: &Request) -> usize
    requires tag_fits { authsize ≤ 32 }
    requires text_short { length request.now.text.text < 2 ^ 32 }
    ensures { result ≡ length (aead_room authsize request.now) }
{
    match request.dir {
        Dir::Enc => request.text.len() + authsize,
        Dir::Dec => request.text.len(),
        Dir::Mac => 0,
    }
}

/// Adds the text, and zeros for the tag behind the text of an encryption, for which there is room. No memory is taken.
pub fn add_with_tag(buffer: &mut Vec<u8>, authsize: usize, request: &Request)
    requires { length buffer.old.items + length (aead_room authsize request.now) ≤ vec_capacity buffer.old }
    ensures { buffer.new.items ≡ buffer.old.items ++ aead_room authsize request.now }
{
    match request.dir {
        Dir::Enc => {
            add_text(buffer, &request.text);
            add_zeros(buffer, authsize);
        }
        Dir::Dec => add_text(buffer, &request.text),
        Dir::Mac => {}
    }
}
