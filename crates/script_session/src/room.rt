//! The room for the text of what pipelines hand out.

ghost use Rattle.std.specs.Prelude.{◌+◌, ◌*◌, ◌^◌, ◌<◌, ◌≤◌};

/// Room for the text of all that a pipeline with so many requests can hand out, where all of the script's ask so many
/// bytes, and for a line of 64 bytes behind it, which has so many bytes more. It takes no more room than that. More
/// than any memory holds stand for as many.
///
/// Of each request there is at most a start and a completion, each in a line of at most 36 bytes and two digits for
/// each byte of its value, of which there are at most 64 more than it asked: 2 * 36 + 2 * 64 bytes, and two for each
/// byte.
pub fn collected_room(requests: u64, bytes: u64, more: usize) -> usize
    ensures enough { result < 2 ^ 63 → 2 * bytes + 200 * requests + more + 64 ≤ result }
    ensures most { result ≤ 2 * bytes + 200 * requests + more + 64 }
{
    let digits = (bytes as usize).saturating_mul(2);
    let lines = (requests as usize).saturating_mul(200);
    digits
        .saturating_add(lines)
        .saturating_add(more)
        .saturating_add(64)
}
