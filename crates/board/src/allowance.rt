//! What each caller has used of its allowance.

ghost use Rattle.std.specs.Prelude.{◌≡◌, ℕ, ◌+◌, ◌<◌, ◌==◌, ◌^◌, if◌then◌else◌, OnOk, OnErr, IsSome, IfSome, ◌↔◌, ◌≤◌};
ghost use Rattle.board.specs.Allowance.{used_at};

use std::alloc::AllocError;
use std::collections::BTreeMap;

/// How many requests of one caller a board accepts: 2^20.
const MOST_REQUESTS: u64 = 1_048_576;

/// How many bytes the accepted requests of one caller have together at most: 2^26.
const MOST_BYTES: u64 = 67_108_864;

/// What a caller has used.
#[derive(Clone, Copy)]
pub(crate) struct Used {
    pub(crate) requests: u64,
    pub(crate) bytes: u64,
}

/// What this caller has used.
fn used_by(used: &BTreeMap<u32, Used>, caller: u32) -> Used
    ensures { result ≡ used_at used.now caller }
{
    match used.get(&caller) {
        Some(so_far) => *so_far,
        None => Used {
            requests: 0,
            bytes: 0,
        },
    }
}

/// What the caller has used with one more request of `size` bytes, where its allowance has room for it.
pub(crate) fn used_with(used: &BTreeMap<u32, Used>, caller: u32, size: u64) -> Option<Used>
    ensures room { IsSome result ↔ (((used_at used.now caller).requests < 2 ^ 20) × ((used_at used.now caller).bytes + size ≤ 2 ^ 26)) }
    ensures more { IfSome result (λ more. more ≡ record {
      requests = (used_at used.now caller).requests + 1;
      bytes = (used_at used.now caller).bytes + size;
    }) }
{
    let Used { requests, bytes } = used_by(used, caller);
    let bytes = bytes.checked_add(size)?;
    if requests < MOST_REQUESTS && bytes <= MOST_BYTES {
        Some(Used {
            requests: requests + 1,
            bytes,
        })
    } else {
        None
    }
}

/// Notes what the caller has used with a request, where it is accepted. Want of memory changes nothing.
pub(crate) fn spend(
    used: &mut BTreeMap<u32, Used>,
    caller: u32,
    more: Used,
    accepted: bool,
) -> Result<(), AllocError>
    ensures ok { OnOk result ((c : ℕ) →
        used_at used.new c ≡ (if accepted then (if c == caller then more else used_at used.old c) else used_at used.old c)) }
    ensures err { OnErr result ((c : ℕ) → used_at used.new c ≡ used_at used.old c) }
{
    if accepted {
        used.insert(caller, more)?;
    }
    Ok(())
}
