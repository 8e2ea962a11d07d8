//! What C calls of pipes, and of requests that go through them. No pointer is NULL here: the functions of c/ see to
//! that.

ghost use Rattle.std.specs.Prelude.{◌≡◌, ◌-◌, ◌^◌, min, ⊤, ℕ, Bool, true, false, None, Result};
ghost use Rattle.std.specs.List.{AllZip};
ghost use Rattle.perdoaze_pipes.specs.Calls.{BeginsIn, OnPipe, Drains, Starts};
ghost use Rattle.perdoaze_pipes.specs.Codes.{unit_code as unit_number, flag_code as flag_number, count_code as count_number};
ghost use Rattle.perdoaze_pipes.specs.Ops.{Moves, Begun, Ends, Runs, RunsOrStays, owner_of};
ghost use Rattle.perdoaze_pipes.specs.Pipes.{Submits, TakesSome, Finishes, PollsSome, Holds, Masks};
ghost use Rattle.perdoaze_pipes.specs.declared.pipe_error.PipeErr.{PipeErr};

use perdoaze_calls::Slot;
use perdoaze_pipes::{Op, PipePlace, calls, count_code, flag_code, run_each, unit_code};
use std::alloc::Global;

/// Begins a pipe in the place, in place of the one that was there.
#[unsafe(no_mangle)]
pub extern "C" fn perdoaze_raw_pipe_init(
    place: &mut PipePlace,
    alloc: Global,
    kind: u32,
    room: usize,
    max: usize,
    workers: u32,
) -> i32
    ensures { (came : Result Unit PipeErr) × (result ≡ unit_number came) × BeginsIn place.new.handle.value kind room max workers came }
{
    unit_code(calls::init(place, alloc, kind, room, max, workers))
}

/// Takes requests in: as many as there is room for.
#[unsafe(no_mangle)]
pub extern "C" fn perdoaze_raw_pipe_submit(
    place: &mut PipePlace,
    alloc: Global,
    addresses: &[u64],
    backlog: bool,
    first: &mut u64,
    started: &mut u64,
) -> i64
    ensures { (came : Result ℕ PipeErr) × (result ≡ count_number came)
        × OnPipe place.old.handle.value place.new.handle.value came ((first.new ≡ first.old) × (started.new ≡ started.old))
        (λ p q. Submits p q addresses.now backlog first.new started.new) }
{
    count_code(calls::submit(place, alloc, addresses, backlog, first, started))
}

/// Hands requests to a worker.
#[unsafe(no_mangle)]
pub extern "C" fn perdoaze_raw_pipe_take(
    place: &mut PipePlace,
    alloc: Global,
    worker: u32,
    addresses: &mut [u64],
    first: &mut u64,
) -> i64
    ensures { (came : Result ℕ PipeErr) × (result ≡ count_number came)
        × OnPipe place.old.handle.value place.new.handle.value came ((addresses.new ≡ addresses.old) × (first.new ≡ first.old))
        (λ p q. TakesSome p q worker addresses.old addresses.new first.new) }
{
    count_code(calls::take(place, alloc, worker, addresses, first))
}

/// Takes back requests that a worker is done with, from number `first` on: at most 2^32 - 1.
#[unsafe(no_mangle)]
pub extern "C" fn perdoaze_raw_pipe_finish(
    place: &mut PipePlace,
    alloc: Global,
    worker: u32,
    first: u64,
    count: u64,
) -> i64
    ensures { (came : Result ℕ PipeErr) × (result ≡ count_number came)
        × OnPipe place.old.handle.value place.new.handle.value came ⊤ (λ p q. Finishes p q worker first (min count (2 ^ 32 - 1))) }
{
    let most = count.min(0xffff_ffff) as usize;
    count_code(calls::finish(place, alloc, worker, first, most))
}

/// Hands out the next requests that are done, in the order of submission.
#[unsafe(no_mangle)]
pub extern "C" fn perdoaze_raw_pipe_poll(
    place: &mut PipePlace,
    alloc: Global,
    addresses: &mut [u64],
    first: &mut u64,
) -> i64
    ensures { (came : Result ℕ PipeErr) × (result ≡ count_number came)
        × OnPipe place.old.handle.value place.new.handle.value came ((addresses.new ≡ addresses.old) × (first.new ≡ first.old))
        (λ p q. PollsSome p q addresses.old addresses.new first.new) }
{
    count_code(calls::poll(place, alloc, addresses, first))
}

/// Whether each request that was submitted was handed out.
#[unsafe(no_mangle)]
pub extern "C" fn perdoaze_raw_pipe_drained(place: &mut PipePlace, alloc: Global) -> i32
    ensures { (came : Result Bool PipeErr) × (result ≡ flag_number came)
        × OnPipe place.old.handle.value place.new.handle.value came ⊤ Drains }
{
    flag_code(calls::drained(place, alloc))
}

/// Tells below which number no request waits in the backlog.
#[unsafe(no_mangle)]
pub extern "C" fn perdoaze_raw_pipe_started(
    place: &mut PipePlace,
    alloc: Global,
    number: &mut u64,
) -> i32
    ensures { (came : Result Unit PipeErr) × (result ≡ unit_number came)
        × OnPipe place.old.handle.value place.new.handle.value came (number.new ≡ number.old) (λ p q. Starts p q number.new) }
{
    unit_code(calls::started(place, alloc, number))
}

/// Holds the queue.
#[unsafe(no_mangle)]
pub extern "C" fn perdoaze_raw_pipe_hold(place: &mut PipePlace, alloc: Global) -> i32
    ensures { (came : Result Unit PipeErr) × (result ≡ unit_number came)
        × OnPipe place.old.handle.value place.new.handle.value came ⊤ (λ p q. Holds p q true) }
{
    unit_code(calls::hold(place, alloc))
}

/// Lets the queue go.
#[unsafe(no_mangle)]
pub extern "C" fn perdoaze_raw_pipe_go(place: &mut PipePlace, alloc: Global) -> i32
    ensures { (came : Result Unit PipeErr) × (result ≡ unit_number came)
        × OnPipe place.old.handle.value place.new.handle.value came ⊤ (λ p q. Holds p q false) }
{
    unit_code(calls::go(place, alloc))
}

/// Names the workers that take.
#[unsafe(no_mangle)]
pub extern "C" fn perdoaze_raw_pipe_mask(place: &mut PipePlace, alloc: Global, bits: u64) -> i32
    ensures { (came : Result Unit PipeErr) × (result ≡ unit_number came)
        × OnPipe place.old.handle.value place.new.handle.value came ⊤ (λ p q. Masks p q bits) }
{
    unit_code(calls::mask(place, alloc, bits))
}

/// Frees what is in the place. Requests in flight are their owner's again.
#[unsafe(no_mangle)]
pub extern "C" fn perdoaze_raw_pipe_free(place: &mut PipePlace, alloc: Global)
    ensures { place.new.handle.value ≡ None }
{
    calls::free(place, alloc);
}

/// A request is about to be submitted.
#[unsafe(no_mangle)]
pub extern "C" fn perdoaze_raw_op_ready(op: &mut Op<'_>) -> i32
    ensures { (came : Result Unit PipeErr) × (result ≡ unit_number came)
        × Moves op.old op.new 0 1 came × (owner_of op.new ≡ owner_of op.old) }
{
    unit_code(op.ready())
}

/// No pipe took the request in.
#[unsafe(no_mangle)]
pub extern "C" fn perdoaze_raw_op_withdraw(op: &mut Op<'_>) -> i32
    ensures { (came : Result Unit PipeErr) × (result ≡ unit_number came)
        × Moves op.old op.new 1 0 came × (owner_of op.new ≡ owner_of op.old) }
{
    unit_code(op.withdraw())
}

/// A worker took the request under this number.
#[unsafe(no_mangle)]
pub extern "C" fn perdoaze_raw_op_begin(op: &mut Op<'_>, number: u64, worker: u32) -> i32
    ensures { (came : Result Unit PipeErr) × (result ≡ unit_number came)
        × Moves op.old op.new 1 2 came × Begun op.old op.new number worker came }
{
    unit_code(op.begin(number, worker))
}

/// Does the work of a request that a worker has.
#[unsafe(no_mangle)]
pub extern "C" fn perdoaze_raw_op_run(slot: &mut Slot, alloc: Global, op: &mut Op<'_>) -> i32
    ensures kept { slot.new.handle.value ≡ slot.old.handle.value }
    ensures came { (came : Result Unit PipeErr) × (result ≡ unit_number came) × Runs slot.old.handle.value op.old op.new came }
{
    unit_code(op.run(slot, alloc))
}

/// Does the work of each request that a worker has.
#[unsafe(no_mangle)]
pub extern "C" fn perdoaze_raw_ops_run(slot: &mut Slot, alloc: Global, ops: &mut [Op<'_>])
    ensures kept { slot.new.handle.value ≡ slot.old.handle.value }
    ensures came { AllZip (RunsOrStays slot.old.handle.value) ops.old ops.new }
{
    run_each(slot, alloc, ops);
}

/// The request was handed out under this number, and is its owner's again.
#[unsafe(no_mangle)]
pub extern "C" fn perdoaze_raw_op_end(op: &mut Op<'_>, number: u64) -> i32
    ensures { (came : Result Unit PipeErr) × (result ≡ unit_number came)
        × Ends op.old op.new number came × (owner_of op.new ≡ owner_of op.old) }
{
    unit_code(op.end(number))
}
