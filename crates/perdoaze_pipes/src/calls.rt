//! The calls of C, each on a place for a pipe.

ghost use Rattle.std.specs.Prelude.{◌≡◌, ⊤, true, false, None};
ghost use Rattle.perdoaze_pipes.specs.Calls.{BeginsIn, OnPipe, Drains, Starts};
ghost use Rattle.perdoaze_pipes.specs.Pipes.{Submits, TakesSome, Finishes, PollsSome, Holds, Masks};

use crate::pipe::Pipe;
use crate::pipe_error::PipeErr;
use crate::pipe_place::PipePlace;
use std::alloc::Global;

/// Begins a pipe in the place, in place of the one that was there. No other call takes memory.
pub fn init(
    place: &mut PipePlace,
    alloc: Global,
    kind: u32,
    room: usize,
    max: usize,
    workers: u32,
) -> Result<(), PipeErr>
    ensures { BeginsIn place.new.handle.value kind room max workers result }
{
    drop(place.take(alloc));
    let pipe = Pipe::new(alloc, kind, room, max, workers)?;
    match Box::new(alloc, pipe) {
        Ok(made) => {
            place.fill(made);
            Ok(())
        }
        Err(_) => Err(PipeErr::NoMemory),
    }
}

/// Takes requests in.
pub fn submit(
    place: &mut PipePlace,
    alloc: Global,
    addresses: &[u64],
    backlog: bool,
    first: &mut u64,
    started: &mut u64,
) -> Result<usize, PipeErr>
    ensures { OnPipe place.old.handle.value place.new.handle.value result ((first.new ≡ first.old) × (started.new ≡ started.old))
        (λ p q. Submits p q addresses.now backlog first.new started.new) }
{
    let Some(mut pipe) = place.take(alloc) else {
        return Err(PipeErr::Invalid);
    };
    let came = pipe.submit(addresses, backlog, first, started);
    place.fill(pipe);
    came
}

/// Hands requests to a worker.
pub fn take(
    place: &mut PipePlace,
    alloc: Global,
    worker: u32,
    out: &mut [u64],
    first: &mut u64,
) -> Result<usize, PipeErr>
    ensures { OnPipe place.old.handle.value place.new.handle.value result ((out.new ≡ out.old) × (first.new ≡ first.old))
        (λ p q. TakesSome p q worker out.old out.new first.new) }
{
    let Some(mut pipe) = place.take(alloc) else {
        return Err(PipeErr::Invalid);
    };
    let count = pipe.take(worker, out, first);
    place.fill(pipe);
    Ok(count)
}

/// Takes back requests that a worker is done with.
pub fn finish(
    place: &mut PipePlace,
    alloc: Global,
    worker: u32,
    first: u64,
    count: usize,
) -> Result<usize, PipeErr>
    ensures { OnPipe place.old.handle.value place.new.handle.value result ⊤ (λ p q. Finishes p q worker first count) }
{
    let Some(mut pipe) = place.take(alloc) else {
        return Err(PipeErr::Invalid);
    };
    let came = pipe.finish(worker, first, count);
    place.fill(pipe);
    came
}

/// Hands out the next requests that are done.
pub fn poll(
    place: &mut PipePlace,
    alloc: Global,
    out: &mut [u64],
    first: &mut u64,
) -> Result<usize, PipeErr>
    ensures { OnPipe place.old.handle.value place.new.handle.value result ((out.new ≡ out.old) × (first.new ≡ first.old))
        (λ p q. PollsSome p q out.old out.new first.new) }
{
    let Some(mut pipe) = place.take(alloc) else {
        return Err(PipeErr::Invalid);
    };
    let count = pipe.poll(out, first);
    place.fill(pipe);
    Ok(count)
}

/// Whether each request that was submitted was handed out.
pub fn drained(place: &mut PipePlace, alloc: Global) -> Result<bool, PipeErr>
    ensures { OnPipe place.old.handle.value place.new.handle.value result ⊤ Drains }
{
    let Some(pipe) = place.take(alloc) else {
        return Err(PipeErr::Invalid);
    };
    let drained = pipe.window.is_drained();
    place.fill(pipe);
    Ok(drained)
}

/// Tells below which number no request waits in the backlog.
pub fn started(place: &mut PipePlace, alloc: Global, number: &mut u64) -> Result<(), PipeErr>
    ensures { OnPipe place.old.handle.value place.new.handle.value result (number.new ≡ number.old) (λ p q. Starts p q number.new) }
{
    let Some(pipe) = place.take(alloc) else {
        return Err(PipeErr::Invalid);
    };
    *number = pipe.window.started();
    place.fill(pipe);
    Ok(())
}

/// Holds the queue.
pub fn hold(place: &mut PipePlace, alloc: Global) -> Result<(), PipeErr>
    ensures { OnPipe place.old.handle.value place.new.handle.value result ⊤ (λ p q. Holds p q true) }
{
    let Some(mut pipe) = place.take(alloc) else {
        return Err(PipeErr::Invalid);
    };
    let came = pipe.hold();
    place.fill(pipe);
    came
}

/// Lets the queue go.
pub fn go(place: &mut PipePlace, alloc: Global) -> Result<(), PipeErr>
    ensures { OnPipe place.old.handle.value place.new.handle.value result ⊤ (λ p q. Holds p q false) }
{
    let Some(mut pipe) = place.take(alloc) else {
        return Err(PipeErr::Invalid);
    };
    let came = pipe.go();
    place.fill(pipe);
    came
}

/// Names the workers that take.
pub fn mask(place: &mut PipePlace, alloc: Global, bits: u64) -> Result<(), PipeErr>
    ensures { OnPipe place.old.handle.value place.new.handle.value result ⊤ (λ p q. Masks p q bits) }
{
    let Some(mut pipe) = place.take(alloc) else {
        return Err(PipeErr::Invalid);
    };
    let came = pipe.mask(bits);
    place.fill(pipe);
    came
}

/// Frees what is in the place. Requests in flight are their owner's again.
pub fn free(place: &mut PipePlace, alloc: Global)
    ensures { place.new.handle.value ≡ None }
{
    drop(place.take(alloc));
}
