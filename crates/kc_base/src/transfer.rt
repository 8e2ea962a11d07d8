//! A whole piece into a sink, and a whole input out of a source.
ghost use Rattle.std.specs.Prelude.{◌≡◌, ◌<◌, ◌≤◌, ℕ, length, MatchResult, IfOk, IfErr, IsErrOf};
ghost use Rattle.std.specs.Io.KnownBytes.{Consumes, Appends, IsAtEnd};
ghost use Rattle.kc_base.specs.declared.transfer.SinkError.TheVariants.{NoMemory};
ghost use Rattle.kc_base.specs.Streams.{AppendsFront, StopsReading, Rose};

use crate::{Bytes, ReadAnswer, Sink, Source, WriteAnswer};
use std::alloc::{AllocError, Global};
use thiserror::Error;

/// Why a piece was not taken whole, or not passed on.
#[derive(Clone, Copy, Debug, PartialEq, Eq, Error)]
pub enum SinkError {
    /// A write or a flush failed.
    #[error("a write or a flush failed")]
    Failed,
    /// The sink lacks memory.
    #[error("out of memory")]
    NoMemory,
}

impl From<AllocError> for SinkError {
    ghost from_gives = { λ _ e. e ≡ NoMemory };

    fn from(_: AllocError) -> Self {
        SinkError::NoMemory
    }
}

/// Why an input was not read whole.
#[derive(Clone, Copy, Debug, PartialEq, Eq, Error)]
pub enum InputError {
    /// A read failed.
    #[error("a read failed")]
    Failed,
    /// Memory is wanting for what was read.
    #[error("out of memory")]
    NoMemory,
    /// The input has more bytes than are allowed.
    #[error("the input is too long")]
    TooLong,
}

/// Hands the whole piece to the sink. What it does not take is offered again. `Failed` where a write failed, `NoMemory`
/// where the sink lacks memory: it has taken a front of the piece then.
pub fn write_piece<K: Sink>(out: &mut K, piece: &[u8]) -> Result<(), SinkError>
    ensures bytes { MatchResult result
        (λ _. Appends (K.held out.old) (K.held out.new) piece.now)
        (λ _. AppendsFront (K.held out.old) (K.held out.new) piece.now) }
    ensures later { K.faults out.old ≤ K.faults out.new }
    ensures cause { IsErrOf result SinkError.Failed → Rose (K.faults out.old) (K.faults out.new) }
{
    let mut rest = piece;
    while !rest.is_empty() {
        match out.write(rest) {
            WriteAnswer::Took(count) => rest = &rest[count..],
            WriteAnswer::Failed => return Err(SinkError::Failed),
            WriteAnswer::NoMemory => return Err(SinkError::NoMemory),
        }
    }
    Ok(())
}

/// Hands the whole piece to the sink as `write_piece` does, and flushes it. Where the flush fails, the sink has taken
/// all of the piece.
pub fn write_and_flush<K: Sink>(out: &mut K, piece: &[u8]) -> Result<(), SinkError>
    ensures bytes { MatchResult result
        (λ _. Appends (K.held out.old) (K.held out.new) piece.now)
        (λ _. AppendsFront (K.held out.old) (K.held out.new) piece.now) }
    ensures later { K.faults out.old ≤ K.faults out.new }
    ensures cause { IsErrOf result SinkError.Failed → Rose (K.faults out.old) (K.faults out.new) }
{
    write_piece(out, piece)?;
    out.flush()
}

/// Reads to the end, by `buf`, which has a byte at least, and gives all of it. `TooLong` where more than `limit` bytes
/// came, `Failed` where a read failed, `NoMemory` where memory is wanting: what was read is lost then.
pub fn read_input<S: Source>(
    alloc: Global,
    src: &mut S,
    buf: &mut [u8],
    limit: usize,
) -> Result<Bytes, InputError>
    requires { 0 < length buf.old }
    ensures whole { IfOk result (λ input. Consumes (S.left src.old) (S.left src.new) input
        × IsAtEnd (S.left src.new) × (length input ≤ limit)) }
    ensures part { IfErr result (StopsReading (S.left src.old) (S.left src.new) limit) }
    ensures later { S.faults src.old ≤ S.faults src.new }
    ensures cause { IsErrOf result InputError.Failed → Rose (S.faults src.old) (S.faults src.new) }
{
    let mut input = Vec::new(alloc);
    loop {
        match src.read(buf) {
            ReadAnswer::Got(count) => {
                if count > limit - input.len() {
                    return Err(InputError::TooLong);
                }
                if input.extend_from_slice(&buf[..count]).is_err() {
                    return Err(InputError::NoMemory);
                }
            }
            ReadAnswer::Ended => return Ok(Bytes::from_vec(input)),
            ReadAnswer::Failed => return Err(InputError::Failed),
        }
    }
}
