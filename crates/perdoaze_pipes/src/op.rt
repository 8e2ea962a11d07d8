//! A request, in the caller's own memory: `struct perdoaze_op`.

ghost use Rattle.std.specs.Prelude.{◌≡◌};
ghost use Rattle.perdoaze_pipes.specs.Ops.{Moves, Begun, Ends, owner_of};

use crate::pipe_error::PipeErr;

/// How far a request is: it is nobody's but its owner's.
pub const IDLE: u32 = 0;
/// It waits in a pipe.
pub const WAITS: u32 = 1;
/// A worker has it.
pub const TAKEN: u32 = 2;
/// The worker ran it.
pub const RAN: u32 = 3;

/// A request: what it asks, what it came to, and how far it is. From the submission until a poll hands it out C touches
/// neither it nor what it points to, but by the calls here.
#[repr(C)]
pub struct Op<'a> {
    pub iv: &'a [u8],
    pub aad: &'a [u8],
    /// The first `len` bytes are the text, which is changed in its place.
    pub text: &'a mut [u8],
    pub len: usize,
    /// 1: to encrypt, 2: to decrypt, 3: to make a MAC.
    pub what: u32,
    /// 0, or the negative of Linux's error number.
    pub status: i32,
    /// The number of bytes that came of it.
    pub written: usize,
    pub number: u64,
    pub worker: u32,
    pub phase: u32,
    /// Words of the caller's, which are never read here.
    pub session: u64,
    pub user: u64,
    pub reserved: [u64; 3],
}

impl Op<'_> {
    /// Its owner is about to submit it. `Invalid` where it isn't idle.
    pub fn ready(&mut self) -> Result<(), PipeErr>
        ensures came { Moves self.old self.new 0 1 result }
        ensures kept { owner_of self.new ≡ owner_of self.old }
    {
        if self.phase != IDLE {
            return Err(PipeErr::Invalid);
        }
        self.phase = WAITS;
        Ok(())
    }

    /// No pipe took it in: it is idle again. `Invalid` where it doesn't wait.
    pub fn withdraw(&mut self) -> Result<(), PipeErr>
        ensures came { Moves self.old self.new 1 0 result }
        ensures kept { owner_of self.new ≡ owner_of self.old }
    {
        if self.phase != WAITS {
            return Err(PipeErr::Invalid);
        }
        self.phase = IDLE;
        Ok(())
    }

    /// The worker took it under this number. `Invalid` where it doesn't wait.
    pub fn begin(&mut self, number: u64, worker: u32) -> Result<(), PipeErr>
        ensures came { Moves self.old self.new 1 2 result }
        ensures owner { Begun self.old self.new number worker result }
    {
        if self.phase != WAITS {
            return Err(PipeErr::Invalid);
        }
        self.number = number;
        self.worker = worker;
        self.phase = TAKEN;
        Ok(())
    }

    /// It was handed out under this number, and is its owner's again. `Invalid` where it wasn't run under that.
    pub fn end(&mut self, number: u64) -> Result<(), PipeErr>
        ensures came { Ends self.old self.new number result }
        ensures kept { owner_of self.new ≡ owner_of self.old }
    {
        if self.phase != RAN || self.number != number {
            return Err(PipeErr::Invalid);
        }
        self.phase = IDLE;
        Ok(())
    }
}
