//! What a call on a pipe or on a request is refused for, and the number that C gets.

ghost use Rattle.std.specs.Prelude.{◌≡◌, ◌<◌, ◌^◌, IfOk};
ghost use Rattle.perdoaze_pipes.specs.Codes.{error_number, unit_code as unit_number, flag_code as flag_number, count_code as count_number};

/// Why a call isn't done.
#[derive(Clone, Copy, Debug, PartialEq, Eq)]
pub enum PipeErr {
    /// As many requests are in flight as there is room for.
    Again,
    /// The queue is full, and the request may not wait in its backlog.
    NoSpace,
    /// 2^64 - 1 requests were submitted.
    Overflow,
    /// Memory was refused.
    NoMemory,
    /// A place has no pipe; a kind or a number isn't taken; or the request isn't where it must be.
    Invalid,
}

impl PipeErr {
    /// The negative of Linux's error number.
    pub fn number(self) -> i32
        ensures { result ≡ error_number self }
    {
        match self {
            PipeErr::Again => -11,
            PipeErr::NoSpace => -28,
            PipeErr::Overflow => -75,
            PipeErr::NoMemory => -12,
            PipeErr::Invalid => -22,
        }
    }
}

/// 0, or an error's number.
pub fn unit_code(came: Result<(), PipeErr>) -> i32
    ensures { result ≡ unit_number came }
{
    match came {
        Ok(()) => 0,
        Err(error) => error.number(),
    }
}

/// 1 or 0, or an error's number.
pub fn flag_code(came: Result<bool, PipeErr>) -> i32
    ensures { result ≡ flag_number came }
{
    match came {
        Ok(true) => 1,
        Ok(false) => 0,
        Err(error) => error.number(),
    }
}

/// How many, or an error's number.
pub fn count_code(came: Result<usize, PipeErr>) -> i64
    requires { IfOk came (λ n. n < 2 ^ 63) }
    ensures { result ≡ count_number came }
{
    match came {
        Ok(count) => count as i64,
        Err(error) => i64::from(error.number()),
    }
}
