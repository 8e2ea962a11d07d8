//! What a call answers.

ghost use Rattle.std.specs.Prelude.{◌≡◌};
ghost use Rattle.perdoaze_calls.specs.Status.{code_of};

/// What a call came to.
#[derive(Clone, Copy, Debug, PartialEq, Eq)]
pub enum Status {
    Done,
    /// Nothing answers to the name.
    NoName,
    /// Memory was refused.
    NoMemory,
    /// A length, a key, a name or a direction isn't taken.
    Invalid,
    /// The answer has more bytes than there is room for.
    NoRoom,
    /// The tag is wrong.
    BadMessage,
    /// No key was set.
    NoKey,
}

impl Status {
    /// 0, or the negative of Linux's error number.
    pub fn code(self) -> i32
        ensures { result ≡ code_of self }
    {
        match self {
            Status::Done => 0,
            Status::NoName => -2,
            Status::NoMemory => -12,
            Status::Invalid => -22,
            Status::NoRoom => -75,
            Status::BadMessage => -74,
            Status::NoKey => -126,
        }
    }
}
