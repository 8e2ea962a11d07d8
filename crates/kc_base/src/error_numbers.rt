//! The error numbers of the kernel that an answer may name.
ghost use Rattle.std.specs.Prelude.{◌≡◌};
ghost use Rattle.kc_base.specs.Errno.{number_of, name_of};

use thiserror::Error;

/// An error number of the kernel, each with what it stands for here. Which call answers it, and when, its docstring
/// says.
#[derive(Clone, Copy, Debug, PartialEq, Eq, Error)]
pub enum Errno {
    /// No such entry, driver or transform.
    #[error("no such entry, driver or transform")]
    ENOENT,
    /// A limit of all requests in pipelines, or of their bytes, is reached.
    #[error("a limit of requests or of their bytes is reached")]
    E2BIG,
    /// An entry was unlisted meanwhile. The same call may succeed later.
    #[error("an entry was unlisted meanwhile")]
    EAGAIN,
    /// Not now: what is asked for is in use. Or a request was accepted, but waits for a place in its queue.
    #[error("busy, or accepted to wait")]
    EBUSY,
    /// There is one already.
    #[error("there is one already")]
    EEXIST,
    /// An argument has a wrong value or length, or its kind doesn't fit.
    #[error("invalid argument")]
    EINVAL,
    /// The registry holds as many entries as it can.
    #[error("the registry is full")]
    ENFILE,
    /// As many transforms are live as may be.
    #[error("too many transforms are live")]
    EMFILE,
    /// The queue is full, and the request was not accepted.
    #[error("the queue is full")]
    ENOSPC,
    /// A name has more than 127 bytes.
    #[error("the name is too long")]
    ENAMETOOLONG,
    /// The tag isn't that of the text.
    #[error("the tag is not that of the text")]
    EBADMSG,
    /// A request was accepted. Its outcome comes later.
    #[error("accepted; the outcome comes later")]
    EINPROGRESS,
    /// No key was set.
    #[error("no key was set")]
    ENOKEY,
}

impl Errno {
    /// Linux's number: 2 to 126.
    pub fn number(self) -> u32
        ensures { result ≡ number_of self }
    {
        match self {
            Errno::ENOENT => 2,
            Errno::E2BIG => 7,
            Errno::EAGAIN => 11,
            Errno::EBUSY => 16,
            Errno::EEXIST => 17,
            Errno::EINVAL => 22,
            Errno::ENFILE => 23,
            Errno::EMFILE => 24,
            Errno::ENOSPC => 28,
            Errno::ENAMETOOLONG => 36,
            Errno::EBADMSG => 74,
            Errno::EINPROGRESS => 115,
            Errno::ENOKEY => 126,
        }
    }

    /// The name that an answer prints, in capital letters: `EINVAL`.
    pub fn name(self) -> &'static str
        ensures { result.now ≡ name_of self }
    {
        match self {
            Errno::ENOENT => "ENOENT",
            Errno::E2BIG => "E2BIG",
            Errno::EAGAIN => "EAGAIN",
            Errno::EBUSY => "EBUSY",
            Errno::EEXIST => "EEXIST",
            Errno::EINVAL => "EINVAL",
            Errno::ENFILE => "ENFILE",
            Errno::EMFILE => "EMFILE",
            Errno::ENOSPC => "ENOSPC",
            Errno::ENAMETOOLONG => "ENAMETOOLONG",
            Errno::EBADMSG => "EBADMSG",
            Errno::EINPROGRESS => "EINPROGRESS",
            Errno::ENOKEY => "ENOKEY",
        }
    }
}
