//! Looks for a job that are due. Their types force the order of a worker's steps: who may have been left a job looks
//! before it sleeps.

use job_wakeups::WaitToken;
use std::sync::Wait;

/// A look at the board that is due, since a job may have been left to who has it: it noticed one, was woken, or
/// announced a wait. A value that is let go is refused, so it is spent at a turn, by `take_or_pass_on` or
/// `look_at_end`. (The places `looking` and `last_looking` of the machine in `wake_ups`.)
pub struct Look<'a> {
    token: Option<WaitToken<'a>>,
}

impl<'a> Look<'a> {
    /// A look of one who wasn't left anything. Anybody may look.
    pub fn new() -> Look<'a> {
        Look { token: None }
    }

    /// The last one before a wait that is announced.
    pub(crate) fn last(token: WaitToken<'a>) -> Look<'a> {
        Look { token: Some(token) }
    }

    /// Something was found, or the board is shut: a wait that is announced is over. (`Drop_key`.)
    pub(crate) fn end(self) {
        let Look { token } = self;
        drop(token);
    }

    /// Nothing was found: where a wait is announced, its caller may sleep.
    pub(crate) fn find_none(self) -> Option<Drowsy<'a>> {
        let Look { token } = self;
        match token {
            Some(token) => Some(Drowsy { token }),
            None => None,
        }
    }
}

/// One who looked after it had announced a wait, and found nothing. It sleeps, or lets go of this, where it found
/// something else. (The place `sleepy`, and `Rise`.)
#[derive(Drop)]
pub struct Drowsy<'a> {
    token: WaitToken<'a>,
}

impl<'a> Drowsy<'a> {
    /// Sleeps until something has happened since the wait was announced. Who is woken looks. (`Sleep` and `Wake`, or
    /// `Look_again`.)
    pub fn sleep<R: Wait>(self, rt: &R) -> Look<'a> {
        let Drowsy { token } = self;
        token.wait(rt);
        Look::new()
    }
}

/// A wait for what is finished on a pipeline, which is announced. Nobody leaves a job to who has it, so it may be let
/// go.
#[derive(Drop)]
pub struct EndWait<'a> {
    token: WaitToken<'a>,
}

impl<'a> EndWait<'a> {
    pub(crate) fn on(token: WaitToken<'a>) -> EndWait<'a> {
        EndWait { token }
    }

    /// The look that is due before who has it sleeps.
    pub fn look(self) -> Look<'a> {
        let EndWait { token } = self;
        Look::last(token)
    }
}

/// What staying awake came to.
pub enum SpinResult<'a> {
    /// A job came, and nobody else may have been woken for it.
    JobCame(Look<'a>),
    /// None came. It can only announce a wait (`prepare_wait_for_job`).
    Tired(Tired),
}

/// A worker that gave up staying awake. A value that is let go is refused: whoever jobs were left to while it stayed
/// awake looks once more before it sleeps. (The place `tired`.)
pub struct Tired {
    tired: job_wakeups::Tired,
}

impl Tired {
    pub(crate) fn of(tired: job_wakeups::Tired) -> Tired {
        Tired { tired }
    }

    pub(crate) fn inner(self) -> job_wakeups::Tired {
        let Tired { tired } = self;
        tired
    }
}
