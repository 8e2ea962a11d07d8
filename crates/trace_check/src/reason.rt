//! Why an event isn't right.

ghost use Rattle.std.specs.Prelude.{◌≡◌};
ghost use Rattle.trace_check.specs.Pipes.{reason_of};

/// The first reason that holds of an event which isn't right after those before it.
#[derive(Clone, Copy, Debug, PartialEq, Eq)]
pub enum Reason {
    /// The larval, entry, pipeline or request that it needs isn't there, or isn't in the state that it needs.
    State,
    /// Another caller claimed, took, made or referenced it, or its caller may make no such event.
    Caller,
    /// One of its numbers isn't the right one.
    Number,
    /// A word of its answer isn't the right one.
    Answer,
}

/// The first reason, where these four parts of what an event needs are there or not.
pub(crate) fn reason_of(state: bool, caller: bool, number: bool, answer: bool) -> Option<Reason>
    ensures { result ≡ reason_of state caller number answer }
{
    if !state {
        Some(Reason::State)
    } else if !caller {
        Some(Reason::Caller)
    } else if !number {
        Some(Reason::Number)
    } else if !answer {
        Some(Reason::Answer)
    } else {
        None
    }
}
