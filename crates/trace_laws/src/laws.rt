//! The laws of a run's trace.

ghost use Rattle.trace_laws.specs.Clients.{ClientTracesCanBeRead};
ghost use Rattle.trace_laws.specs.Readable.{TracesCanBeRead};

/// What the registry and the board of a script's run recorded can be read back from its trace.
pub fn traces_can_be_read()
    ensures { TracesCanBeRead }
{}

/// So can what they recorded of the run of several scripts at once.
pub fn client_traces_can_be_read()
    ensures { ClientTracesCanBeRead }
{}
