//! A script with its workers and with or without its trace, or a load of so many requests.

ghost use Rattle.std.specs.Prelude.{◌≡◌, false};

/// The program as it answers a script.
#[derive(Clone, Copy, Debug, PartialEq, Eq)]
pub struct ScriptOptions {
    /// How many threads work beside the script: 0 to 16, 4 where none are given.
    pub workers: u32,
    /// Whether the trace is written after the answers.
    pub trace: bool,
}

/// What no words ask for: four workers, and no trace.
impl Default for ScriptOptions {
    fn default() -> ScriptOptions
        ensures { result ≡ record { workers = 4; trace = false } }
    {
        ScriptOptions {
            workers: 4,
            trace: false,
        }
    }
}

/// The program as it makes requests by itself.
#[derive(Clone, Copy, Debug, PartialEq, Eq)]
pub struct LoadOptions {
    /// How many threads work beside the load: 0 to 16, 4 where none are given.
    pub workers: u32,
    /// The seed of the requests.
    pub seed: u64,
    /// How many requests: 0 to 100,000, 1,000 where none are given.
    pub count: u32,
}

/// The program as it answers several scripts at once, behind a first part whose transforms they share.
#[derive(Clone, Copy, Debug, PartialEq, Eq)]
pub struct ClientOptions {
    /// How many threads work beside the scripts: 0 to 16, 4 where none are given.
    pub workers: u32,
    /// Whether the trace is written after the answers.
    pub trace: bool,
    /// How many scripts run at once: 1 to 8.
    pub clients: u32,
}

/// What a run is asked for.
#[derive(Clone, Copy, Debug, PartialEq, Eq)]
pub enum Mode {
    /// A script is read and answered.
    Script(ScriptOptions),
    /// Several scripts are read, and answered at once.
    Clients(ClientOptions),
    /// Requests are made from a seed, and no input is read.
    Load(LoadOptions),
}
