//! The mode by the options' values, and the rules between options.

ghost use Rattle.std.specs.Prelude.{◌≡◌, IfOk, option_map};
ghost use Rattle.clap.specs.Words.{found_of, rows_of};
ghost use Rattle.command_line.specs.CommandLine.{IsWithinLimits, clients_mode, clients_of, count_of, is_true_text, load_mode, mode_by, mode_of_rows, script_mode, scripts_mode, seed_of, workers_of};

use crate::CommandLineError;
use crate::number::{number_at_most, number_from_one, number_given};
use clap::ArgMatches;
use run_options::{ClientOptions, LoadOptions, Mode, ScriptOptions};

const DEFAULT_WORKERS: u32 = 4;

const MAX_WORKERS: u32 = 16;

const MAX_CLIENTS: u32 = 8;

const DEFAULT_COUNT: u32 = 1_000;

const MAX_COUNT: u32 = 100_000;

fn script_given(workers: Option<&str>, trace: bool) -> Result<Mode, CommandLineError>
    ensures value { result ≡ script_mode (workers_of (option_map (λ s. s.now) workers.entry)) trace }
    ensures bounds { IfOk result IsWithinLimits }
{
    match number_given(DEFAULT_WORKERS, MAX_WORKERS, workers) {
        Some(workers) => Ok(Mode::Script(ScriptOptions { workers, trace })),
        None => Err(CommandLineError::InvalidNumber),
    }
}

fn clients_given(
    workers: Option<&str>,
    trace: bool,
    clients: &str,
) -> Result<Mode, CommandLineError>
    ensures value { result ≡ clients_mode (workers_of (option_map (λ s. s.now) workers.entry)) trace (clients_of clients.now) }
    ensures bounds { IfOk result IsWithinLimits }
{
    let workers = number_given(DEFAULT_WORKERS, MAX_WORKERS, workers);
    let clients = number_from_one(clients, MAX_CLIENTS);
    match (workers, clients) {
        (Some(workers), Some(clients)) => Ok(Mode::Clients(ClientOptions {
            workers,
            trace,
            clients,
        })),
        _ => Err(CommandLineError::InvalidNumber),
    }
}

// A script, or several at once.
fn scripts_given(
    workers: Option<&str>,
    trace: bool,
    clients: Option<&str>,
) -> Result<Mode, CommandLineError>
    ensures value { result
        ≡ scripts_mode (workers_of (option_map (λ s. s.now) workers.entry)) trace (option_map (λ s. s.now) clients.entry) }
    ensures bounds { IfOk result IsWithinLimits }
{
    match clients {
        Some(clients) => clients_given(workers, trace, clients),
        None => script_given(workers, trace),
    }
}

fn load_given(
    workers: Option<&str>,
    seed: &str,
    count: Option<&str>,
) -> Result<Mode, CommandLineError>
    ensures value { result ≡ load_mode (workers_of (option_map (λ s. s.now) workers.entry))
        (seed_of seed.now) (count_of (option_map (λ s. s.now) count.entry)) }
    ensures bounds { IfOk result IsWithinLimits }
{
    let workers = number_given(DEFAULT_WORKERS, MAX_WORKERS, workers);
    let seed = number_at_most(seed, u64::MAX);
    let count = number_given(DEFAULT_COUNT, MAX_COUNT, count);
    match (workers, seed, count) {
        (Some(workers), Some(seed), Some(count)) => Ok(Mode::Load(LoadOptions {
            workers,
            seed,
            count,
        })),
        _ => Err(CommandLineError::InvalidNumber),
    }
}

fn mode_given(
    workers: Option<&str>,
    trace: bool,
    clients: Option<&str>,
    load: Option<&str>,
    count: Option<&str>,
) -> Result<Mode, CommandLineError>
    ensures value { result ≡ mode_by (option_map (λ s. s.now) workers.entry) trace (option_map (λ s. s.now) clients.entry)
        (option_map (λ s. s.now) load.entry) (option_map (λ s. s.now) count.entry) }
    ensures bounds { IfOk result IsWithinLimits }
{
    let Some(seed) = load else {
        return match count {
            Some(_) => Err(CommandLineError::CountWithoutLoad),
            None => scripts_given(workers, trace, clients),
        };
    };
    if trace {
        return Err(CommandLineError::LoadWithTrace);
    }
    if clients.is_some() {
        return Err(CommandLineError::LoadWithClients);
    }
    load_given(workers, seed, count)
}

// `clap` gives a flag the value `true` where it stands, and else `false`.
fn is_set(value: Option<&str>) -> bool
    ensures { result ≡ is_true_text (option_map (λ s. s.now) value.entry) }
{
    match value {
        Some(text) => text == "true",
        None => false,
    }
}

// The mode by what `clap` found.
pub(crate) fn mode_found(matches: &ArgMatches) -> Result<Mode, CommandLineError>
    ensures value { result ≡ mode_of_rows (rows_of (found_of matches.now)) }
    ensures bounds { IfOk result IsWithinLimits }
{
    let trace = is_set(matches.get_str("trace"));
    mode_given(
        matches.get_str("workers"),
        trace,
        matches.get_str("clients"),
        matches.get_str("load"),
        matches.get_str("count"),
    )
}
