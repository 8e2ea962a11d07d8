//! A script of the crypto API on standard input, or several at once, whose lines are answered on standard output; or a
//! load of requests.
#![tactic(auto)]

#[cfg(test)]
mod client_tests;
#[cfg(test)]
mod fault_tests;
#[cfg(test)]
mod history_tests;
#[cfg(test)]
mod limit_tests;
#[cfg(test)]
mod load_tests;
#[cfg(test)]
mod peer_tests;
#[cfg(test)]
mod pipeline_tests;
mod program;
#[cfg(test)]
mod registry_tests;
#[cfg(test)]
mod stream_tests;
#[cfg(test)]
mod tests;
#[cfg(test)]
mod worked_tests;

use crew::NoGate;
use program::run;
use script_run::{NO_MEMORY, USAGE};
use std::io::BufWriter;
use std::process::ExitCode;
use std::{env, io, mem};
use std_streams::{StdSink, StdSource};

/// So many bytes of answers are written at once, unless they are flushed before.
const WRITTEN_AT_ONCE: usize = 65_536;

// The arguments without the program's name.
fn words(rt: &HostRuntime) -> io::Result<Vec<String>> {
    let mut words = Vec::new(rt.alloc());
    for word in env::args(rt)?.skip(1) {
        words.push(word)?;
    }
    Ok(words)
}

fn main(rt: HostRuntime) -> ExitCode {
    let words = match words(&rt) {
        Ok(words) => words,
        Err(error) if error.kind() == io::ErrorKind::OutOfMemory => {
            return ExitCode::from(NO_MEMORY);
        }
        // a word that isn't UTF-8 is no command
        Err(_) => return ExitCode::from(USAGE),
    };
    let Ok(writer) = BufWriter::with_capacity(rt.alloc(), WRITTEN_AT_ONCE, io::writer(&rt)) else {
        return ExitCode::from(NO_MEMORY);
    };
    let mut source = StdSource::new(rt.reader());
    let mut sink = StdSink::new(writer);
    let outcome = run(&rt, rt.alloc(), &words, &NoGate, &mut source, &mut sink);
    let status = outcome.status;
    // The process ends, and with it all its memory: the histories aren't let go record by record.
    mem::forget(outcome);
    ExitCode::from(status)
}
