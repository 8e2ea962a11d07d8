//! A script of the crypto API on standard input, whose lines are answered on standard output: what `crypto_script` does
//! without words.
//!
//! A third of what `crypto_script` is compiled from reads its words. This program has none of that, so it stands
//! sooner.
#![tactic(auto)]

use crew::NoGate;
use run_options::ScriptOptions;
use script_run::{NO_MEMORY, run_traced, status_by};
use std::io::BufWriter;
use std::process::ExitCode;
use std::{io, mem};
use std_streams::{StdSink, StdSource};

/// So many bytes of answers are written at once, unless they are flushed before.
const WRITTEN_AT_ONCE: usize = 65_536;

fn main(rt: HostRuntime) -> ExitCode {
    let options = ScriptOptions::default();
    let Ok(writer) = BufWriter::with_capacity(rt.alloc(), WRITTEN_AT_ONCE, io::writer(&rt)) else {
        return ExitCode::from(NO_MEMORY);
    };
    let mut source = StdSource::new(rt.reader());
    let mut sink = StdSink::new(writer);
    let ran = run_traced(&rt, rt.alloc(), &options, &NoGate, &mut source, &mut sink);
    let status = status_by(ran.answer);
    // The process ends, and with it all its memory: the histories aren't let go record by record.
    mem::forget(ran);
    ExitCode::from(status)
}
