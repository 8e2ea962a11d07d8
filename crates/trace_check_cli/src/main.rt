//! Judges the trace on standard input. Its status says the verdict, and so does the line that it prints.
#![tactic(auto)]

ghost use Rattle.std.specs.Prelude.{◌≡◌, IfOk};
ghost use Rattle.std.specs.String.{string_bytes};
ghost use Rattle.trace_check_cli.specs.Said.{reason_word, said, status_of};

use std::alloc::{AllocError, Global};
use std::io::{self, Read};
use std::process::ExitCode;
use trace_check::{Reason, TraceVerdict, check_trace};

/// The trace couldn't be read or judged, or the verdict couldn't be written.
const NO_VERDICT: u8 = 3;

fn reason_word(reason: Reason) -> &'static str
    ensures { result.now ≡ reason_word reason }
{
    match reason {
        Reason::State => "state",
        Reason::Caller => "caller",
        Reason::Number => "number",
        Reason::Answer => "answer",
    }
}

/// The line of a verdict, without its line feed.
fn said(alloc: Global, verdict: TraceVerdict) -> Result<String, AllocError>
    ensures { IfOk result (λ line. string_bytes line ≡ said verdict) }
{
    match verdict {
        TraceVerdict::Legal => "legal".to_string(alloc),
        TraceVerdict::Illegal(place, reason) => {
            let mut line = format!(in alloc; "illegal {} ", place)?;
            line.push_str(reason_word(reason))?;
            Ok(line)
        }
        TraceVerdict::NoTrace(line) => format!(in alloc; "no trace {}", line),
    }
}

fn status_of(verdict: TraceVerdict) -> u8
    ensures { result ≡ status_of verdict }
{
    match verdict {
        TraceVerdict::Legal => 0,
        TraceVerdict::Illegal(..) => 1,
        TraceVerdict::NoTrace(_) => 2,
    }
}

fn judge(rt: &HostRuntime) -> io::Result<u8> {
    let mut text = Vec::new(rt.alloc());
    rt.reader().read_to_end(&mut text)?;
    let verdict = check_trace(rt.alloc(), &text)?;
    let line = said(rt.alloc(), verdict)?;
    println!(rt; "{}", line.as_str())?;
    Ok(status_of(verdict))
}

fn main(rt: HostRuntime) -> ExitCode {
    match judge(&rt) {
        Ok(status) => ExitCode::from(status),
        Err(_) => ExitCode::from(NO_VERDICT),
    }
}
