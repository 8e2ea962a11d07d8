//! Times a board's jobs with workers beside the caller: `crew_bench WORKERS JOBS TURNS`.
#![tactic(auto)]

#[cfg(test)]
mod asker;
#[cfg(test)]
mod callers;
mod calls;
mod laws;
mod load;
#[cfg(test)]
mod sharer;
#[cfg(test)]
mod tests;

use crate::calls::crew_of;
use crew::NoGate;
use std::process::ExitCode;
use std::time::Instant;
use std::{env, io};

fn number(word: Option<String>) -> Option<u32> {
    word?.as_str().parse::<u32>().ok()
}

fn main(rt: HostRuntime) -> io::Result<ExitCode> {
    let alloc = rt.alloc();
    let mut words = env::args(&rt)?.skip(1);
    let (Some(workers), Some(jobs), Some(turns)) = (
        number(words.next()),
        number(words.next()),
        number(words.next()),
    ) else {
        return Ok(ExitCode::SUCCESS);
    };
    if workers > 16 {
        return Ok(ExitCode::from(2));
    }
    for _ in 0..3u32 {
        let start = Instant::now(&rt)?;
        let done = crew_of(&rt, alloc, workers, jobs, u64::from(turns), &NoGate);
        let took = u64::try_from(start.elapsed(&rt)?.as_nanos()).unwrap_or(0);
        println!(rt; "{} {done:?}", took / u64::from(jobs.max(1)))?;
    }
    Ok(ExitCode::SUCCESS)
}
