//! Works on 64 KiB again and again, for tools/time-program to time: `cipher_bench WORK FORM COUNT` does COUNT times
//! what WORK says (`ctr`, `cbc`, `cbc-open`, `xts`, `xts-open`, `gcm`, `gcm-open` or `hmac`) with AES in the form FORM
//! (`generic`, `table` or `lanes`), and prints the first bytes of what came of it, so that no turn can be left out.
//! `cipher_bench chunks FORM COUNT THREADS` does the same with CTR of 16 MiB, in chunks for so many threads.
//! `cipher_bench packets WAY SIZE COUNT` seals eight packets under authenc over CBC, WAY being `together` or `singly`,
//! and SIZE a number of bytes or `mixed`. Without words it prints nothing.
#![tactic(auto)]

ghost use Rattle.std.specs.Prelude.{◌≡◌, ◌<◌, IfOk, vec_len};

mod chunked;
mod packets;
mod sealing;

use chunked::repeat_chunked;
use packets::{Way, repeat_packets, sizes_named, way_named};
use sealing::{Form, Work, form_named, repeat, work_named};
use std::alloc::{AllocError, Global};
use std::process::ExitCode;
use std::{env, io};

/// The bytes that are worked on at once.
const LENGTH: usize = 65_536;

/// The bytes that are worked on at once in chunks.
const LONG: usize = 16_777_216;

/// What the words ask for.
enum Order {
    Whole(Work, Form, u32),
    Chunked(Form, u32, u32),
    Packets(Way, [usize; 8], u32),
}

fn zeros(alloc: Global, length: usize) -> Result<Vec<u8>, AllocError>
    ensures { IfOk result (λ bytes. vec_len bytes ≡ length) }
{
    vec![in alloc; 0u8; length]
}

fn words(rt: &HostRuntime) -> io::Result<Vec<String>> {
    let mut words = Vec::new(rt.alloc());
    for word in env::args(rt)?.skip(1) {
        words.push(word)?;
    }
    Ok(words)
}

/// The work, the form and the count, where the words are these, or the form, the count and the threads.
fn order_of(words: &[String]) -> Option<Order> {
    match words {
        [work, form, count] => {
            let work = work_named(work.as_str())?;
            let form = form_named(form.as_str())?;
            Some(Order::Whole(work, form, count.parse::<u32>().ok()?))
        }
        [work, form, count, threads] if work.as_str() == "chunks" => {
            let form = form_named(form.as_str())?;
            let count = count.parse::<u32>().ok()?;
            Some(Order::Chunked(form, count, threads.parse::<u32>().ok()?))
        }
        [packets, way, sizes, count] if packets.as_str() == "packets" => {
            let way = way_named(way.as_str())?;
            let sizes = sizes_named(sizes.as_str())?;
            Some(Order::Packets(way, sizes, count.parse::<u32>().ok()?))
        }
        _ => None,
    }
}

fn main(rt: HostRuntime) -> io::Result<ExitCode> {
    let words = words(&rt)?;
    if words.is_empty() {
        return Ok(ExitCode::SUCCESS);
    }
    match order_of(&words) {
        Some(Order::Whole(work, form, count)) => {
            let mut text = zeros(rt.alloc(), LENGTH)?;
            let mut copy = zeros(rt.alloc(), LENGTH)?;
            repeat(work, form, count, &mut text, &mut copy);
            println!(rt; "{:?} {:?}", &text[..16], &copy[..16])?;
            Ok(ExitCode::SUCCESS)
        }
        Some(Order::Chunked(form, count, threads)) => {
            let mut text = zeros(rt.alloc(), LONG)?;
            repeat_chunked(&rt, form, threads, count, &mut text);
            println!(rt; "{:?}", &text[..16])?;
            Ok(ExitCode::SUCCESS)
        }
        Some(Order::Packets(way, sizes, count)) => {
            let tags = repeat_packets(rt.alloc(), way, &sizes, count)?;
            println!(rt; "{:?}", &tags[7][..16])?;
            Ok(ExitCode::SUCCESS)
        }
        None => {
            eprintln!(rt;
                "cipher_bench: the words are a work (ctr, cbc, cbc-open, xts, xts-open, gcm, gcm-open or hmac), a form of AES (generic, table or lanes) and a count, or chunks, a form, a count and a number of threads, or packets, together or singly, a size and a count"
            )?;
            Ok(ExitCode::from(2))
        }
    }
}
