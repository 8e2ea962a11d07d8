//! CTR of a long text in chunks, for several threads.

ghost use Rattle.std.specs.Prelude.{◌≤◌, ◌^◌, length};

use crate::sealing::Form;
use aes_block::{Aes, BlockCipher};
use aes_lanes::LaneAes;
use aes_table::TableAes;
use mt_jobs::{MtJob, chunk_of, ctr_chunked};
use std::thread::Threads;

/// Seals the text in its place for so many threads, at least one, again and again.
fn seal_in_chunks<R: Threads + Sync, C: BlockCipher + Sync>(
    rt: &R,
    cipher: &C,
    threads: u32,
    count: u32,
    text: &mut [u8],
)
    requires { length text.old ≤ 2 ^ 32 }
{
    let job = MtJob {
        start: 0,
        size: text.len() as u64,
        align: 16,
        min_chunk: 4_096,
        max_threads: threads.max(1),
    };
    let chunk = chunk_of(&job) as usize;
    for _ in 0..count {
        ctr_chunked(rt, cipher, &[0; 16], text, chunk);
    }
}

/// Seals the text `count` times over by CTR, under a key of zeros.
pub fn repeat_chunked<R: Threads + Sync>(
    rt: &R,
    form: Form,
    threads: u32,
    count: u32,
    text: &mut [u8],
)
    requires { length text.old ≤ 2 ^ 32 }
{
    // AES takes 16 bytes
    let key = [0; 16];
    match form {
        Form::Generic => {
            let cipher = Aes::new(&key).unwrap();
            seal_in_chunks(rt, &cipher, threads, count, text);
        }
        Form::Table => {
            let cipher = TableAes::new(&key).unwrap();
            seal_in_chunks(rt, &cipher, threads, count, text);
        }
        Form::Lanes => {
            let cipher = LaneAes::new(&key).unwrap();
            seal_in_chunks(rt, &cipher, threads, count, text);
        }
    }
}
