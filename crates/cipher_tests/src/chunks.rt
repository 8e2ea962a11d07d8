//! Jobs by example, and CTR in many threads.

use crate::given::{aes, array, bytes};
use aes_block::Aes;
use mt_jobs::{MtJob, chunk_of, ctr_chunked, range_of};
use std::alloc::Global;
use std::process::Abort;
use std::thread::Threads;

/// A job over as many places from 1,000 on.
fn job_of(rt: &impl Abort, size: u64, min_chunk: u64, max_threads: u32) -> MtJob {
    assert!(rt; size <= 1 << 32 && min_chunk <= 1 << 32 && max_threads > 0);
    MtJob {
        start: 1_000,
        size,
        align: 16,
        min_chunk,
        max_threads,
    }
}

/// A job is cut into so many chunks of a length, the last of another.
fn is_cut(rt: &impl Abort, job: &MtJob, chunk: u64, count: u64, last: u64) {
    assert!(rt; chunk_of(job) == chunk, "the chunk of {}", job.size);
    assert!(rt;
        count > 0 && range_of(job, count).is_none(),
        "the chunks of {}",
        job.size
    );
    let range = range_of(job, count - 1).expect(rt, "a last range");
    assert!(rt;
        range.end == job.start + job.size,
        "the end of {}",
        job.size
    );
    assert!(rt;
        range.start <= range.end && range.end - range.start == last,
        "the last range of {}",
        job.size
    );
}

/// Chunks whose length is by the kernel's formula, worked by hand.
#[test]
fn chunks_by_hand(rt: HostRuntime) {
    for (size, min_chunk, max_threads, chunk, count, last) in [
        (100_000u64, 4_096u64, 4u32, 6_256u64, 16u64, 6_160u64),
        (1_000_000, 4_096, 8, 31_264, 32, 30_816),
        (5_000, 4_096, 4, 5_000, 1, 5_000),
        (8_192, 4_096, 4, 4_096, 2, 4_096),
        (8_200, 4_096, 4, 4_096, 3, 8),
        (100_000, 4_096, 1, 100_000, 1, 100_000),
        (64, 0, 4, 16, 4, 16),
        (40, 0, 4, 16, 3, 8),
    ] {
        let job = job_of(&rt, size, min_chunk, max_threads);
        is_cut(&rt, &job, chunk, count, last);
    }
    assert!(rt; range_of(&job_of(&rt, 0, 4_096, 4), 0).is_none());
}

/// A text in chunks of a length is sealed to this.
fn seals_in_chunks<R: Threads + Sync + Abort>(
    rt: &R,
    alloc: Global,
    cipher: &Aes,
    iv: &[u8; 16],
    plain: &[u8],
    sealed: &[u8],
    chunk: usize,
) {
    let mut text = Vec::from_slice(alloc, plain).expect(rt, "memory");
    assert!(rt; chunk > 0 && chunk % 16 == 0);
    ctr_chunked(rt, cipher, iv, &mut text, chunk);
    assert!(rt;
        text.as_slice() == sealed,
        "{} bytes in chunks of {chunk}",
        text.len()
    );
}

/// SP 800-38A, F.5.1, in chunks of one, two, three and four blocks.
#[test]
fn sp_800_38a_f5_1_in_chunks(rt: HostRuntime) {
    let alloc = rt.alloc();
    let cipher = aes(&rt, alloc, "2b7e151628aed2a6abf7158809cf4f3c");
    let iv = array(&rt, "f0f1f2f3f4f5f6f7f8f9fafbfcfdfeff");
    let plain = bytes(
        &rt,
        alloc,
        "6bc1bee22e409f96e93d7e117393172aae2d8a571e03ac9c9eb76fac45af8e5130c81c46a35ce411e5fbc1191a0a52eff69f2445df4f9b17ad2b417be66c3710",
    );
    let sealed = bytes(
        &rt,
        alloc,
        "874d6191b620e3261bef6864990db6ce9806f66b7970fdff8617187bb9fffdff5ae4df3edbd5d35e5b4f09020db03eab1e031dda2fbe03d1792170a0f3009cee",
    );
    for blocks in [1usize, 2, 3, 4] {
        seals_in_chunks(&rt, alloc, &cipher, &iv, &plain, &sealed, 16 * blocks);
    }
}
