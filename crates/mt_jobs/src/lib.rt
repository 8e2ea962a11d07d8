//! Jobs that are cut into chunks for several threads, whose length is that of the kernel's `padata_do_multithreaded`,
//! and CTR of a long text as such a job.
#![tactic(auto)]

mod chunks;
mod counter;
mod ctr;
mod job;
pub mod laws;

pub use chunks::{chunk_of, range_of};
pub use ctr::ctr_chunked;
pub use job::MtJob;
