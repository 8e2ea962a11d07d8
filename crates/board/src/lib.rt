//! The board: pipelines whose requests are done by any worker, in any order, and handed out in order. A pipeline is a
//! pad, a queue, or a chain of both.
//!
//! Each call appends the one entry to the board's history that is legal after the entries before it, or none.
#![tactic(auto)]

mod allowance;
mod asks;
mod board_core;
mod collection;
mod creation;
mod entry;
mod entry_laws;
mod history_laws;
mod intake;
mod job_calls;
mod laws;
mod log;
mod mask;
mod mask_calls;
mod next_pipeline;
mod pipeline;
mod queues;
mod requests;
mod run_queue;
mod run_queues;
mod sharing_laws;
mod stage;
mod stage_queries;
mod submission;
mod work;

pub use board_core::{BoardCore, BoardErr};
pub use entry::{BoardEntry, Entered, Shape};
pub use entry_laws::{entries_leave, histories_go_on, numbers_in_order};
pub use history_laws::{
    collects_hand_out, entries_join, masks_stay, only_collects_hand_out, others_leave,
    pipelines_stay, queues_hold, slips_stay, work_ends,
};
pub use job_calls::{Slip, Taken};
pub use laws::{
    collects_hand_out_all, completions_in_order, fronts_tell_all, legal_chains, legal_masks,
    legal_pads, legal_queues, pads_and_queues_tell, starts_of_the_backlog,
};
pub use log::BoardLog;
pub use sharing_laws::{shared_pipelines_stay, workers_are_left, workers_finish};
pub use work::Work;
