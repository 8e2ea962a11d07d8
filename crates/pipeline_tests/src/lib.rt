//! Tests of reorder lists, of reorder windows, of queues and of the board, over what these make public.
//!
//! They stand apart, since a crate that has tests is proved a second time for them.
#![tactic(auto)]

#[cfg(test)]
mod bounded_queue;
#[cfg(test)]
mod chains;
#[cfg(test)]
mod pads;
#[cfg(test)]
mod queues;
#[cfg(test)]
mod reorder_lists;
#[cfg(test)]
mod reorder_windows;
#[cfg(test)]
mod served_queue;
