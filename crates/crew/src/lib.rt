//! The crew: workers that do a board's jobs, and build what a registry waits for, beside one caller.
#![tactic(auto)]

mod board_work;
mod both;
mod crew;
mod gate;
mod laws;
mod passes;
mod peer_laws;
mod peers;

pub use board_work::{drain, work_some};
pub use both::work_on;
pub use crew::run_crew;
pub use gate::{BarrierGate, Gate, NoGate};
pub use laws::{crew_works, crews_end};
pub use passes::Passes;
pub use peer_laws::peers_end;
pub use peers::{Peer, run_peers};
