//! One script over a registry and a board that others call too.
#![tactic(auto)]

mod alloc_and_free;
mod answers;
mod bulk;
mod callbacks;
mod client;
mod collects;
mod drivers;
mod end_of_input;
mod list_answers;
mod lives;
mod loans;
mod name_limits;
mod pipeline_requests;
mod plain_answers;
mod probe_command;
mod registry_commands;
mod request_forms;
mod room;
mod scripts;
mod settings;
mod shared_end;
mod shared_requests;
mod shared_transforms;
mod transform;

pub use scripts::Session;
pub use shared_end::end_first;
pub use shared_transforms::Shared;
