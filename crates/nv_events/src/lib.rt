//! What a guest program and the system that serves it say to each other: calls, memories, servers, and the run of any machine.
#![tactic(auto)]

mod call_table;
pub mod laws;
mod machine;
mod patch;
mod ranges;
mod reply;
mod runs;
mod scripted;
mod server;
mod view;

pub use call_table::places;
pub use machine::Machine;
pub use ranges::{has_room, is_readable};
pub use reply::Reply;
pub use run_definition::{Call, Fault, IoFault, Outcome, Places, TextPlace};
pub use runs::run;
pub use scripted::Scripted;
pub use server::Server;
pub use view::View;
