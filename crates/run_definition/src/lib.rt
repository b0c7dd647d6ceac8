//! What is defined for all machines: words, what a program asks its system and is answered, and the run of any machine.
#![tactic(auto)]

mod call;
mod call_places;
mod fault;
mod io_fault;
mod order;
mod outcome;
mod text_place;

pub use call::Call;
pub use call_places::Places;
pub use fault::Fault;
pub use io_fault::IoFault;
pub use order::Order;
pub use outcome::Outcome;
pub use text_place::TextPlace;
