//! What the instructions of the class machine do to a frame, fields and arrays (JVM Specification, 2.11 and 6.5), one by one and in
//! groups of those that often are one after the other.
#![tactic(auto)]

mod accessing;
mod computing;
mod executed;
mod execution;
mod fields;
mod group;
mod grouping;
mod jumping;
mod made;
mod making;
mod naming;
mod op;
mod part;
mod working;

pub use executed::Executed;
pub use fields::Fields;
pub use group::{Group, groups_of};
pub use grouping::{bits, compared, has_bits};
pub use made::Made;
pub use op::{Op, ops_of};
pub use working::Working;
