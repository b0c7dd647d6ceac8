//! Code of which all that is not reached becomes returns, so that each of its instructions has a frame
//! (JVM Specification, Java SE 7 edition, 4.10.1).
#![tactic(auto)]

mod laws;
mod listing;
mod marks;
mod pruning;

pub use laws::{pruned_code_is_framed, pruning_is_determined};
pub use listing::listing_of;
pub use pruning::pruned_method;
