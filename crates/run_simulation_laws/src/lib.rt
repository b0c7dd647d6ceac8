//! What holds of the runs of two machines, of which one follows the other turn by turn.
#![tactic(auto)]

pub mod example;
pub mod laws;
pub mod metered_laws;
mod metered_translation;
mod translation;

pub use metered_translation::MeteredTranslation;
pub use translation::Translation;
