//! What holds of the commands `frames` and `check` together.
#![tactic(auto)]

mod laws;
mod stored_set_laws;
mod translation_laws;

pub use laws::{stored_sets_are_checked, stored_sets_are_counted};
pub use stored_set_laws::{
    linked_sets_stand_alone, read_sets_keep_the_rules, set_files_are_stored, stored_sets_are_loaded,
};
pub use translation_laws::framed_translations_run_alike;
