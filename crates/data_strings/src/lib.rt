//! Pages as texts of class files, from which the classes make their memory.
#![tactic(auto)]

mod texts;

pub use texts::{NoMemory, page_text};
