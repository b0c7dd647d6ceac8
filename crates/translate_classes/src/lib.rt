//! The classes of a translated program: the main class with its fields, helper methods and the methods that begin the program, classes of
//! code with a method for each span of words, and classes of data with the words of pages as texts.
#![tactic(auto)]

mod building;
mod class_of_code;
mod class_of_data;
mod class_of_main;
mod code_naming;
mod content;
mod data_naming;
mod divided_part;
mod filling;
mod known_fields;
mod known_helpers;
mod main_fields;
mod main_naming;
mod methods;
mod names;
mod other_class;
mod page_data;
mod part;
mod piece;
mod references;
mod running;
mod spans;
mod tables;
mod texts;
mod two_methods;

pub use class_of_code::{CodeClass, code_class};
pub use class_of_data::data_class;
pub use class_of_main::main_class;
pub use content::MainClass;
pub use divided_part::DividedPart;
pub use known_helpers::helper_references;
pub use names::Names;
pub use page_data::PageData;
pub use part::Part;
pub use piece::Piece;

/// Out of memory, the one error of this crate.
pub type NoMemory = std::alloc::AllocError;
