//! The command that the words of the command line mean.
//!
//! Lawful words are `COMMAND`, then its plain words and options in any order, and for some commands `--` and arguments. They are
//! read by the form of the command (`command_forms`).
#![tactic(auto)]

mod classes;
mod command;
mod commands;
mod inputs;
mod linking;
mod name_list;
mod named;
mod named_class;
mod named_classes;
mod names;
mod number;
mod pages;
mod place;
mod plain;
mod read;
mod session;
mod text;
mod texts;
mod words;

pub use command::Command;
pub use inputs::Inputs;
pub use name_list::NameList;
pub use named::Named;
pub use named_class::NamedClass;
pub use named_classes::NamedClasses;
pub use pages::Pages;
pub use session::Session;
pub use text::Text;
pub use texts::Texts;
pub use words::read_words;
