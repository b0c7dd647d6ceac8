//! The class code that makes the memory of a program and begins it: the methods that make pages, that put words into them, that do so for
//! all pages of a class, and the one with which the program begins.
#![tactic(auto)]

mod beginning;
mod filling;
pub mod laws;
mod page_slot;
mod pages;
mod parts;
mod starting;
mod words;

pub use beginning::Beginning;
pub use filling::append_fill;
pub use page_slot::PageSlot;
pub use pages::append_pages;
pub use starting::append_run;
pub use words::append_words;

/// Out of memory, the one error of what appends code.
pub type NoMemory = std::alloc::AllocError;
