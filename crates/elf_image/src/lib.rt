//! From an accepted ELF file to the memory and code with which a MIPS program starts.
#![tactic(auto)]

mod checks;
mod contents;
mod filled;
mod floats;
mod guest_image;
mod image_error;
mod layout;
mod loader;
mod page_marks;
mod page_table;
mod pages;
mod runs;
mod store;

pub use elf_definition::ImageFault;
pub use guest_image::Image;
pub use image_error::ImageError;
pub use loader::image;
pub use runs::runs_are_one;
