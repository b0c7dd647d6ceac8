//! The definition of ELF files of programs: what a file says, the first check that it fails, and the image that it is (System V ABI, "Object Files").
#![tactic(auto)]

pub mod abi;
mod elf_fault;
mod elf_header;
mod image_fault;
mod obj_fault;
mod part;
mod parts;
mod program_header;
mod range;
mod sec;
mod section_header;
mod segment;

pub use elf_fault::ElfFault;
pub use elf_header::ElfHeader;
pub use image_fault::ImageFault;
pub use obj_fault::ObjFault;
pub use part::Part;
pub use parts::Parts;
pub use program_header::ProgramHeader;
pub use range::Range;
pub use sec::Sec;
pub use section_header::SectionHeader;
pub use segment::Segment;
