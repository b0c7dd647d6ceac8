//! Assembles the text of MIPS II programs.
#![tactic(auto)]

mod asm_error;
mod assembler;
mod both;
mod directives;
mod examples;
mod filling;
mod fillings;
mod first_pass;
mod found;
mod half_form;
mod instruction;
mod laws;
mod operands;
mod place;
mod program_file;
mod second_pass;
mod segments;

pub use asm_error::AsmError;
pub use assembler::assemble;
pub use directives::{size_of_statement, space_value, word_value};
pub use examples::{lines_have_words, operands_have_kinds, texts_have_programs};
pub use filling::Filling;
pub use fillings::filling_of;
pub use first_pass::find_labels;
pub use found::Found;
pub use instruction::instruction_of;
pub use laws::printed_instructions_assemble_back;
pub use mips_definition::AsmFault;
pub use operands::Operands;
pub use place::Place;
pub use second_pass::fill_segments;
pub use segments::Segments;
