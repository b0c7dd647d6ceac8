//! The lines of assembly texts for MIPS II, and what their operands stand for.
#![tactic(auto)]

mod kinds;
mod labels;
mod lexical;
mod memory_operand;
mod mnemonic;
mod mnemonics;
mod number;
mod numbers;
mod operand_texts;
mod operands;
mod statement;
mod statements;
mod targets;

pub use kinds::{LABEL_TWICE, NO_FORM, NO_LABEL, OUT_OF_RANGE, WRONG_FORM};
pub use labels::Labels;
pub use lexical::{first_line, from_byte, is_name, name_before};
pub use memory_operand::in_memory;
pub use mnemonic::Mnemonic;
pub use number::Number;
pub use numbers::{number_of, register_of};
pub use operand_texts::{one_operand, three_operands, two_operands};
pub use operands::{amount, code, immediate, number_between, register, trap_code};
pub use statement::Statement;
pub use statements::statement_of;
pub use targets::{branch_to, jump_to, target};
