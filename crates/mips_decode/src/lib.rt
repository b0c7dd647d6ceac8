//! The instructions of MIPS II: the table of their words, both ways, and their text.
#![tactic(auto)]

mod decoder;
mod encoder;
pub mod fault_kind_laws;
pub mod fault_kinds;
mod fields;
mod forms;
mod hexadecimal;
mod laws;
mod numbers;
mod order;
mod targets;
mod text;

pub use decoder::decode;
pub use encoder::encode;
pub use fields::is_float;
pub use laws::{encoding_inverts_decoding, rows_are_disjoint};
pub use mips_definition::{
    ArithmeticImmediateName, ArithmeticName, BranchEqualName, BranchSignName, BranchZeroName, HiLo,
    Inst, JumpName, LoadName, LogicalImmediateName, ProductName, ShiftName, StoreName,
    TrapImmediateName, TrapName, VariableShiftName,
};
pub use order::{order_number, word_of_lanes};
pub use targets::{branch_target, jump_target};
pub use text::{NoMemory, print_inst};
