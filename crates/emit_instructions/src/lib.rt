//! The class code of the guest's instructions, as lists of steps: one definition of each instruction's code, over a way to reach
//! registers.
#![tactic(auto)]

mod access;
mod accessing;
mod bank;
mod branching;
mod computing;
mod conditions;
mod faulting;
pub mod fields;
mod helpers;
mod immediates;
mod registers;
mod transfer;
mod units;

pub use access::{
    append_steps, arithmetic, get_field, get_register, push_word, put_field, put_register,
};
pub use bank::Bank;
pub use conditions::{equal_branch, sign_branch, zero_branch};
pub use transfer::Transfer;
pub use units::{append_instruction, append_unit};

/// Out of memory, the one error of what appends code.
pub type NoMemory = std::alloc::AllocError;
