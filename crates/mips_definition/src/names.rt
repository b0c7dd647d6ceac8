//! The names of the instructions, by form.

mod arithmetic_immediate_name;
mod arithmetic_name;
mod branch_equal_name;
mod branch_sign_name;
mod branch_zero_name;
mod hi_lo;
mod jump_name;
mod load_name;
mod logical_immediate_name;
mod product_name;
mod shift_name;
mod store_name;
mod trap_immediate_name;
mod trap_name;
mod variable_shift_name;

pub use arithmetic_immediate_name::ArithmeticImmediateName;
pub use arithmetic_name::ArithmeticName;
pub use branch_equal_name::BranchEqualName;
pub use branch_sign_name::BranchSignName;
pub use branch_zero_name::BranchZeroName;
pub use hi_lo::HiLo;
pub use jump_name::JumpName;
pub use load_name::LoadName;
pub use logical_immediate_name::LogicalImmediateName;
pub use product_name::ProductName;
pub use shift_name::ShiftName;
pub use store_name::StoreName;
pub use trap_immediate_name::TrapImmediateName;
pub use trap_name::TrapName;
pub use variable_shift_name::VariableShiftName;
