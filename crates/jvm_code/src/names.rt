//! The names of instructions of one form.
pub mod array_name;
pub mod branch_name;
pub mod conversion;
pub mod iconst;
pub mod int_arithmetic;
pub mod int_division;
pub mod int_shift;
pub mod local_name;
pub mod long_arithmetic;
pub mod long_division;
pub mod long_shift;
pub mod pool_name;
pub mod return_name;
pub mod short_index;
pub mod stack_name;
