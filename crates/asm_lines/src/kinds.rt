//! The kinds of faults that lines have.

/// An unknown mnemonic or directive, or a line of no form.
pub const NO_FORM: u32 = 1;

/// A wrong number or form of operands.
pub const WRONG_FORM: u32 = 2;

/// A number out of range, a target that the instruction cannot reach, an instruction in the data, or too long a segment.
pub const OUT_OF_RANGE: u32 = 3;

/// A label that an earlier line has.
pub const LABEL_TWICE: u32 = 4;

/// A name without a label.
pub const NO_LABEL: u32 = 5;
