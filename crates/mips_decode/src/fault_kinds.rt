//! The kinds of the faults of the guest machine, by their numbers.

/// The program counter is outside the code area.
pub const FETCH: u32 = 1;
/// The program counter is no multiple of 4.
pub const PC_ALIGN: u32 = 2;
/// A load from an address that cannot be read.
pub const READ_UNMAPPED: u32 = 3;
/// A store to an address that may not be written.
pub const WRITE_REFUSED: u32 = 4;
/// A load of a half-word or word from an address that is no multiple of its size.
pub const READ_ALIGN: u32 = 5;
/// A store of a half-word or word to such an address.
pub const WRITE_ALIGN: u32 = 6;
/// A signed sum or difference that 32 bits do not hold.
pub const OVERFLOW: u32 = 7;
/// A BREAK.
pub const BREAK: u32 = 8;
/// A word that is no instruction of the integer part.
pub const RESERVED: u32 = 9;
/// A branch in a delay slot.
pub const BRANCH_IN_SLOT: u32 = 10;
/// A trap whose comparison holds.
pub const TRAP: u32 = 11;
