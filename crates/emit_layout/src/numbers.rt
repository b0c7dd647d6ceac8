//! The numbers of the main class's methods in the program: the helper methods come first, and then those that are named here. The methods
//! of the classes of code follow, and then those of the classes of data.

/// The method with which the program begins.
pub const RUN: u32 = 20;

/// The method that chooses a class by the address of the guest, for ever.
pub const CHOOSE: u32 = 21;

/// The method that makes the pages of a text.
pub const PAGES: u32 = 22;

/// The method that ends the run where the guest goes and no code is.
pub const MISSING: u32 = 23;

/// How many methods the main class has.
pub const METHODS: u32 = 24;
