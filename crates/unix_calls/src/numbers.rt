//! The numbers of the calls that the system answers (`docs/CALLS.md`).

/// The first call of a program: it asks for its arguments, and says where its heap is.
pub const BEGIN: u32 = 0;
/// Opens or makes a file.
pub const OPEN: u32 = 2;
/// Closes a descriptor.
pub const CLOSE: u32 = 3;
/// Reads from a descriptor.
pub const READ: u32 = 4;
/// Writes to a descriptor.
pub const WRITE: u32 = 5;
/// Sets the offset of a descriptor.
pub const LSEEK: u32 = 6;
/// Moves the end of the heap.
pub const SBRK: u32 = 7;
/// Tells the kind and the length of a file.
pub const FSTAT: u32 = 8;
/// Takes a name away.
pub const UNLINK: u32 = 9;
/// Doubles a descriptor.
pub const DUP: u32 = 10;
/// Sets the length of a file.
pub const FTRUNCATE: u32 = 11;
/// The number of the process, which is 1.
pub const GETPID: u32 = 12;
/// The time.
pub const TIME: u32 = 13;
/// Gives a file another name.
pub const RENAME: u32 = 14;
/// Whether a descriptor is the console.
pub const ISATTY: u32 = 15;
