//! The answers by which a call is refused.

/// There is no file of that name.
pub const NO_ENTRY: i32 = -2;
/// The descriptor is not in use, or not for this.
pub const BAD_DESCRIPTOR: i32 = -9;
/// The program break would leave the heap.
pub const NO_HEAP: i32 = -12;
/// The bytes cannot be read or written there.
pub const BAD_ADDRESS: i32 = -14;
/// There is a file of that name.
pub const PRESENT: i32 = -17;

pub const INVALID: i32 = -22;
/// All descriptors are in use.
pub const TOO_MANY_OPEN: i32 = -24;
/// The file would be too large.
pub const TOO_LARGE: i32 = -27;
/// No blocks or no nodes are left.
pub const NO_SPACE: i32 = -28;
/// The console has no places.
pub const NO_SEEK: i32 = -29;
/// There is no such call.
pub const NO_CALL: i32 = -88;
