//! The exit statuses of the process, those of `sysexits.h` where one fits. A guest's own status counts modulo 256, and
//! may be any of these.

/// The command did all its work.
pub const GOOD: u8 = 0;
/// The words are no command line.
pub const USAGE: u8 = 64;
/// The file is no program.
pub const ELF_REFUSED: u8 = 65;
/// There is no file of the name.
pub const NO_INPUT: u8 = 66;
/// The program has no image in memory.
pub const IMAGE_REFUSED: u8 = 67;
/// The arguments are too long.
pub const ARGS_TOO_LONG: u8 = 68;
/// The files do not fit the disk.
pub const FILES_TOO_LARGE: u8 = 69;
/// The bytes of a class of the set spell none.
pub const CLASS_REFUSED: u8 = 70;
/// The classes do not link.
pub const LINK_REFUSED: u8 = 71;
/// A method has no typing.
pub const VERIFY_REFUSED: u8 = 72;
/// The assembly text is faulty.
pub const ASM_REFUSED: u8 = 73;
/// Input failed.
pub const READ_FAULT: u8 = 74;
/// Output or error output failed.
pub const WRITE_FAULT: u8 = 75;
/// The shelf of files failed.
pub const SHELF_FAULT: u8 = 76;
/// Memory ran out.
pub const NO_MEMORY: u8 = 77;
/// The run made all its steps without an end.
pub const SPENT: u8 = 78;
/// The guest program ended in a fault.
pub const FAULTED: u8 = 79;
/// The class machine ended in a trap.
pub const TRAPPED: u8 = 80;
/// A method is not typed by its table of frames, or there is no room to name what tables do.
pub const FRAME_REFUSED: u8 = 82;
/// A class would be too large with its tables of frames.
pub const FRAMES_TOO_LARGE: u8 = 83;
/// The objects do not link.
pub const OBJ_REFUSED: u8 = 84;
