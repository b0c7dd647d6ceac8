use crate::stage_outcomes::StageOutcomes;
use crate::status;
use class_definition::{FrameFault, LinkFault, VerifyFault};
use elf_definition::{ElfFault, ImageFault, ObjFault};
use mips_definition::AsmFault;
use nv_events::Fault;

/// How a call of the program ended.
///
/// Each answer has a status and, but for `Good`, `Exited` and `WriteFault`, a line that is written to error output last; `Piped` has one
/// for each stage.
#[derive(Clone, Copy, Debug, PartialEq, Eq)]
pub enum Done {
    /// The command did all its work.
    Good,
    /// The guest program left with this status.
    Exited(i32),
    /// The guest program ended in this fault.
    Faulted(Fault),
    /// The words are no command line: `NO_COMMAND` or `NOT_LAWFUL`.
    Usage(u32),
    /// There is no file of the name that this word gives, counted from 0.
    NoInput(u32),
    /// The file is no program: the first check that it fails.
    ElfRefused(ElfFault),
    /// The program has no image in memory: the first check that it fails.
    ImageRefused(ImageFault),
    /// The argument block would have this number of bytes, of which there may be 4,096.
    ArgsTooLong(u64),
    /// The files would need this number of blocks, and the disk has fewer.
    FilesTooLarge(u64),
    /// The assembly text is faulty: its first faulty line.
    AsmRefused(AsmFault),
    /// The objects do not link: the first check that they fail.
    ObjRefused(ObjFault),
    /// The bytes of a class of the set spell none.
    ClassRefused {
        /// The number of the class in the set, from 0.
        class: u32,
        /// What is wrong with its bytes, 1 to 10: a kind of `ClassFault`.
        kind: u32,
        /// The offset at fault, in bytes.
        at: u32,
    },
    /// The classes do not link: their first fault.
    LinkRefused(LinkFault),
    /// A method has no typing: the first one.
    VerifyRefused(VerifyFault),
    /// A method is not typed by the frames that its table lists, or a pool has too few slots for what tables name: the first one.
    FrameRefused(FrameFault),
    /// A class's file would be too large with its tables: the first one.
    FramesTooLarge {
        /// The number of the class in the set, from 0.
        class: u32,
        /// The size that its file would have, in bytes.
        bytes: u64,
    },
    /// All stages of a pipeline ended so.
    Piped(StageOutcomes),
    /// The class machine ended in this trap.
    Trapped(u32),
    /// The run made as many steps as it may, without an end.
    Spent,
    /// Input failed in this call.
    ReadFault,
    /// Output or error output failed in this call.
    WriteFault,
    /// The shelf of files failed in this call.
    ShelfFault,
    /// Memory ran out.
    NoMemory,
}

impl Done {
    ghost use Rattle.std.specs.Prelude.{◌≡◌};
    ghost use Rattle.command_deeds.specs.Line.{status_of};

    /// Of `Usage`: the first word is missing or no command.
    pub const NO_COMMAND: u32 = 1;

    /// Of `Usage`: the other words are not those of the command.
    pub const NOT_LAWFUL: u32 = 2;

    /// The exit status of the process; a guest's own status counts modulo 256.
    pub fn status(&self) -> u8
        ensures { result ≡ status_of self.now }
    {
        match *self {
            Done::Good => status::GOOD,
            Done::Exited(status) => (status.cast_unsigned() % 256) as u8,
            Done::Faulted(_) => status::FAULTED,
            Done::Usage(_) => status::USAGE,
            Done::NoInput(_) => status::NO_INPUT,
            Done::ElfRefused(_) => status::ELF_REFUSED,
            Done::ImageRefused(_) => status::IMAGE_REFUSED,
            Done::ArgsTooLong(_) => status::ARGS_TOO_LONG,
            Done::FilesTooLarge(_) => status::FILES_TOO_LARGE,
            Done::AsmRefused(_) => status::ASM_REFUSED,
            Done::ObjRefused(_) => status::OBJ_REFUSED,
            Done::ClassRefused { .. } => status::CLASS_REFUSED,
            Done::LinkRefused(_) => status::LINK_REFUSED,
            Done::VerifyRefused(_) => status::VERIFY_REFUSED,
            Done::FrameRefused(_) => status::FRAME_REFUSED,
            Done::FramesTooLarge { .. } => status::FRAMES_TOO_LARGE,
            Done::Piped(stages) => stages.status(),
            Done::Trapped(_) => status::TRAPPED,
            Done::Spent => status::SPENT,
            Done::ReadFault => status::READ_FAULT,
            Done::WriteFault => status::WRITE_FAULT,
            Done::ShelfFault => status::SHELF_FAULT,
            Done::NoMemory => status::NO_MEMORY,
        }
    }
}
