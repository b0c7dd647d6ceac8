use crate::inputs::Inputs;
use crate::name_list::NameList;
use crate::named::Named;
use crate::named_class::NamedClass;
use crate::named_classes::NamedClasses;
use crate::pages::Pages;
use crate::session::Session;
use crate::text::Text;
use nv_values::{ClassName, MeterTurns, MethodBytes, PipeBytes, RegionWords};

/// A command, with its words and options.
#[derive(Debug, Drop)]
pub enum Command {
    /// `go IN`: translates a program and runs its classes, which may have a meter.
    Go {
        input: Named,
        name: ClassName,
        pages: Pages,
        method_bytes: MethodBytes,
        meter: Option<MeterTurns>,
        session: Session,
    },
    /// `translate IN`: translates a program to classes, which may have a meter.
    Translate {
        input: Named,
        name: ClassName,
        pages: Pages,
        method_bytes: MethodBytes,
        meter: Option<MeterTurns>,
    },
    /// `interp IN`: runs a program on the reference machine.
    Interp {
        input: Named,
        name: ClassName,
        pages: Pages,
        session: Session,
    },
    /// `run NAME`: runs a class, with so many words for arrays.
    Run {
        class: NamedClass,
        words: RegionWords,
        session: Session,
    },
    /// `verify NAME`: verifies a class.
    Verify {
        class: NamedClass,
    },
    /// `frames NAME`: gives classes their tables of frames.
    Frames {
        class: NamedClass,
    },
    /// `check NAME`: checks classes by their tables of frames.
    Check {
        class: NamedClass,
    },
    /// `asm IN OUT`: assembles a text.
    Asm {
        input: Named,
        output: Text,
    },
    /// `list IN`: lists a program's code.
    List {
        input: Named,
    },
    /// `make N`: makes a program that counts, with N of 1 to 65,536.
    Make {
        count: u32,
        method_bytes: MethodBytes,
    },
    /// `link OUT IN..`: links 1 to 256 objects to a program that begins at a symbol, of 1 to 255 bytes and none of these 0.
    Link {
        output: Text,
        inputs: Inputs,
        entry: Text,
    },
    /// `pipe NAME NAME ..`: runs 2 to 8 classes with a pipe between each two, each in at most 1,125,899,906,842,624 steps and with a
    /// disk of 0 to 65,536 blocks.
    Pipe {
        classes: NamedClasses,
        words: RegionWords,
        steps: u64,
        disk: u32,
        pipe: PipeBytes,
    },
}
