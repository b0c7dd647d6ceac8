ghost use Rattle.std.specs.Prelude.{decimal};
ghost use Rattle.command_deeds.specs.Checks.{bytes_of};
ghost use Rattle.command_deeds.specs.Ends.{Ends, Makes};
ghost use Rattle.command_guest.specs.Assembly.{IsDueOfAsm, IsProgramOf};

use command_deeds::{Done, Ending, Outside, Stop, load, store, write_number};
use command_words::Named;
use mips_asm::{AsmError, AsmFault, assemble};
use nv_outside::{Shelf, Sink, Source};
use std::alloc::Global;

/// The most bytes of a text.
const LONGEST_TEXT: usize = 67_108_864;

/// The fault of a longer one, of which no line is looked at.
const TEXT_TOO_LONG: AsmFault = AsmFault { line: 0, kind: 3 };

/// Loads a text, assembles it, stores its program, and writes how many bytes that has.
pub fn asm<H: Shelf, S: Source, O: Sink, E: Sink>(
    alloc: Global,
    input: &Named,
    output: &str,
    outside: &mut Outside<'_, H, S, O, E>,
) -> Result<Done, Ending>
    ensures ends { Ends H.Shelf S.Source O.Sink E.Sink (IsDueOfAsm input.now output.now)
        outside.old outside.new result }
{
    let text = load(alloc, input.word, input.text.as_str(), outside.shelf)?;
    let file = assembled(alloc, text.as_slice())?;
    store(outside.shelf, output, file.as_slice())?;
    write_number(outside.out, b"bytes ", file.as_slice().len() as u64)?;
    Ok(Done::Good)
}

/// The program of a text.
fn assembled(alloc: Global, text: &[u8]) -> Result<Vec<u8>, Ending>
    ensures makes { Makes (λ check. IsProgramOf text.now (bytes_of check)) result }
{
    if text.len() > LONGEST_TEXT {
        return Err(Ending::Refused(Done::AsmRefused(TEXT_TOO_LONG)));
    }
    match assemble(alloc, text) {
        Ok(file) => Ok(file),
        Err(AsmError::Refused(fault)) => Err(Ending::Refused(Done::AsmRefused(fault))),
        Err(AsmError::NoMemory) => Err(Ending::Stopped(Stop::NoMemory)),
    }
}
