ghost use Rattle.std.specs.Prelude.{◌≡◌, ◌≤◌, IfErr, IfOk, OnOk, None, length};
ghost use Rattle.mips_asm.specs.Answers.{IsFault};
ghost use Rattle.mips_asm.specs.File.{IsAssembled};
ghost use Rattle.mips_asm.specs.Program.{asm_fault};

use crate::asm_error::AsmError;
use crate::first_pass::find_labels;
use crate::program_file::write_program;
use crate::second_pass::fill_segments;
use std::alloc::Global;

/// Assembles a text of at most 67,108,864 bytes into the bytes of an ELF file.
///
/// The file has the text at 00400000 (hexadecimal), where it begins, and the data at 10000000 where there is any. Time and
/// memory are about proportional to the text.
///
/// # Errors
/// `Refused` with the first faulty line and the lowest kind of its faults; `NoMemory` where there is not enough memory.
pub fn assemble(alloc: Global, text: &[u8]) -> Result<Vec<u8>, AsmError>
    requires { length text.now ≤ 67108864 }
    ensures sound { OnOk result (asm_fault text.now ≡ None) }
    ensures file { IfOk result (λ file. IsAssembled text.now file.items) }
    ensures refused { IfErr result (IsFault (asm_fault text.now)) }
{
    match find_labels(alloc, text) {
        Err(_) => Err(AsmError::NoMemory),
        Ok(found) => match fill_segments(alloc, text, &found) {
            Err(error) => Err(error),
            Ok(segments) => write_program(alloc, segments),
        },
    }
}
