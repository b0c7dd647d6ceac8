//! The second pass over a text: its words.
ghost use Rattle.std.specs.Prelude.{◌≡◌, ◌≤◌, ◌^◌, [], true, false, IfErr, IfOk, OnOk, None, length};
ghost use Rattle.asm_lines.specs.Statements.{line_of_statement};
ghost use Rattle.elf_definition.specs.FileFields.{words};
ghost use Rattle.mips_asm.specs.Answers.{IsFault};
ghost use Rattle.mips_asm.specs.Fillings.{words_or_kind};
ghost use Rattle.mips_asm.specs.Passes.{IsLow, fault_marked, unmarked, words_left};
ghost use Rattle.mips_asm.specs.Passes as passes;
ghost use Rattle.mips_asm.specs.Program as program;

use crate::asm_error::AsmError;
use crate::filling::Filling;
use crate::fillings::filling_of;
use crate::found::Found;
use crate::place::Place;
use crate::segments::Segments;
use asm_lines::{LABEL_TWICE, Statement, first_line, statement_of};
use mips_definition::AsmFault;
use std::alloc::Global;

/// The segments of a text whose labels are known.
///
/// # Errors
/// `Refused` with the first faulty line; `NoMemory` where there is no memory for the segments.
pub fn fill_segments<'a>(
    alloc: Global,
    text: &'a [u8],
    found: &Found<'a>,
) -> Result<Segments, AsmError>
    requires { length text.now ≤ 67108864 }
    ensures text { IfOk result (λ s. s.text.items
        ≡ words (words_left false found.now.labels program.start_place (program.parsed_lines text.now))) }
    ensures data_bytes { IfOk result (λ s. s.data_bytes.items
        ≡ words (words_left true found.now.labels program.start_place (program.parsed_lines text.now))) }
    ensures whole { OnOk result (fault_marked found.now.labels found.now.again program.start_place 1
        (program.parsed_lines text.now) ≡ None) }
    ensures refused { IfErr result
        (IsFault (fault_marked found.now.labels found.now.again program.start_place 1
        (program.parsed_lines text.now))) }
    ensures short_text { IfOk result (λ s. length s.text.items ≤ 4194304) }
    ensures short_data { IfOk result (λ s. length s.data_bytes.items ≤ 16777216) }
{
    let mut segments = Segments::new(alloc);
    let mut place = Place::start();
    let mut line = 1;
    let mut left = Some(text);
    'lines: while let Some(rest) = left {
        let (front, behind) = first_line(rest);
        let statement = statement_of(front);
        let filling = match line_filling(found, place, line, statement) {
            Ok(filling) => filling,
            Err(kind) => return Err(AsmError::Refused(AsmFault { line, kind })),
        };
        segments.append(place.in_data, filling)?;
        place = place.behind(statement);
        line += 1;
        left = behind;
    }
    Ok(segments)
}

/// What a line puts into its segment, or the lowest kind of its faults.
fn line_filling<'a>(
    found: &Found<'a>,
    place: Place,
    line: u32,
    statement: Statement<'a>,
) -> Result<Filling, u32>
    requires { IsLow (2 ^ 50) place }
    ensures { words_or_kind result
        ≡ unmarked (passes.is_line found.now.again line)
        (program.line_words found.now.labels [] place (line_of_statement statement.entry)) }
{
    if is_line(found.again, line) {
        return Err(LABEL_TWICE);
    }
    filling_of(&found.labels, place, statement)
}

fn is_line(mark: Option<u32>, line: u32) -> bool
    ensures { result ≡ passes.is_line mark line }
{
    match mark {
        Some(marked) => marked == line,
        None => false,
    }
}
