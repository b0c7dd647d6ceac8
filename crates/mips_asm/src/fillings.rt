//! What each line puts into its segment. An `Err` is the lowest kind of the line's faults.
ghost use Rattle.std.specs.Prelude.{◌≡◌, ◌<◌, ◌^◌, ◌==◌, [], true, cond};
ghost use Rattle.asm_lines.specs.Lines.{Word, Space, Instruction};
ghost use Rattle.asm_lines.specs.Statements.{line_of_statement};
ghost use Rattle.mips_asm.specs.Fillings.{words_or_kind};
ghost use Rattle.mips_asm.specs.Shapes.{word_or_kind};
ghost use Rattle.mips_asm.specs.Passes.{IsLow};
ghost use Rattle.mips_asm.specs.Program as program;

use crate::directives::{space_value, word_value};
use crate::filling::Filling;
use crate::instruction::instruction_of;
use crate::operands::Operands;
use crate::place::Place;
use asm_lines::{Labels, Mnemonic, NO_FORM, OUT_OF_RANGE, Statement, WRONG_FORM};
use mips_decode::{Inst, encode};

/// What a line at a place puts there, where a text has some labels.
pub fn filling_of<'a>(
    labels: &Labels<'a>,
    place: Place,
    statement: Statement<'a>,
) -> Result<Filling, u32>
    requires { IsLow (2 ^ 50) place }
    ensures { words_or_kind result
        ≡ program.line_words labels.now [] place (line_of_statement statement.entry) }
{
    match statement {
        Statement::Nothing | Statement::Label(_) => Ok(Filling::Nothing),
        Statement::TextSegment(rest) | Statement::DataSegment(rest) => bare(rest),
        Statement::Word(rest) => word(place, rest),
        Statement::Space(rest) => space(place, rest),
        Statement::Instruction(mnemonic, rest) => instruction(labels, place, mnemonic, rest),
        Statement::NoForm => Err(NO_FORM),
    }
}

/// A directive that has no operand.
fn bare(rest: &[u8]) -> Result<Filling, u32>
    ensures { words_or_kind result ≡ program.bare rest.now }
{
    if rest.is_empty() {
        Ok(Filling::Nothing)
    } else {
        Err(WRONG_FORM)
    }
}

fn word(place: Place, rest: &[u8]) -> Result<Filling, u32>
    requires { IsLow (2 ^ 50) place }
    ensures { words_or_kind result ≡ program.line_words [] [] place (Word rest.now) }
{
    let has_room = place.filled(4).is_within();
    unless_full(has_room, one_word(word_value(rest)))
}

fn space(place: Place, rest: &[u8]) -> Result<Filling, u32>
    requires { IsLow (2 ^ 50) place }
    ensures { words_or_kind result ≡ program.line_words [] [] place (Space rest.now) }
{
    let bytes = space_value(rest);
    let has_room = has_room_for(place, bytes.unwrap_or(0));
    unless_full(has_room, zeros(bytes))
}

fn has_room_for(place: Place, bytes: u64) -> bool
    requires few { bytes < 2097152 }
    requires low { IsLow (2 ^ 50) place }
    ensures { result ≡ cond (bytes == 0) true (program.is_within_limits (program.filled bytes place)) }
{
    bytes == 0 || place.filled(bytes).is_within()
}

fn instruction<'a>(
    labels: &Labels<'a>,
    place: Place,
    mnemonic: Mnemonic,
    rest: &'a [u8],
) -> Result<Filling, u32>
    requires { IsLow (2 ^ 50) place }
    ensures { words_or_kind result
        ≡ program.line_words labels.now [] place (Instruction mnemonic rest.now) }
{
    let has_room = !place.in_data && place.filled(4).is_within();
    let operands = Operands {
        labels: &*labels,
        at: place.address(),
        text: rest,
    };
    let instruction = instruction_of(mnemonic, &operands);
    unless_full(has_room, encoded(instruction))
}

fn one_word(word: Result<u32, u32>) -> Result<Filling, u32>
    ensures { words_or_kind result ≡ program.as_list word }
{
    match word {
        Ok(word) => Ok(Filling::Word(word)),
        Err(kind) => Err(kind),
    }
}

fn encoded(instruction: Result<Inst, u32>) -> Result<Filling, u32>
    ensures { words_or_kind result ≡ program.as_list (word_or_kind instruction) }
{
    match instruction {
        Ok(instruction) => Ok(Filling::Word(encode(&instruction))),
        Err(kind) => Err(kind),
    }
}

fn zeros(bytes: Result<u64, u32>) -> Result<Filling, u32>
    ensures { words_or_kind result ≡ program.zeros bytes }
{
    match bytes {
        Ok(bytes) => Ok(Filling::Zeros(bytes)),
        Err(kind) => Err(kind),
    }
}

/// The filling, unless there is no room for it.
fn unless_full(has_room: bool, filling: Result<Filling, u32>) -> Result<Filling, u32>
    ensures { words_or_kind result ≡ program.kind_unless 3 has_room (words_or_kind filling) }
{
    match filling {
        Ok(_) if !has_room => Err(OUT_OF_RANGE),
        Err(kind) if !has_room => Err(kind.min(OUT_OF_RANGE)),
        other => other,
    }
}
