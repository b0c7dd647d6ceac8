//! Methods made by hand, with their verdicts.
use anyhow::{Context, Result};
use jvm_definition::{
    ArrayKind, ArrayName, BranchName, Constant, Instruction, IntArithmetic, Kept, Kind, LinkedLine,
    LinkedMethod, LocalKind, ReturnName, Sequence, StackName, TableSwitch,
};
use jvm_type_inference::check_method;
use std::alloc::{AllocError, Global};
use std::fmt::Write;
use table_rows::{rest, slot, word};

/// Whether a method is typed, or where not: `verdict KINDS STACK LOCALS INSTRUCTIONS`. The kinds of its parameters have commas between
/// them, or are `none`. An instruction is `NAME`, `NAME:NUMBER` or that with `/BYTES`, if it has more than one; `COUNT*` before it is
/// for so many.
pub fn verdict_row(alloc: Global, text: &mut String, row: &str) -> Result<()> {
    let kinds = kinds_of(alloc, word(row, 1))?;
    let lines = lines_of(alloc, rest(row, 4))?;
    let method = LinkedMethod {
        parameters: Sequence::new(kinds),
        gives_int: false,
        stack: slot(row, 2),
        locals: slot(row, 3),
        lines: Sequence::new(lines),
    };
    push_verdict(text, verdict(alloc, method)?)?;
    Ok(())
}

fn push_verdict(text: &mut String, found: Option<u32>) -> Result<(), AllocError> {
    match found {
        Some(at) => write!(text, "at {at}"),
        None => text.push_str("typed"),
    }
}

fn verdict(alloc: Global, method: LinkedMethod) -> Result<Option<u32>, AllocError> {
    let methods = vec![in alloc; method]?;
    check_method(alloc, methods.as_slice(), 0)
}

fn kinds_of(alloc: Global, names: &str) -> Result<Vec<Kind>, AllocError> {
    let mut kinds = Vec::new(alloc);
    for name in names.split(',') {
        if let Some(kind) = kind_of(name) {
            kinds.push(kind)?;
        }
    }
    Ok(kinds)
}

fn kind_of(name: &str) -> Option<Kind> {
    match name {
        "int" => Some(Kind::Int),
        "ints" => Some(Kind::Ints),
        "pages" => Some(Kind::Pages),
        "text" => Some(Kind::Text),
        _ => None,
    }
}

fn lines_of(alloc: Global, code: &str) -> Result<Vec<LinkedLine>> {
    let mut lines = Vec::new(alloc);
    for piece in code.split_whitespace() {
        push_lines(alloc, &mut lines, piece)?;
    }
    Ok(lines)
}

fn push_lines(alloc: Global, lines: &mut Vec<LinkedLine>, piece: &str) -> Result<()> {
    let (count, one) = piece.split_once('*').unwrap_or(("1", piece));
    let (word, bytes) = one.split_once('/').unwrap_or((one, "1"));
    let (count, bytes) = (number(count), number(bytes));
    for _ in 0..count {
        push_line(lines, instruction_of(alloc, word)?, bytes)?;
    }
    Ok(())
}

/// Adds an instruction of so many bytes after the last one.
fn push_line(
    lines: &mut Vec<LinkedLine>,
    instruction: Instruction,
    bytes: u32,
) -> Result<(), AllocError> {
    let at = end_of(lines.as_slice());
    lines.push(LinkedLine {
        at,
        next: at.saturating_add(bytes),
        instruction,
    })?;
    Ok(())
}

fn end_of(lines: &[LinkedLine]) -> u32 {
    match lines.last() {
        Some(line) => line.next,
        None => 0,
    }
}

fn number(digits: &str) -> u32 {
    digits.parse().unwrap_or(0)
}

fn instruction_of(alloc: Global, word: &str) -> Result<Instruction> {
    let (name, number) = word.split_once(':').unwrap_or((word, "0"));
    let number = number.parse::<u32>().unwrap_or(0);
    if name == "switch" {
        return Ok(switch_of(alloc, number)?);
    }
    match plain(name) {
        Some(found) => Ok(found),
        None => numbered(name, number).context("no instruction"),
    }
}

/// The instruction of a name that has no number.
fn plain(name: &str) -> Option<Instruction> {
    match name {
        "nop" => Some(Instruction::Nop),
        "int" => Some(Instruction::Push(Constant::Int(0))),
        "long" => Some(Instruction::Push(Constant::Long(0))),
        "null" => Some(Instruction::Push(Constant::Null)),
        "iaload" => Some(Instruction::Array(ArrayName::Iaload)),
        "aaload" => Some(Instruction::Array(ArrayName::Aaload)),
        "pop" => Some(Instruction::Stack(StackName::Pop)),
        "pop2" => Some(Instruction::Stack(StackName::Pop2)),
        "dup2" => Some(Instruction::Stack(StackName::Dup2)),
        "iadd" => Some(Instruction::IntArithmetic(IntArithmetic::Iadd)),
        "length" => Some(Instruction::Length),
        "arraylength" => Some(Instruction::ArrayLength),
        "newarray" => Some(Instruction::NewArray(ArrayKind::Ints)),
        "return" => Some(Instruction::Return(ReturnName::Return)),
        _ => None,
    }
}

/// The instruction of a name with a local variable or a target.
fn numbered(name: &str, number: u32) -> Option<Instruction> {
    let local = u8::try_from(number).unwrap_or(0);
    match name {
        "iload" => Some(Instruction::Load(LocalKind::Int, local)),
        "aload" => Some(Instruction::Load(LocalKind::Reference, local)),
        "astore" => Some(Instruction::Store(LocalKind::Reference, local)),
        "ifeq" => Some(Instruction::Branch(BranchName::Ifeq, number)),
        "goto" => Some(Instruction::Branch(BranchName::Goto, number)),
        _ => None,
    }
}

/// A switch of one target.
fn switch_of(alloc: Global, target: u32) -> Result<Instruction, AllocError> {
    let switch = TableSwitch {
        default: 2,
        low: 0,
        targets: Sequence::new(vec![in alloc; target]?),
    };
    Ok(Instruction::TableSwitch(Kept::new(alloc, switch)?))
}
