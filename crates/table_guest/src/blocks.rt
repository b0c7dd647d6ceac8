//! The units and the basic blocks of code at 00400000.
ghost use Rattle.std.specs.Prelude.{◌≡◌, ◌≤◌, ◌<◌, ◌+◌, not, true, IfOk, length};
ghost use Rattle.std.specs.List.{list_all};
ghost use Rattle.mips_definition.specs.Table.{is_float};
ghost use Rattle.block_builder.specs.Blocks.{AreUnits};

use anyhow::{Context, Result, ensure};
use block_builder::{Block, blocks, direct, part};
use delay_slots::{RangeUnits, Unit, units};
use mips_decode::{Inst, is_float, print_inst};
use std::alloc::{AllocError, Global};
use std::fmt::Write;
use table_rows::words_of;

/// The address of its first word.
const START: u32 = 0x0040_0000;

/// The units of code, one for each word: some and not many, and none of the floating-point coprocessor.
fn units_of(alloc: Global, pieces: &str) -> Result<RangeUnits>
    ensures are { IfOk result (λ units. AreUnits units) }
    ensures few { IfOk result (λ units. length units ≤ 1024) }
{
    let words = words_of(alloc, pieces)?;
    ensure!(is_lawful(words.as_slice()), "these are no words of blocks");
    let units = units(alloc, words.as_slice())?;
    ensure!(units.len() <= 1024, "there are too many words");
    Ok(units)
}

/// Whether there are words, and none is of the floating-point coprocessor.
fn is_lawful(words: &[u32]) -> bool
    ensures some { result ≡ true → 0 < length words.now }
    ensures no_float { result ≡ true → list_all (λ word. not (is_float word)) words.now ≡ true }
{
    0 < words.len() && has_no_float(words)
}

fn has_no_float(words: &[u32]) -> bool
    ensures { result ≡ list_all (λ word. not (is_float word)) words.now }
{
    words.iter().all(|word| !is_float(*word))
}

/// The units as texts.
pub fn units_row(alloc: Global, text: &mut String, pieces: &str) -> Result<()> {
    let units = units_of(alloc, pieces)?;
    push_units(alloc, text, &units)?;
    Ok(())
}

fn push_units(alloc: Global, text: &mut String, units: &RangeUnits) -> Result<(), AllocError> {
    let mut at = START;
    for k in 0..units.len() {
        push_unit(alloc, text, &units.at(k), at)?;
        text.push_str("; ")?;
        at = at.wrapping_add(4);
    }
    Ok(())
}

fn push_unit(alloc: Global, text: &mut String, unit: &Unit, at: u32) -> Result<(), AllocError> {
    match unit {
        Unit::Plain(inst) => push_inst(alloc, text, inst, at),
        Unit::Branch { inst, slot } => push_branch(alloc, text, inst, slot, at),
        Unit::SlotMissing(inst) => {
            push_inst(alloc, text, inst, at)?;
            text.push_str(" / no slot")
        }
        Unit::SlotIsBranch { inst, word } => {
            push_inst(alloc, text, inst, at)?;
            write!(text, " / branch {word:08X}")
        }
        Unit::Call => text.push_str("call"),
        Unit::Trap { kind, value } => write!(text, "trap {kind} {value:X}"),
    }
}

fn push_branch(
    alloc: Global,
    text: &mut String,
    inst: &Inst,
    slot: &Inst,
    at: u32,
) -> Result<(), AllocError> {
    push_inst(alloc, text, inst, at)?;
    text.push_str(" / ")?;
    push_inst(alloc, text, slot, at.wrapping_add(4))
}

fn push_inst(alloc: Global, text: &mut String, inst: &Inst, at: u32) -> Result<(), AllocError> {
    let shown = print_inst(alloc, inst, at)?;
    text.push_str(shown.as_str())
}

/// The blocks, each as `FIRST+WORDS` with the registers that it reads and writes.
pub fn blocks_row(alloc: Global, text: &mut String, pieces: &str) -> Result<()> {
    let units = units_of(alloc, pieces)?;
    let found = blocks(alloc, &units, START)?;
    push_blocks(text, found.as_slice())?;
    Ok(())
}

fn push_blocks(text: &mut String, blocks: &[Block]) -> Result<(), AllocError> {
    for block in blocks {
        push_block(text, block)?;
    }
    Ok(())
}

/// So many words of the first block, from one on.
pub fn part_row(
    alloc: Global,
    text: &mut String,
    first: u32,
    words: u32,
    pieces: &str,
) -> Result<()> {
    let units = units_of(alloc, pieces)?;
    let found = blocks(alloc, &units, START)?;
    let whole = found.first().context("there is no block")?;
    ensure!(
        has_words(whole, first, words),
        "the block has no such words"
    );
    push_block(text, &part(&units, whole, first, words))?;
    Ok(())
}

fn has_words(whole: &Block, first: u32, words: u32) -> bool
    ensures begins { result ≡ true → whole.now.first ≤ first }
    ensures ends { result ≡ true → first + words ≤ whole.now.first + whole.now.words }
{
    let end = u64::from(first) + u64::from(words);
    whole.first <= first && end <= u64::from(whole.first) + u64::from(whole.words)
}

/// Where the first unit goes, if its instruction says so.
pub fn target_row(alloc: Global, text: &mut String, pieces: &str) -> Result<()> {
    let units = units_of(alloc, pieces)?;
    ensure!(0 < units.len(), "there is no unit");
    push_target(text, direct(&units.at(0), START))?;
    Ok(())
}

fn push_target(text: &mut String, target: Option<u32>) -> Result<(), AllocError> {
    match target {
        Some(target) => write!(text, "{target:08X}"),
        None => text.push_str("none"),
    }
}

fn push_block(text: &mut String, block: &Block) -> Result<(), AllocError> {
    let (first, words) = (block.first, block.words);
    write!(text, "{first}+{words} reads")?;
    push_registers(text, block.reads)?;
    text.push_str(" writes")?;
    push_registers(text, block.writes)?;
    text.push_str("; ")
}

/// The numbers of the registers of a set, `hi` and `lo`.
fn push_registers(text: &mut String, set: u64) -> Result<(), AllocError> {
    for number in 0u32..32 {
        if set >> number & 1 == 1 {
            write!(text, " ${number}")?;
        }
    }
    text.push_str(if set >> 32 & 1 == 1 { " hi" } else { "" })?;
    text.push_str(if set >> 33 & 1 == 1 { " lo" } else { "" })
}
