//! From the units of a range to its basic blocks.
ghost use Rattle.std.specs.Prelude.{◌≡◌, ◌+◌, ◌*◌, ◌%◌, ◌^◌, ◌<◌, ◌≤◌, All, IfOk, false, length, slice_index_or};
ghost use Rattle.block_builder.specs.Blocks as blocks;
ghost use Rattle.block_builder.specs.Blocks.{AreUnits, IsPiece};

use crate::block::Block;
use crate::leaders::leader_flags;
use crate::registers::{unit_reads, unit_writes};
use crate::targets::{is_plain, words_of};
use delay_slots::RangeUnits;
use std::alloc::{AllocError, Global};

/// Out of memory, the one error of `blocks`.
pub type NoMemory = AllocError;

/// The basic blocks of one whole range of code, by its units, in the order of their first words. `start` is the address of the
/// range's first word, a multiple of 4.
///
/// Leaders are the first word, each direct target within the range, the word after the delay slot of a branch or jump that has one,
/// and the word after any other unit that is not `Plain`. From each leader one block goes to the first unit that is not `Plain`, to
/// the word before the next leader or to the range's last word, whichever comes first. Where its last unit is a `Branch`, it has the
/// word of the delay slot too, even if that is a leader. It takes time in proportion to the number of words.
///
/// # Errors
/// Out of memory for the blocks.
pub fn blocks(alloc: Global, units: &RangeUnits, start: u32) -> Result<Vec<Block>, NoMemory>
    requires are_units { AreUnits units.now }
    requires aligned { start % 4 ≡ 0 }
    requires below_end { start + 4 * length units.now < 2 ^ 32 }
    ensures value { IfOk result (λ found. found.items ≡ blocks.blocks_of units.now start) }

    // What follows from it for each block.
    ensures pieces { IfOk result (λ found. All (IsPiece units.now) found.items) }
    ensures some_words { IfOk result (λ found. All (λ b. 0 < b.words) found.items) }
{
    let leaders = leader_flags(alloc, units, start)?;
    let flags = leaders.as_slice();
    let mut found = Vec::new(alloc);
    for first in 0..units.len() {
        if flags[first] {
            found.push(block_from(units, flags, first))?;
        }
    }
    Ok(found)
}

/// The words `first` and on, so many, of a block of the range with these units, or of a part of one. Its sets of registers are
/// those of its own instructions. Where its last unit is a `Branch`, they are those of the instruction in the delay slot too, even
/// if the slot's word is left out.
///
/// The words lie in the block.
pub fn part(units: &RangeUnits, block: &Block, first: u32, words: u32) -> Block
    requires piece { IsPiece units.now block.now }
    requires begins_within { block.now.first ≤ first }
    requires ends_within { first + words ≤ block.now.first + block.now.words }
    ensures value { result ≡ blocks.part_of units.now first words }
    ensures piece { IsPiece units.now result }
{
    words_from(units, first, words)
}

/// So many words of the range from one on, with the registers that their units read and write.
pub fn words_from(units: &RangeUnits, first: u32, words: u32) -> Block
    requires { first + words ≤ length units.now }
    ensures { result ≡ blocks.part_of units.now first words }
{
    let mut reads = 0;
    let mut writes = 0;
    for k in 0..words as usize {
        let unit = units.at(first as usize + k);
        reads |= unit_reads(&unit);
        writes |= unit_writes(&unit);
    }
    Block {
        first,
        words,
        reads,
        writes,
    }
}

/// The block that begins at a leader.
fn block_from(units: &RangeUnits, leaders: &[bool], first: usize) -> Block
    requires are_units { AreUnits units.now }
    requires few { length units.now < 2 ^ 32 }
    requires same_len { length leaders.now ≡ length units.now }
    requires within { first < length units.now }
    ensures { result ≡ blocks.block_from units.now (λ k. slice_index_or leaders.now k false) first }
{
    let last = end_of(units, leaders, first);
    let words = last - first + words_of(&units.at(last));
    words_from(units, first as u32, words as u32)
}

/// The last word of the block that begins at a leader, apart from that of a delay slot.
fn end_of(units: &RangeUnits, leaders: &[bool], first: usize) -> usize
    requires same_len { length leaders.now ≡ length units.now }
    requires within { first < length units.now }
    ensures value { result ≡ blocks.end_of units.now (λ k. slice_index_or leaders.now k false)
        first }
    ensures from { first ≤ result }
    ensures within { result < length units.now }
{
    let mut last = first;
    while !ends(units, leaders, last) {
        last += 1;
    }
    last
}

/// Whether a block ends with the unit of a word: it is not Plain, or it is the range's last, or a leader follows.
pub fn ends(units: &RangeUnits, leaders: &[bool], word: usize) -> bool
    requires same_len { length leaders.now ≡ length units.now }
    requires within { word < length units.now }
    ensures { result ≡ blocks.ends units.now (λ k. slice_index_or leaders.now k false) word }
{
    !is_plain(&units.at(word)) || word + 1 == units.len() || leaders[word + 1]
}
