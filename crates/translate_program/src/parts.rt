//! Which words of a range each class of code has.
ghost use Rattle.std.specs.Prelude.{◌≡◌, ◌<◌, ◌≤◌, length};
ghost use Rattle.method_splitter.specs.Shares.{share_count};
ghost use Rattle.translate_program.specs.Parts.{IsLow, IsPartOf};
ghost use Rattle.translate_program.specs.Places.{class_words};

use crate::NoMemory;
use elf_image_parts::RangeCode;
use method_splitter::{share_at, share_count};
use std::alloc::Global;
use translate_classes::Part;

/// How many words one class of code holds at most.
const CLASS_WORDS: usize = 6_144;

/// How many classes a range of so many words has.
pub fn part_count(words: u32) -> usize
    ensures { result ≡ share_count class_words words }
{
    share_count(words as usize, CLASS_WORDS)
}

/// Keeps the units of the words of the class of a number, of which much is asked while this is made.
///
/// # Errors
/// Out of memory for them.
pub fn keep_part(alloc: Global, range: &mut RangeCode, words: u32, k: usize) -> Result<(), NoMemory>
    requires units { length range.old.units ≡ words }
    requires within { k < share_count class_words words }
    ensures units { range.new.units ≡ range.old.units }
    ensures leads { range.new.leads ≡ range.old.leads }
    ensures start { range.new.start ≡ range.old.start }
{
    let share = share_at(words as usize, CLASS_WORDS, k);
    range.units.keep(alloc, share.first, share.count)
}

/// The words of the class of a number among the classes of a range, which has so many words, of a program with a meter or without.
pub fn part_at(metered: bool, range: &RangeCode, words: u32, k: usize) -> Part<'_>
    requires low { IsLow range.now words }
    requires within { k < share_count class_words words }
    ensures value { IsPartOf metered range.now words k result }
    ensures some { 1 ≤ result.words }
    ensures few { result.words ≤ 6144 }
{
    let share = share_at(words as usize, CLASS_WORDS, k);
    Part {
        units: &range.units,
        leads: range.leads.as_slice(),
        metered,
        start: range.start,
        first: share.first as u32,
        words: share.count as u32,
    }
}
