//! The leaders of a range: the words at which its blocks begin, as one flag for each word.
ghost use Rattle.std.specs.Prelude.{◌≡◌, ◌+◌, ◌*◌, ◌%◌, ◌^◌, ◌<◌, ◌&&◌, ◌==◌, IfOk, IfSome, not, length, slice_set, true};
ghost use Rattle.block_builder.specs.Leaders.{AreLeaders, Marks, is_at, is_plain, words_of};

use crate::targets::{direct, is_plain, words_of};
use delay_slots::{RangeUnits, Unit};
use std::alloc::{AllocError, Global};

/// Which words of one whole range of code are leaders, by its units: the first word, each direct target within the range, the word after
/// the delay slot of a branch or jump that has one, and the word after any other unit that is not `Plain`. `start` is the address of the
/// range's first word, a multiple of 4.
///
/// # Errors
/// Out of memory for the flags, one for each word.
pub fn leader_flags(alloc: Global, units: &RangeUnits, start: u32) -> Result<Vec<bool>, AllocError>
    requires aligned { start % 4 ≡ 0 }
    requires below_end { start + 4 * length units.now < 2 ^ 32 }
    ensures { IfOk result (λ flags. AreLeaders units.now start flags.items) }
{
    let mut flags = vec![in alloc; false; units.len()]?;
    mark(&mut flags, 0);
    for word in 0..units.len() {
        let unit = units.at(word);
        let target = direct(&unit, start + 4 * word as u32);
        mark_target(&mut flags, start, target);
        mark_behind(&mut flags, &unit, word);
    }
    Ok(flags)
}

/// Marks the word at the target of a branch or jump, where the range has it.
fn mark_target(flags: &mut Vec<bool>, start: u32, target: Option<u32>)
    requires aligned { start % 4 ≡ 0 }
    requires target_aligned { IfSome target (λ t. t % 4 ≡ 0) }
    ensures { Marks flags.old.items flags.new.items (λ k. is_at target (start + 4 * k)) }
{
    let Some(target) = target else { return };
    let Some(offset) = target.checked_sub(start) else {
        return
    };
    mark(flags, (offset / 4) as usize);
}

/// Marks the next word after the unit of the given word, and after its delay slot, where the unit is not Plain.
fn mark_behind(flags: &mut Vec<bool>, unit: &Unit, word: usize)
    requires { word < 2 ^ 32 }
    ensures { Marks flags.old.items flags.new.items (λ k. not (is_plain unit.now)
        && k == word + words_of unit.now) }
{
    if !is_plain(unit) {
        mark(flags, word + words_of(unit));
    }
}

/// Marks a word, where the range has it.
fn mark(flags: &mut Vec<bool>, word: usize)
    ensures { flags.new.items ≡ slice_set flags.old.items word true }
{
    if word < flags.len() {
        flags[word] = true;
    }
}
