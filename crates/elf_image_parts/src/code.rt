//! A range of code.
ghost use Rattle.std.specs.Prelude.{◌≡◌, IfOk, length};
ghost use Rattle.elf_definition.specs.Start.{image_of};
ghost use Rattle.elf_image.specs.Whole.{IsWholeRange};
ghost use Rattle.elf_image_parts.specs.Ranges.{IsRangeCode};

use crate::NoMemory;
use crate::words::range_words;
use block_builder::leader_flags;
use delay_slots::{RangeUnits, units};
use elf_image::Image;
use elf_reader::Range;
use std::alloc::Global;

/// A range of code.
#[derive(Drop)]
pub struct RangeCode {
    /// The address of its first word.
    pub start: u32,
    /// What each word does.
    pub units: RangeUnits,
    /// Which words are leaders: those at which a block begins.
    pub leads: Vec<bool>,
}

/// A range of the image's code.
///
/// # Errors
/// Out of memory for it.
pub fn range_code(alloc: Global, image: &Image, range: Range) -> Result<RangeCode, NoMemory>
    requires { IsWholeRange (image_of image.now).code range }
    ensures code { IfOk result (λ c.
        IsRangeCode (image_of image.now).code range c.units c.leads.items) }
    ensures start { IfOk result (λ c. c.start ≡ range.first) }
    ensures count { IfOk result (λ c. length c.units ≡ range.words) }
{
    let words = range_words(alloc, image, range)?;
    let units = units(alloc, words.as_slice())?;
    let leads = leader_flags(alloc, &units, range.first)?;
    Ok(RangeCode {
        start: range.first,
        units,
        leads,
    })
}
