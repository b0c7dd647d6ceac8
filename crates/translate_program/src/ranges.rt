//! The ranges of an image's code.
ghost use Rattle.std.specs.Prelude.{◌≡◌, IfOk};
ghost use Rattle.translate_program.specs.Ranges.{AreRangesOf};

use crate::NoMemory;
use elf_image::Image;
use elf_image_parts::{RangeCode, range_code};
use std::alloc::Global;
use std::snapshot::Snapshot;

/// The ranges of an image's code, of which its classes of code are made.
#[derive(Drop)]
pub struct Ranges {
    /// The image, which only clauses read.
    pub image: Snapshot<Image>,
    /// Its ranges, in rising order.
    pub items: Vec<RangeCode>,
}

/// All ranges of an image's code.
///
/// # Errors
/// Out of memory for them.
pub fn ranges_of(alloc: Global, image: &Image) -> Result<Ranges, NoMemory>
    ensures image { IfOk result (λ ranges. ranges.image.value ≡ image.now) }
    ensures ranges { IfOk result (λ ranges. AreRangesOf image.now ranges.items.items) }
{
    image.laws();
    let mut items = Vec::new(alloc);
    for range in image.ranges() {
        let code = range_code(alloc, image, *range)?;
        items.push(code)?;
    }
    Ok(Ranges {
        image: Snapshot::of(image),
        items,
    })
}
