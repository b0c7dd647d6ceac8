//! The words of a range of code.
ghost use Rattle.std.specs.Prelude.{IfOk};
ghost use Rattle.delay_slots.specs.Units.{HasNoFloat};
ghost use Rattle.elf_definition.specs.Start.{image_of};
ghost use Rattle.elf_image.specs.Whole.{IsWholeRange, IsPlainWord};
ghost use Rattle.elf_image_parts.specs.Ranges.{AreWords, IsWordAt};

use crate::NoMemory;
use elf_image::Image;
use elf_reader::Range;
use std::alloc::Global;

/// The words of a range of the image's code, in order.
pub fn range_words(alloc: Global, image: &Image, range: Range) -> Result<Vec<u32>, NoMemory>
    requires { IsWholeRange (image_of image.now).code range }
    ensures words { IfOk result (λ words. AreWords (image_of image.now).code range words.items) }
    ensures no_float { IfOk result (λ words. HasNoFloat words.items) }
{
    let mut words = Vec::new(alloc);
    for k in 0..range.words {
        words.push(word_at(image, range.first + 4 * k))?;
    }
    Ok(words)
}

// The word at an address at which one stands.
fn word_at(image: &Image, at: u32) -> u32
    requires { IsPlainWord ((image_of image.now).code at) }
    ensures { IsWordAt (image_of image.now).code at result }
{
    match image.word(at) {
        Some(word) => word,
        None => 0,
    }
}
