//! The memory with which a program starts.
ghost use Rattle.std.specs.Prelude.{◌≡◌, ◌+◌, ◌<◌, ◌≤◌, IfOk, OnOk};
ghost use Rattle.elf_definition.specs.Start.{image_of};
ghost use Rattle.mips_memory.specs.Pages.{memory_of};
ghost use Rattle.mips_memory.specs.Loading.{memory_below};

use crate::{GuestMemory, NoMemory};
use elf_image::Image;
use std::alloc::Global;

/// The number of pages below address 80000000 (hexadecimal).
const PAGES: u32 = 524288;

/// The memory of an image, as it is when the program starts: its pages that can be read, each with its words, and whether it may be
/// written.
///
/// # Errors
///
/// NoMemory where there is no memory for the pages.
pub fn load_memory(alloc: Global, image: &Image) -> Result<GuestMemory, NoMemory>
    ensures { IfOk result (λ m. memory_of m ≡ (image_of image.now).memory) }
{
    let mut memory = GuestMemory::new(alloc, image.mapped())?;
    let gap = image.gap();
    image.laws();
    add_pages(&mut memory, image, 0, gap.start)?;
    add_pages(&mut memory, image, gap.end, PAGES)?;
    Ok(memory)
}

/// Adds the pages from a number on and before another that the image has.
fn add_pages(memory: &mut GuestMemory, image: &Image, first: u32, end: u32) -> Result<(), NoMemory>
    requires ordered { first ≤ end }
    requires low { end ≤ 524288 }
    requires earlier { memory_of memory.old ≡ memory_below (image_of image.now).memory first }
    ensures { OnOk result (memory_of memory.new ≡ memory_below (image_of image.now).memory end) }
{
    for page in first..end {
        add_page(memory, image, page)?;
    }
    Ok(())
}

/// Adds the page of a number, if the image has one.
fn add_page(memory: &mut GuestMemory, image: &Image, page: u32) -> Result<(), NoMemory>
    requires low { page < 524288 }
    requires earlier { memory_of memory.old ≡ memory_below (image_of image.now).memory page }
    ensures { OnOk result (memory_of memory.new
        ≡ memory_below (image_of image.now).memory (page + 1)) }
{
    if !image.readable(page) {
        return Ok(());
    }
    image.laws();
    let writable = image.writable(page);
    match image.page(page) {
        Some(words) => memory.map_page(page, writable, words),
        None => memory.map_zero_page(page, writable),
    }
}
