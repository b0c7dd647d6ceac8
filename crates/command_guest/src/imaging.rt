//! From the name of a file to the image of a program.
ghost use Rattle.std.specs.Prelude.{◌≡◌, None};
ghost use Rattle.command_words.specs.Limits.{ArePages};
ghost use Rattle.elf_definition.specs.Area.{area};
ghost use Rattle.elf_definition.specs.Fault.{elf_fault, IsRunsOf};
ghost use Rattle.elf_definition.specs.Header.{header_of};
ghost use Rattle.elf_definition.specs.Segments.{live};
ghost use Rattle.command_deeds.specs.Ends.{Gives, Makes};
ghost use Rattle.command_deeds.specs.World.{shelf_seen};
ghost use Rattle.command_guest.specs.Imaging.{IsImaged, IsImagedFrom};

use command_deeds::{Done, Ending, Stop, load};
use command_words::{Named, Pages};
use elf_image::{Image, ImageError, image};
use elf_reader::{Elf, ElfError, read_elf};
use nv_outside::Shelf;
use std::alloc::Global;

/// The sizes of the memory of a program where no words give them.
pub const DEFAULT_PAGES: Pages = Pages {
    heap: 256,
    stack: 64,
};

/// Loads a program and makes its image with these pages of heap and stack.
pub fn load_image<H: Shelf>(
    alloc: Global,
    input: &Named,
    pages: Pages,
    shelf: &mut H,
) -> Result<Image, Ending>
    requires pages { ArePages pages }
    ensures gives { Gives (IsImagedFrom input.now pages)
        (shelf_seen H.Shelf shelf.old) (shelf_seen H.Shelf shelf.new) result }
{
    let file = load(alloc, input.word, input.text.as_str(), shelf)?;
    image_of_file(alloc, file.as_slice(), pages)
}

/// The image of the program that a file holds, with these pages of heap and stack.
pub fn image_of_file(alloc: Global, file: &[u8], pages: Pages) -> Result<Image, Ending>
    requires pages { ArePages pages }
    ensures makes { Makes (IsImaged pages file.now) result }
{
    match read_elf(alloc, file) {
        Ok(elf) => image_of_elf(alloc, &elf, pages),
        Err(ElfError::Refused(fault)) => Err(Ending::Refused(Done::ElfRefused(fault))),
        Err(ElfError::NoMemory) => Err(Ending::Stopped(Stop::NoMemory)),
    }
}

/// The image of an accepted program.
fn image_of_elf(alloc: Global, elf: &Elf<'_>, pages: Pages) -> Result<Image, Ending>
    requires accepted { elf_fault elf.now.file.now ≡ None }
    requires entry { elf.now.entry ≡ (header_of elf.now.file.now).e_entry }
    requires segments { elf.now.segments.items ≡ live elf.now.file.now }
    requires code { IsRunsOf (area elf.now.file.now) elf.now.code.items }
    requires pages { ArePages pages }
    ensures makes { Makes (IsImaged pages elf.now.file.now) result }
{
    match image(alloc, elf, pages.heap, pages.stack) {
        Ok(image) => Ok(image),
        Err(ImageError::Refused(fault)) => Err(Ending::Refused(Done::ImageRefused(fault))),
        Err(ImageError::NoMemory) => Err(Ending::Stopped(Stop::NoMemory)),
    }
}
