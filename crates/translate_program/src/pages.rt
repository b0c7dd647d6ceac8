//! The pages of an image that are not all zero.
ghost use Rattle.std.specs.Prelude.{◌≡◌, ◌+◌, ◌≤◌, All, IfOk, OnOk, length, map};
ghost use Rattle.elf_definition.specs.Pages.{pages_below};
ghost use Rattle.elf_image_parts.specs.Pages.{filled_below};
ghost use Rattle.translate_classes.specs.Pages.{page_of};

use crate::NoMemory;
use elf_image::Image;
use std::alloc::Global;
use translate_classes::PageData;

/// The number of pages below 80000000 (hexadecimal): no other can be read.
const PAGES: u32 = 1 << 19;

/// The pages of an image that are not all zero, in rising order.
pub fn filled_pages<'a>(alloc: Global, image: &'a Image) -> Result<Vec<PageData<'a>>, NoMemory>
    ensures pages { IfOk result (λ pages. map page_of pages.items
        ≡ filled_below image.now pages_below) }
    ensures words { IfOk result (λ pages. All (λ p. length p.words.now ≤ 1024) pages.items) }
{
    let mut pages = Vec::new(alloc);
    for page in 0..PAGES {
        add_page(image, page, &mut pages)?;
    }
    Ok(pages)
}

// A page behind those below it, unless it is all zero.
fn add_page<'a>(image: &'a Image, page: u32, pages: &mut Vec<PageData<'a>>) -> Result<(), NoMemory>
    requires pages { map page_of pages.old.items ≡ filled_below image.now page }
    requires words { All (λ p. length p.words.now ≤ 1024) pages.old.items }
    ensures pages { OnOk result (map page_of pages.new.items ≡ filled_below image.now (page + 1)) }
    ensures words { OnOk result (All (λ p. length p.words.now ≤ 1024) pages.new.items) }
{
    match image.page(page) {
        Some(words) => {
            pages.push(PageData { page, words })?;
            Ok(())
        }
        None => Ok(()),
    }
}
