//! The checks that a file's image passes.
ghost use Rattle.std.specs.Prelude.{◌≡◌, ◌%◌, ◌≤◌, All, length};
ghost use Rattle.elf_definition.specs.declared.range.Range.{Range};
ghost use Rattle.elf_definition.specs.Content.{is_filled_page};
ghost use Rattle.elf_definition.specs.Pages.{count_below};
ghost use Rattle.elf_image.specs.PageTable.{marked};
ghost use Rattle.elf_definition.specs.ImageFault.{IsApart, exceeds, code_words, size_fault, pages_fault, layout_fault, float_fault};

use crate::floats::first_float;
use crate::layout::Layout;
use crate::page_marks::count_marks;
use crate::page_table::PageTable;
use elf_definition::ImageFault;
use elf_reader::Range;

/// The checks of the sizes of the file and of its code.
#[tactic(auto, unfolding(elf_definition::specs::ImageFault::size_fault))]
pub fn check_sizes(len: usize, code: &[Range]) -> Option<ImageFault>
    requires { IsApart code.now }
    ensures { result ≡ size_fault len code.now }
{
    if let Some(fault) = fault_above(ImageFault::FILE_TOO_LARGE, 67_108_864, len as u64) {
        return Some(fault);
    }
    if let Some(fault) = fault_above(ImageFault::CODE_TOO_LARGE, 1_048_576, code_words(code)) {
        return Some(fault);
    }
    fault_above(ImageFault::TOO_MANY_RANGES, 64, code.len() as u64)
}

/// The fault of a check of a number against its limit, if it fails.
fn fault_above(kind: u32, limit: u64, number: u64) -> Option<ImageFault>
    ensures { result ≡ exceeds kind limit number }
{
    (limit < number).then_some(ImageFault {
        kind,
        number,
        word: 0,
    })
}

/// How many words the ranges have.
fn code_words(code: &[Range]) -> u64
    requires { IsApart code.now }
    ensures { result ≡ code_words code.now }
{
    let mut words = 0u64;
    for range in code {
        // the addresses before this one have room for all words so far
        let _first = range.first;
        words += u64::from(range.words);
    }
    words
}

/// The check of how many pages are mapped.
pub fn check_pages(layout: &Layout) -> Option<ImageFault>
    ensures { result
        ≡ pages_fault layout.now.segments.value.items layout.now.heap layout.now.stack }
{
    fault_above(
        ImageFault::TOO_MANY_PAGES,
        65_536,
        u64::from(layout.pages()),
    )
}

/// The check of how many pages of the segments hold a byte that is not 0.
pub fn check_data(filled: &[bool]) -> Option<ImageFault>
    requires { length filled.now ≤ 524288 }
    ensures { result ≡ exceeds 5 16_384 (count_below (marked filled.now) 524288) }
{
    fault_above(
        ImageFault::TOO_MUCH_DATA,
        16_384,
        u64::from(count_marks(filled)),
    )
}

/// The check that no page is for two things.
pub fn check_layout(layout: &Layout) -> Option<ImageFault>
    ensures { result
        ≡ layout_fault layout.now.segments.value.items layout.now.heap layout.now.stack }
{
    let page = layout.first_shared()?;
    Some(ImageFault {
        kind: ImageFault::LAYOUT_CLASH,
        number: u64::from(page),
        word: 0,
    })
}

/// The check of the code's instructions.
pub fn check_float(table: &PageTable, code: &[Range]) -> Option<ImageFault>
    requires { All (λ r. r.first % 4 ≡ 0) code.now }
    ensures { result ≡ float_fault table.now.file.bytes table.now.segments.value.items code.now }
{
    let at = first_float(table, code)?;
    Some(ImageFault {
        kind: ImageFault::FLOAT_INSTRUCTION,
        number: at,
        word: table.code_word(at),
    })
}
