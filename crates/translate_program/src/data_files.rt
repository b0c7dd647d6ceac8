//! The classes of data.
ghost use Rattle.std.specs.Prelude.{◌≤◌, ◌<◌, ◌^◌, All, IfOk, OnOk, length, map};
ghost use Rattle.translate_classes.specs.Pages.{page_of};
ghost use Rattle.translate_program.specs.DataFiles.{AddsFile, IsDataOf};

use crate::NoMemory;
use crate::named_file::NamedFile;
use crate::one_file::data_file;
use crate::pages::filled_pages;
use elf_image::Image;
use method_splitter::{share_at, share_count, shared};
use nv_values::ClassName;
use std::alloc::Global;
use translate_classes::PageData;

/// How many pages one class of data holds at most.
const CLASS_PAGES: usize = 1_024;

/// The classes of data so far, in the order of the pages.
#[derive(Drop)]
pub struct Data {
    pub files: Vec<NamedFile>,
    /// The number of the method `fill()V` of each class.
    pub fills: Vec<u32>,
}

/// All classes of data of an image: its pages that are not all zero, 1,024 in each class but the last. Before them the program has the main
/// class and so many classes of code, with so many methods.
///
/// # Errors
/// Out of memory for the classes.
pub fn data_of(
    alloc: Global,
    image: &Image,
    name: &ClassName,
    code_classes: usize,
    methods: u32,
) -> Result<Data, NoMemory>
    requires classes { code_classes < 2 ^ 15 }
    requires methods { methods < 2 ^ 31 }
    ensures { IfOk result (IsDataOf image.now name.now code_classes methods) }
{
    let pages = filled_pages(alloc, image)?;
    let mut made = Data {
        files: Vec::new(alloc),
        fills: Vec::new(alloc),
    };
    for k in 0..share_count(pages.len(), CLASS_PAGES) {
        let own = shared(pages.as_slice(), share_at(pages.len(), CLASS_PAGES, k));
        add_class(alloc, &mut made, name, code_classes, methods, k, own)?;
    }
    Ok(made)
}

// The class of a number, of these pages.
fn add_class(
    alloc: Global,
    made: &mut Data,
    name: &ClassName,
    code_classes: usize,
    methods: u32,
    k: usize,
    pages: &[PageData],
) -> Result<(), NoMemory>
    requires classes { code_classes < 2 ^ 15 }
    requires methods { methods < 2 ^ 31 }
    requires number { k < 2 ^ 15 }
    requires pages { length pages.now ≤ 1024 }
    requires words { All (λ p. length p.words.now ≤ 1024) pages.now }
    ensures { OnOk result (AddsFile name.now code_classes methods k (map page_of pages.now)
        made.old made.new) }
{
    let class = (code_classes + 1 + k) as u16;
    let first = methods + 2 * k as u32;
    let file = data_file(alloc, name, k as u16, class, first, pages)?;
    made.fills.push(first + 1)?;
    made.files.push(file)?;
    Ok(())
}
