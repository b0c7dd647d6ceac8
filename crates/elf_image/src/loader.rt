ghost use Rattle.std.specs.Prelude.{◌≡◌, ◌≤◌, None, OnOk, IfOk, IfErr, All, AllPairs, length};
ghost use Rattle.std.specs.Option.{option_or};
ghost use Rattle.elf_definition.specs.Header.{header_of};
ghost use Rattle.elf_definition.specs.Segments.{live, IsApart as IsApartFrom};
ghost use Rattle.elf_definition.specs.Area.{area};
ghost use Rattle.elf_definition.specs.Fault.{elf_fault, IsRunsOf};
ghost use Rattle.elf_reader.specs.Answer.{IsSound};
ghost use Rattle.elf_definition.specs.ImageFault.{size_fault, pages_fault, data_fault, layout_fault, float_fault, image_fault};
ghost use Rattle.elf_image.specs.Answer.{IsAnswer, IsAnswerTo};

use crate::checks::{check_data, check_float, check_layout, check_pages, check_sizes};
use crate::filled::filled_marks;
use crate::guest_image::Image;
use crate::image_error::ImageError;
use crate::layout::Layout;
use crate::page_table::PageTable;
use elf_definition::ImageFault;
use elf_reader::{Elf, Segment};
use std::alloc::Global;

/// The memory and code with which the program of an accepted ELF file starts, given `heap` pages of heap and `stack` pages of
/// stack.
///
/// The heap begins at the first page past the highest segment, and the stack ends where the argument page begins, at 7FFFF000
/// (hexadecimal).
///
/// Memory is taken for the pages that are not all zero, and some seven bytes for each page below the end of the highest segment; time
/// goes with the number of these pages and the length of the segments' bytes in the file.
///
/// # Errors
/// `Refused` with the first check that fails, as `ImageFault` lists them; `NoMemory` where there is not enough memory.
pub fn image(alloc: Global, elf: &Elf<'_>, heap: u32, stack: u32) -> Result<Image, ImageError>
    requires accepted { elf_fault elf.now.file.now ≡ None }
    requires entry { elf.now.entry ≡ (header_of elf.now.file.now).e_entry }
    requires segments { elf.now.segments.items ≡ live elf.now.file.now }
    requires code { IsRunsOf (area elf.now.file.now) elf.now.code.items }
    requires heap_fits { heap ≤ 32768 }
    requires some_stack { 1 ≤ stack }
    requires stack_fits { stack ≤ 32768 }
    ensures refused { IfErr result (λ e.
        IsAnswerTo elf.now.file.now elf.now.code.items heap stack e) }
    ensures passed { OnOk result (image_fault elf.now.file.now elf.now.code.items heap stack
        ≡ None) }
    ensures image { IfOk result (λ i. i
        ≡ record { file = elf.now.file.now; heap = heap; stack = stack }) }
{
    let layout = laid_out(alloc, elf, heap, stack)?;
    let table = stored_pages(alloc, elf.file, &elf.segments, &layout)?;
    refuse(check_float(&table, elf.code.as_slice()))?;
    let image = Image::kept(alloc, elf, layout, table)?;
    Ok(image)
}

/// Finds where all pages lie, with the checks of the sizes and of how many pages are mapped.
fn laid_out(alloc: Global, elf: &Elf<'_>, heap: u32, stack: u32) -> Result<Layout, ImageError>
    requires accepted { elf_fault elf.now.file.now ≡ None }
    requires segments { elf.now.segments.items ≡ live elf.now.file.now }
    requires code { IsRunsOf (area elf.now.file.now) elf.now.code.items }
    requires heap_fits { heap ≤ 32768 }
    requires stack_fits { stack ≤ 32768 }
    ensures refused { IfErr result
        (IsAnswer (option_or (size_fault (length elf.now.file.now) elf.now.code.items)
        (pages_fault (live elf.now.file.now) heap stack))) }
    ensures passed { OnOk result
        (option_or (size_fault (length elf.now.file.now) elf.now.code.items)
        (pages_fault (live elf.now.file.now) heap stack) ≡ None) }
    ensures segments { IfOk result (λ layout. layout.segments.value.items ≡ live elf.now.file.now) }
    ensures heap { IfOk result (λ layout. layout.heap ≡ heap) }
    ensures stack { IfOk result (λ layout. layout.stack ≡ stack) }
{
    refuse(check_sizes(elf.file.len(), elf.code.as_slice()))?;
    let layout = Layout::new(alloc, &elf.segments, heap, stack)?;
    refuse(check_pages(&layout))?;
    Ok(layout)
}

/// Stores the pages that hold a byte that is not 0, with the checks of how many these are and of the layout.
fn stored_pages(
    alloc: Global,
    file: &[u8],
    segments: &Vec<Segment>,
    layout: &Layout,
) -> Result<PageTable, ImageError>
    requires sound { All (IsSound (length file.now)) segments.now.items }
    requires apart { AllPairs IsApartFrom segments.now.items }
    requires segments { layout.now.segments.value.items ≡ segments.now.items }
    ensures refused { IfErr result
        (IsAnswer (option_or (data_fault file.now segments.now.items)
        (layout_fault segments.now.items layout.now.heap layout.now.stack))) }
    ensures passed { OnOk result (option_or (data_fault file.now segments.now.items)
        (layout_fault segments.now.items layout.now.heap layout.now.stack) ≡ None) }
    ensures file { IfOk result (λ table. table.file.bytes ≡ file.now) }
    ensures segments { IfOk result (λ table. table.segments.value.items ≡ segments.now.items) }
{
    let filled = filled_marks(alloc, file, segments.as_slice())?;
    refuse(check_data(filled.as_slice()))?;
    refuse(check_layout(layout))?;
    let table = PageTable::new(alloc, file, segments, filled.as_slice())?;
    Ok(table)
}

/// An error where a check failed.
fn refuse(fault: Option<ImageFault>) -> Result<(), ImageError>
    ensures refused { IfErr result (IsAnswer fault) }
    ensures passed { OnOk result (fault ≡ None) }
{
    match fault {
        Some(fault) => Err(ImageError::Refused(fault)),
        None => Ok(()),
    }
}
