//! Runs of pages.
ghost use Rattle.std.specs.Prelude.{◌≡◌, ◌<◌, ◌^◌, true, All, IfOk, IsTrue, flat_map};
ghost use Rattle.elf_definition.specs.Start as start;
ghost use Rattle.elf_definition.specs.Pages.{pages_below};
ghost use Rattle.elf_image_parts.specs.Runs.{AreAlike, IsRun, pages_of, run_pages};

use crate::NoMemory;
use crate::page_run::PageRun;
use elf_image::Image;
use std::alloc::Global;

/// The number of pages below 80000000 (hexadecimal): no other can be read.
const PAGES: u32 = 1 << 19;

/// The greatest number of pages of a run.
const RUN_PAGES: u32 = 1 << 16;

/// The pages of an image that can be read, in rising order, as runs. It takes time for all 524,288 pages below 80000000 (hexadecimal).
///
/// # Errors
/// Out of memory for the runs.
pub fn page_runs(alloc: Global, image: &Image) -> Result<Vec<PageRun>, NoMemory>
    ensures pages { IfOk result (λ runs. flat_map run_pages runs.items
        ≡ pages_of (start.readable image.now) (start.writable image.now) pages_below) }
    ensures sound { IfOk result (λ runs. All IsRun runs.items) }
{
    let mut runs = Vec::new(alloc);
    let mut page = 0;
    while page < PAGES {
        if image.readable(page) {
            let run = run_at(image, page);
            page += run.count;
            runs.push(run)?;
        } else {
            page += 1;
        }
    }
    Ok(runs)
}

// The run that begins at a page that can be read.
fn run_at(image: &Image, first: u32) -> PageRun
    requires low { first < 2 ^ 19 }
    requires readable { start.readable image.now first ≡ true }
    ensures sound { IsRun result }
    ensures first { result.first ≡ first }
    ensures alike { AreAlike (start.readable image.now) (start.writable image.now)
        first result.writable result.count }
{
    let writable = image.writable(first);
    let mut count = 1;
    while count < RUN_PAGES && is_alike(image, first + count, writable) {
        count += 1;
    }
    PageRun {
        first,
        count,
        writable,
    }
}

// Whether a page can be read, and be written as said.
fn is_alike(image: &Image, page: u32, writable: bool) -> bool
    ensures low { IsTrue result → page < 2 ^ 19 }
    ensures readable { IsTrue result → start.readable image.now page ≡ true }
    ensures writable { IsTrue result → start.writable image.now page ≡ writable }
{
    page < PAGES && image.readable(page) && image.writable(page) == writable
}
