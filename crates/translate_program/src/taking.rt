//! What is taken of an image before its code is made.
ghost use Rattle.std.specs.Prelude.{◌≡◌, IfOk};
ghost use Rattle.translate_program.specs.Taking.{IsTaken};

use crate::NoMemory;
use crate::bounds::need;
use crate::counting::code_counts;
use crate::data_files::{Data, data_of};
use crate::main_file::{Head, head_of};
use crate::ranges::{Ranges, ranges_of};
use elf_image::Image;
use nv_values::{ClassName, MethodBytes, RegionWords};
use std::alloc::Global;

/// What is taken of an image: its classes of code and its main class are made of it, without the image.
#[derive(Drop)]
pub struct Taken {
    /// The ranges of its code.
    pub ranges: Ranges,
    /// What the main class has of it.
    pub head: Head,
    /// Its classes of data. They are made before those of code, so that the texts of their pages are gone when code is made.
    pub stored: Data,
    /// The words of the region in which its classes run.
    pub need: RegionWords,
}

/// What is taken of an image.
///
/// # Errors
/// Out of memory for it.
pub fn taken_of(
    alloc: Global,
    image: &Image,
    name: &ClassName,
    method_bytes: MethodBytes,
    metered: bool,
) -> Result<Taken, NoMemory>
    ensures image { IfOk result (λ taken. taken.ranges.image.value ≡ image.now) }
    ensures taken { IfOk result (IsTaken metered name.now method_bytes) }
{
    let ranges = ranges_of(alloc, image)?;
    let counts = code_counts(alloc, &ranges, method_bytes, metered)?;
    let stored = data_of(alloc, image, name, counts.classes, counts.methods)?;
    let head = head_of(alloc, image)?;
    Ok(Taken {
        ranges,
        head,
        stored,
        need: need(image),
    })
}

/// What is taken of an image, which is let go.
///
/// # Errors
/// Out of memory for it.
pub fn taken_from(
    alloc: Global,
    image: Image,
    name: &ClassName,
    method_bytes: MethodBytes,
    metered: bool,
) -> Result<Taken, NoMemory>
    ensures image { IfOk result (λ taken. taken.ranges.image.value ≡ image) }
    ensures taken { IfOk result (IsTaken metered name.now method_bytes) }
{
    taken_of(alloc, &image, name, method_bytes, metered)
}
