//! The main class as a file.
ghost use Rattle.std.specs.Prelude.{◌≡◌, ◌<◌, ◌≤◌, ◌++◌, All, IfOk, length};
ghost use Rattle.elf_definition.specs.Start.{Source};
ghost use Rattle.elf_definition.specs.Pages.{pages_below};
ghost use Rattle.elf_image_parts.specs.Runs.{IsRun};
ghost use Rattle.emit_layout.specs.Numbers.{main_methods};
ghost use Rattle.translate_classes.specs.Content.{RiseFrom, behind};
ghost use Rattle.translate_program.specs.MainFile.{IsHeadOf, IsMainFile, beginning_of};

use crate::NoMemory;
use crate::code_files::Code;
use crate::data_files::Data;
use crate::named_file::NamedFile;
use elf_image::Image;
use elf_image_parts::{PageRun, page_runs};
use emit_layout::file_name;
use emit_loading::Beginning;
use nv_values::{ClassName, MeterTurns};
use std::alloc::Global;
use translate_classes::{MainClass, main_class};

/// What the main class has of an image itself.
#[derive(Drop)]
pub struct Head {
    /// With what it begins.
    pub beginning: Beginning,
    /// Its pages that can be read.
    pub runs: Vec<PageRun>,
}

/// What the main class has of an image.
///
/// # Errors
/// Out of memory for it.
pub fn head_of(alloc: Global, image: &Image) -> Result<Head, NoMemory>
    ensures { IfOk result (IsHeadOf image.now) }
{
    let runs = page_runs(alloc, image)?;
    Ok(Head {
        beginning: beginning_of(image),
        runs,
    })
}

/// The main class of an image, with a meter of so many turns or with none, and with these classes of code and of data. The methods that it
/// calls of these have rising numbers after those of its own.
pub fn main_file(
    alloc: Global,
    head: &Head,
    name: &ClassName,
    meter: Option<MeterTurns>,
    code: &Code,
    stored: &Data,
) -> Result<NamedFile, NoMemory>
    requires runs { All IsRun head.now.runs.items }
    requires few_runs { length head.now.runs.items ≤ pages_below }
    requires some { 1 ≤ length code.now.starts.items }
    requires few { length code.now.starts.items ≤ 1200 }
    requires few_code { length code.now.runs.items ≤ 2048 }
    requires few_data { length stored.now.fills.items ≤ 2048 }
    requires known { All (λ start. start.method < behind main_methods code.now.runs.items)
        code.now.starts.items }
    requires rise { RiseFrom main_methods (code.now.runs.items ++ stored.now.fills.items) }
    ensures { IfOk result (λ file. (source : Source) → IsHeadOf source head.now
        → IsMainFile meter source name.now code.now.starts.items code.now.runs.items
        stored.now.fills.items file) }
{
    let main = MainClass {
        beginning: head.beginning,
        meter,
        runs: head.runs.as_slice(),
        starts: code.starts.as_slice(),
        code: code.runs.as_slice(),
        data: stored.fills.as_slice(),
    };
    let bytes = main_class(alloc, name, &main)?;
    Ok(NamedFile {
        name: file_name(alloc, name.as_str())?,
        bytes,
    })
}

// With what an image begins.
fn beginning_of(image: &Image) -> Beginning
    ensures { result ≡ beginning_of image.now }
{
    Beginning {
        entry: image.entry(),
        heap_start: image.heap_start(),
        heap_bytes: image.heap_bytes(),
        order: image.order(),
    }
}
