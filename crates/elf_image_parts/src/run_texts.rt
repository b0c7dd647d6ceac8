//! Runs of pages as characters.
ghost use Rattle.std.specs.Prelude.{◌≡◌, ◌+◌, ◌/◌, ◌++◌, All, IfOk, OnOk, if◌then◌else◌};
ghost use Rattle.elf_image_parts.specs.Runs as emitted;

use crate::NoMemory;
use crate::page_run::PageRun;
use std::alloc::Global;

/// The text of runs: three characters for each. The first is the first page divided by 4,096, with 128 added where the pages can be
/// written; the second is the rest of this division; the third is how many pages follow the first. In a class file they take at most 2, 3
/// and 3 bytes.
///
/// # Errors
/// Out of memory for the text.
pub fn run_text(alloc: Global, runs: &[PageRun]) -> Result<Vec<u16>, NoMemory>
    requires { All emitted.IsRun runs.now }
    ensures { IfOk result (λ text. text.items ≡ emitted.text_of runs.now) }
{
    let mut text = Vec::new(alloc);
    for run in runs {
        append_run(run, &mut text)?;
    }
    Ok(text)
}

fn append_run(run: &PageRun, text: &mut Vec<u16>) -> Result<(), NoMemory>
    requires { emitted.IsRun run.now }
    ensures { OnOk result (text.new.items ≡ text.old.items ++ emitted.run_text run.now) }
{
    text.push(head(run))?;
    text.push((run.first % 4096) as u16)?;
    text.push((run.count - 1) as u16)?;
    Ok(())
}

// The first page divided by 4,096, with 128 added where the pages can be written.
fn head(run: &PageRun) -> u16
    requires { emitted.IsRun run.now }
    ensures { result ≡ run.now.first / 4096 + (if run.now.writable then 128 else 0) }
{
    let block = (run.first / 4096) as u16;
    if run.writable { block + 128 } else { block }
}
