//! The texts of pages.
ghost use Rattle.std.specs.Prelude.{◌+◌, ◌<◌, ◌≤◌, [], All, IfOk, OnOk, length};
ghost use Rattle.std.specs.List.{AllZip};
ghost use Rattle.elf_image_parts.specs.Runs.{IsRun};
ghost use Rattle.method_splitter.specs.Shares as equal;
ghost use Rattle.emit_classes.specs.Named.{IsTextAt};
ghost use Rattle.translate_classes.specs.Making.{AddsMethods};
ghost use Rattle.translate_classes.specs.Content.{share_text, share_texts, text_runs};

use crate::{NoMemory, building};
use elf_image_parts::{PageRun, run_text};
use emit_classes::ClassBuilder;
use method_splitter::{share_at, share_count, shared};
use std::alloc::Global;

/// How many runs of pages one text holds: in a class file each takes 8 bytes at most, and a text 65,535.
const TEXT_RUNS: usize = 8_000;

/// The texts of runs of pages, by the slots of their characters.
pub fn text_slots(
    alloc: Global,
    class: &mut ClassBuilder,
    runs: &[PageRun],
) -> Result<Vec<u16>, NoMemory>
    requires runs { All IsRun runs.now }
    requires room { length class.old.pool + equal.share_count text_runs (length runs.now) ≤ 65534 }
    ensures there { IfOk result (λ slots.
        AllZip (IsTextAt class.new.pool) slots.items (share_texts runs.now)) }
    ensures grown { OnOk result (AddsMethods class.old class.new []) }
    ensures few { OnOk result (length class.new.pool
        ≤ length class.old.pool + equal.share_count text_runs (length runs.now)) }
{
    let mut slots = Vec::new(alloc);
    for k in 0..share_count(runs.len(), TEXT_RUNS) {
        slots.push(text_slot(alloc, class, runs, k)?)?;
    }
    Ok(slots)
}

// The text of one share of the runs.
fn text_slot(
    alloc: Global,
    class: &mut ClassBuilder,
    runs: &[PageRun],
    k: usize,
) -> Result<u16, NoMemory>
    requires runs { All IsRun runs.now }
    requires within { k < equal.share_count text_runs (length runs.now) }
    requires room { length class.old.pool + 1 ≤ 65534 }
    ensures there { IfOk result (λ slot. IsTextAt class.new.pool slot (share_text runs.now k)) }
    ensures grown { OnOk result (AddsMethods class.old class.new []) }
    ensures few { OnOk result (length class.new.pool ≤ length class.old.pool + 1) }
{
    let text = run_text(alloc, shared(runs, share_at(runs.len(), TEXT_RUNS, k)))?;
    building::text(class, text)
}
