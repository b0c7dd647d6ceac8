//! The method of a class that puts the words of the class's texts into pages.
ghost use Rattle.std.specs.Prelude.{◌≡◌, ◌++◌, OnOk};
ghost use Rattle.emit_loading.specs.Filling as emitted;

use crate::NoMemory;
use crate::page_slot::PageSlot;
use crate::parts::{call, readable_table, returns};
use emit_instructions::{append_steps, push_word};
use emit_steps::Step;
use jvm_definition::{ArrayName, Constant, Instruction};

/// Appends the code of a method of no arguments that puts the words of texts into the pages of the table of what can be read, where these
/// are there. `class` is the number of the class that has the texts in its pool, and `words` the number of the method that `append_words`
/// makes.
///
/// # Errors
/// Out of memory for the code.
pub fn append_fill(
    slots: &[PageSlot],
    class: u16,
    words: u32,
    code: &mut Vec<Step>,
) -> Result<(), NoMemory>
    ensures { OnOk result (code.new.items ≡ code.old.items
        ++ emitted.fill_code slots.now class words) }
{
    append_filled(slots, class, words, code)?;
    code.push(returns())?;
    Ok(())
}

fn append_filled(
    slots: &[PageSlot],
    class: u16,
    words: u32,
    code: &mut Vec<Step>,
) -> Result<(), NoMemory>
    ensures { OnOk result (code.new.items ≡ code.old.items
        ++ emitted.filled_code slots.now class words) }
{
    for slot in slots {
        append_page(slot, class, words, code)?;
    }
    Ok(())
}

// A page and its text are given to the method that puts words into pages.
fn append_page(
    filled: &PageSlot,
    class: u16,
    words: u32,
    code: &mut Vec<Step>,
) -> Result<(), NoMemory>
    ensures { OnOk result (code.new.items ≡ code.old.items
        ++ emitted.page_code class words filled.now) }
{
    append_steps(
        [
            readable_table(),
            push_word(filled.page),
            Step::Does(Instruction::Array(ArrayName::Aaload)),
            push_text(class, filled.slot),
            call(words),
        ],
        code,
    )
}

/// The text in a slot of a class's pool is pushed.
pub fn push_text(class: u16, slot: u16) -> Step
    ensures { result ≡ emitted.push_text class slot }
{
    Step::Does(Instruction::Push(Constant::Text(class, slot)))
}
