//! The method with which the program begins.
ghost use Rattle.std.specs.Prelude.{◌≡◌, ◌++◌, ◌<◌, OnOk, map};
ghost use Rattle.std.specs.List.{flat_map};
ghost use Rattle.emit_loading.specs.Starting as emitted;
ghost use Rattle.emit_loading.specs.Parts.{call};

use crate::NoMemory;
use crate::beginning::Beginning;
use crate::filling::push_text;
use crate::parts::{call, readable_table, returns, writable_table};
use emit_instructions::fields::{PC, READABLE, WRITABLE, register_field};
use emit_instructions::{append_steps, push_word, put_field};
use emit_steps::Step;
use jvm_definition::{ArrayKind, Instruction, Kind};
use meter::{LEFT, append_counted};
use mips_decode::order_number;
use nv_events::Call;

/// The pages of a table.
const PAGES: u32 = 524_288;
/// The first address of the argument page.
const ARGUMENT_PAGE: u32 = 0x7fff_f000;
/// Where the stack begins.
const STACK_START: u32 = 0x7fff_eff0;

/// Appends the code of the method of no arguments with which the program begins. It makes the tables of pages, gives each text of
/// `page_texts` to the method `pages`, which `append_pages` makes, and calls the methods `fills`, which put the words into the pages. Then
/// it makes the loader's call, sets the registers and field pc, and calls the method `choose`. In a program with a meter the turns of `meter` are
/// put on it before the call, which takes one off; if there is none the run ends in the fault of a spent meter.
///
/// `page_texts` are slots in the pool of the class that has the number `class`. Methods go by their numbers in the program.
///
/// # Errors
/// Out of memory for the code.
pub fn append_run(
    beginning: &Beginning,
    meter: Option<u32>,
    page_texts: &[u16],
    class: u16,
    pages: u32,
    fills: &[u32],
    choose: u32,
    code: &mut Vec<Step>,
) -> Result<(), NoMemory>
    ensures { OnOk result (code.new.items ≡ code.old.items
        ++ emitted.run_code meter beginning.now page_texts.now class pages fills.now choose) }
{
    append_memory(page_texts, class, pages, fills, code)?;
    append_meter(meter, beginning.entry, code)?;
    append_begun(beginning, choose, code)
}

// The tables, the pages and their words.
fn append_memory(
    page_texts: &[u16],
    class: u16,
    pages: u32,
    fills: &[u32],
    code: &mut Vec<Step>,
) -> Result<(), NoMemory>
    ensures { OnOk result (code.new.items ≡ code.old.items
        ++ emitted.memory_code page_texts.now class pages fills.now) }
{
    append_table(READABLE, code)?;
    append_table(WRITABLE, code)?;
    append_page_texts(page_texts, class, pages, code)?;
    append_fills(fills, code)
}

// A table of pages of which none is there.
fn append_table(field: u32, code: &mut Vec<Step>) -> Result<(), NoMemory>
    ensures { OnOk result (code.new.items ≡ code.old.items ++ emitted.table_code field) }
{
    append_steps(
        [
            push_word(PAGES),
            Step::Does(Instruction::NewArray(ArrayKind::Pages)),
            Step::Does(Instruction::Put(field, Kind::Pages)),
        ],
        code,
    )
}

fn append_page_texts(
    page_texts: &[u16],
    class: u16,
    pages: u32,
    code: &mut Vec<Step>,
) -> Result<(), NoMemory>
    ensures { OnOk result (code.new.items ≡ code.old.items
        ++ emitted.page_texts_code class pages page_texts.now) }
{
    for slot in page_texts {
        append_page_text(class, pages, *slot, code)?;
    }
    Ok(())
}

// A text is given to the method that makes pages.
fn append_page_text(class: u16, pages: u32, slot: u16, code: &mut Vec<Step>) -> Result<(), NoMemory>
    ensures { OnOk result (code.new.items ≡ code.old.items
        ++ emitted.page_text_code class pages slot) }
{
    append_steps([push_text(class, slot), call(pages)], code)
}

fn append_fills(fills: &[u32], code: &mut Vec<Step>) -> Result<(), NoMemory>
    ensures { OnOk result (code.new.items ≡ code.old.items ++ map call fills.now) }
{
    for method in fills {
        code.push(call(*method))?;
    }
    Ok(())
}

// So many turns are put on the meter, and the first one is taken off.
fn append_meter(meter: Option<u32>, entry: u32, code: &mut Vec<Step>) -> Result<(), NoMemory>
    ensures { OnOk result (code.new.items ≡ code.old.items ++ emitted.meter_code meter entry) }
{
    match meter {
        None => Ok(()),
        Some(turns) => {
            append_steps([push_word(turns), put_field(LEFT)], code)?;
            append_counted(1, entry, code)
        }
    }
}

// The loader's call, and what follows it.
fn append_begun(beginning: &Beginning, choose: u32, code: &mut Vec<Step>) -> Result<(), NoMemory>
    ensures { OnOk result (code.new.items ≡ code.old.items
        ++ emitted.begun_code beginning.now choose) }
{
    append_asked(&beginning_call(beginning), code)?;
    append_answered(code)?;
    append_entered(beginning.entry, choose, code)
}

fn beginning_call(beginning: &Beginning) -> Call
    ensures { result ≡ emitted.beginning_call beginning.now }
{
    Call {
        number: 0,
        a0: ARGUMENT_PAGE,
        a1: beginning.heap_start,
        a2: beginning.heap_bytes,
        a3: order_number(beginning.order),
    }
}

// A call of the system, with the tables of pages.
fn append_asked(asked: &Call, code: &mut Vec<Step>) -> Result<(), NoMemory>
    ensures { OnOk result (code.new.items ≡ code.old.items ++ emitted.asked_code asked.now) }
{
    append_steps(
        [
            readable_table(),
            writable_table(),
            push_word(asked.number),
            push_word(asked.a0),
            push_word(asked.a1),
            push_word(asked.a2),
            push_word(asked.a3),
            Step::Does(Instruction::CallHost),
        ],
        code,
    )
}

// The number of arguments becomes r4, r5 is where they stand, and r29 is where the stack begins.
fn append_answered(code: &mut Vec<Step>) -> Result<(), NoMemory>
    ensures { OnOk result (code.new.items ≡ code.old.items ++ emitted.answered_code) }
{
    append_steps(
        [
            put_field(register_field(4)),
            push_word(ARGUMENT_PAGE),
            put_field(register_field(5)),
            push_word(STACK_START),
            put_field(register_field(29)),
        ],
        code,
    )
}

// The guest stands at the entry.
fn append_entered(entry: u32, choose: u32, code: &mut Vec<Step>) -> Result<(), NoMemory>
    ensures { OnOk result (code.new.items ≡ code.old.items ++ emitted.entered_code entry choose) }
{
    append_steps(
        [push_word(entry), put_field(PC), call(choose), returns()],
        code,
    )
}
