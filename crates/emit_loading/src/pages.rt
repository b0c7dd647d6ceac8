//! The method that makes pages.
ghost use Rattle.std.specs.Prelude.{◌≡◌, ◌++◌, OnOk};
ghost use Rattle.emit_loading.specs.Pages as emitted;

use crate::NoMemory;
use crate::parts::{
    append_ended, append_next_character, load, readable_table, returns, shift_left, store,
    writable_table,
};
use emit_instructions::{append_steps, arithmetic, push_word};
use emit_steps::Step;
use jvm_definition::{ArrayKind, ArrayName, BranchName, Instruction, IntArithmetic};

/// The offset of the loop over the runs.
const RUNS_OFFSET: u32 = 2;
/// The offset of the loop over a run's pages.
const PAGES_OFFSET: u32 = 48;
/// The steps of the body of the loop over the runs.
const RUNS_BODY: u32 = 43;

/// Appends the code of the method that makes pages of zeros, whose argument is a text. The text has three characters for each run of
/// pages: the run's first page divided by 4,096, with 128 added where its pages can be written; the first page modulo 4,096; and the number
/// of its pages less 1. The pages are below 524,288, and the tables of pages are there. The code is to be that of a whole method, from
/// offset 0 on.
///
/// # Errors
/// Out of memory for the code.
pub fn append_pages(code: &mut Vec<Step>) -> Result<(), NoMemory>
    ensures { OnOk result (code.new.items ≡ code.old.items ++ emitted.pages_code) }
{
    append_begun(code)?;
    append_ended(0, 1, RUNS_BODY, code)?;
    append_runs_body(code)?;
    code.push(returns())?;
    Ok(())
}

fn append_begun(code: &mut Vec<Step>) -> Result<(), NoMemory>
    ensures { OnOk result (code.new.items ≡ code.old.items ++ emitted.begun_code) }
{
    append_steps([push_word(0), store(1)], code)
}

fn append_runs_body(code: &mut Vec<Step>) -> Result<(), NoMemory>
    ensures { OnOk result (code.new.items ≡ code.old.items ++ emitted.runs_body) }
{
    append_run(code)?;
    append_run_pages(code)
}

// The three characters of a run are read.
fn append_run(code: &mut Vec<Step>) -> Result<(), NoMemory>
    ensures { OnOk result (code.new.items ≡ code.old.items ++ emitted.run_code) }
{
    append_next_character(0, 1, code)?;
    code.push(store(2))?;
    append_first_page(code)?;
    append_last_page(code)
}

fn append_first_page(code: &mut Vec<Step>) -> Result<(), NoMemory>
    ensures { OnOk result (code.new.items ≡ code.old.items ++ emitted.first_page_code) }
{
    append_steps(
        [
            load(2),
            push_word(127),
            arithmetic(IntArithmetic::Iand),
            push_word(12),
            shift_left(),
        ],
        code,
    )?;
    append_next_character(0, 1, code)?;
    append_steps([arithmetic(IntArithmetic::Iadd), store(3)], code)
}

fn append_last_page(code: &mut Vec<Step>) -> Result<(), NoMemory>
    ensures { OnOk result (code.new.items ≡ code.old.items ++ emitted.last_page_code) }
{
    code.push(load(3))?;
    append_next_character(0, 1, code)?;
    append_steps([arithmetic(IntArithmetic::Iadd), store(4)], code)
}

// A run's pages, and the way to the next run.
fn append_run_pages(code: &mut Vec<Step>) -> Result<(), NoMemory>
    ensures { OnOk result (code.new.items ≡ code.old.items ++ emitted.run_pages) }
{
    append_made(code)?;
    append_writable(code)?;
    append_next(PAGES_OFFSET, code)?;
    code.push(Step::Leaves(RUNS_OFFSET))?;
    Ok(())
}

// A page of zeros can be read.
fn append_made(code: &mut Vec<Step>) -> Result<(), NoMemory>
    ensures { OnOk result (code.new.items ≡ code.old.items ++ emitted.made_code) }
{
    append_steps(
        [
            readable_table(),
            load(3),
            push_word(1024),
            Step::Does(Instruction::NewArray(ArrayKind::Ints)),
            Step::Does(Instruction::Array(ArrayName::Aastore)),
        ],
        code,
    )
}

// The page can be written too where the run says so.
fn append_writable(code: &mut Vec<Step>) -> Result<(), NoMemory>
    ensures { OnOk result (code.new.items ≡ code.old.items ++ emitted.writable_code) }
{
    append_steps(
        [
            load(2),
            push_word(128),
            Step::Skips(BranchName::IfIcmplt, 6),
        ],
        code,
    )?;
    append_shared(code)
}

fn append_shared(code: &mut Vec<Step>) -> Result<(), NoMemory>
    ensures { OnOk result (code.new.items ≡ code.old.items ++ emitted.shared_code) }
{
    append_steps(
        [
            writable_table(),
            load(3),
            readable_table(),
            load(3),
            Step::Does(Instruction::Array(ArrayName::Aaload)),
            Step::Does(Instruction::Array(ArrayName::Aastore)),
        ],
        code,
    )
}

// The run's next page, unless the last one was made.
fn append_next(target: u32, code: &mut Vec<Step>) -> Result<(), NoMemory>
    ensures { OnOk result (code.new.items ≡ code.old.items ++ emitted.next_code target) }
{
    append_steps(
        [
            Step::Does(Instruction::Increment(3, 1)),
            load(3),
            load(4),
            Step::Skips(BranchName::IfIcmpgt, 1),
            Step::Leaves(target),
        ],
        code,
    )
}
