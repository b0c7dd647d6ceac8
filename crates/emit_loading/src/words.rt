//! The method that puts words into a page.
ghost use Rattle.std.specs.Prelude.{◌≡◌, ◌++◌, OnOk};
ghost use Rattle.emit_loading.specs.Words as emitted;

use crate::NoMemory;
use crate::parts::{
    append_ended, append_next_character, load, load_reference, returns, shift_left, store,
};
use emit_instructions::{append_steps, arithmetic, push_word};
use emit_steps::Step;
use jvm_definition::{ArrayName, BranchName, Instruction, IntArithmetic};

/// The offset of the loop over the words.
const WORDS_OFFSET: u32 = 8;
/// The steps of the loop's body.
const WORDS_BODY: u32 = 37;
/// The steps of the loop with what is before it.
const WORDS_LOOP: u32 = 45;

/// Appends the code of the method that puts words into a page, whose arguments are an array of ints, or null, and a text. The text has
/// five characters of 7 bits for each word, most significant first, of the 35 bits that are three zeros and the word; the array has at
/// least as many ints as there are words. Where it is null nothing is written. The code is to be that of a whole method, from offset 0 on.
///
/// # Errors
/// Out of memory for the code.
pub fn append_words(code: &mut Vec<Step>) -> Result<(), NoMemory>
    ensures { OnOk result (code.new.items ≡ code.old.items ++ emitted.words_code) }
{
    append_absent(WORDS_LOOP, code)?;
    append_loop(code)?;
    code.push(returns())?;
    Ok(())
}

// There is no array: that many of the following steps are passed over.
fn append_absent(over: u32, code: &mut Vec<Step>) -> Result<(), NoMemory>
    ensures { OnOk result (code.new.items ≡ code.old.items ++ emitted.absent_code over) }
{
    append_steps(
        [load_reference(0), Step::Skips(BranchName::Ifnull, over)],
        code,
    )
}

fn append_loop(code: &mut Vec<Step>) -> Result<(), NoMemory>
    ensures { OnOk result (code.new.items ≡ code.old.items ++ emitted.words_loop) }
{
    append_begun(code)?;
    append_ended(1, 3, WORDS_BODY, code)?;
    append_words_body(code)
}

fn append_begun(code: &mut Vec<Step>) -> Result<(), NoMemory>
    ensures { OnOk result (code.new.items ≡ code.old.items ++ emitted.begun_code) }
{
    append_steps([push_word(0), store(2), push_word(0), store(3)], code)
}

fn append_words_body(code: &mut Vec<Step>) -> Result<(), NoMemory>
    ensures { OnOk result (code.new.items ≡ code.old.items ++ emitted.words_body) }
{
    append_steps([load_reference(0), load(2)], code)?;
    append_word(code)?;
    append_put(code)
}

// The word of the next five characters.
fn append_word(code: &mut Vec<Step>) -> Result<(), NoMemory>
    ensures { OnOk result (code.new.items ≡ code.old.items ++ emitted.word_code) }
{
    append_next_character(1, 3, code)?;
    append_joined(code)?;
    append_joined(code)?;
    append_joined(code)?;
    append_joined(code)
}

// The bits on the stack, with those of the next character behind them.
fn append_joined(code: &mut Vec<Step>) -> Result<(), NoMemory>
    ensures { OnOk result (code.new.items ≡ code.old.items ++ emitted.joined_code) }
{
    append_steps([push_word(7), shift_left()], code)?;
    append_next_character(1, 3, code)?;
    code.push(arithmetic(IntArithmetic::Iadd))?;
    Ok(())
}

fn append_put(code: &mut Vec<Step>) -> Result<(), NoMemory>
    ensures { OnOk result (code.new.items ≡ code.old.items ++ emitted.put_code) }
{
    append_steps(
        [
            Step::Does(Instruction::Array(ArrayName::Iastore)),
            Step::Does(Instruction::Increment(2, 1)),
            Step::Leaves(WORDS_OFFSET),
        ],
        code,
    )
}
