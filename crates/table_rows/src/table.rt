//! Tables with their answers.
use crate::files::{Files, is_kind};
use crate::row::{rest, word};
use anyhow::{Result, bail};
use std::alloc::Global;
use std::fmt::Write;
use std::io;

/// What gives the answers to the rows of a table.
pub trait Answers {
    /// The answer to a row, beside the files that are above it.
    ///
    /// # Errors
    /// Their text is the answer, as that of what refuses a file.
    fn answer(&mut self, alloc: Global, files: &Files, row: &str) -> Result<String>;
}

/// Reads a table from input, and prints each line of it, with the answer after each row. A row is a line that is not empty and begins
/// neither with `#` nor with a kind of files. A row `FIRST..LAST ROW` or `FIRST..LAST/STEP ROW` stands for a row for each number, in place
/// of `@`.
///
/// # Errors
/// Where input or output fails, or a file of the table is none.
pub fn print_answers<R: Input + Print + AllocGlobal, T: Answers>(
    rt: &R,
    answers: &mut T,
) -> Result<()> {
    let mut files = Files::new(rt.alloc());
    let table = table_of(rt)?;
    for line in table.as_str().split('\n') {
        let shown = shown(rt.alloc(), &mut files, answers, line)?;
        rt.println(shown)?;
    }
    Ok(())
}

/// The lines of input, with a blank and a tab before each line of a file, in place of the end of line and two blanks.
fn table_of<R: Input + AllocGlobal>(rt: &R) -> Result<String> {
    let table = io::read_to_string(rt.alloc(), rt.reader())?;
    let lines = table.as_str().trim_end();
    Ok(lines.replace(rt.alloc(), "\n  ", " \t")?)
}

/// What is printed for a line.
fn shown<T: Answers>(
    alloc: Global,
    files: &mut Files,
    answers: &mut T,
    line: &str,
) -> Result<String> {
    if is_kind(word(line, 0)) {
        add_file(alloc, files, line)?;
    } else if !line.is_empty() && !line.starts_with('#') {
        return answered(alloc, files, answers, line);
    }
    let (head, _lines) = line.split_once(" \t").unwrap_or((line, ""));
    Ok(String::from_str(alloc, head)?)
}

/// Adds the file that a line begins. Its lines may begin after its name, or below it.
fn add_file(alloc: Global, files: &mut Files, line: &str) -> Result<()> {
    let lines = rest(line, 2);
    let lines = lines.strip_prefix('\t').unwrap_or(lines);
    let lines = lines.replace(alloc, " \t", "\n")?;
    let text = copied(alloc, lines.as_str())?;
    files.add(alloc, word(line, 0), word(line, 1), text.as_str())
}

/// Lines, with those between `copies COUNT` and `end` so often, with the number of the copy, from 0, in place of each `@`.
fn copied(alloc: Global, lines: &str) -> Result<String> {
    match lines.split_once("\ncopies ") {
        Some((before, rest)) => {
            let (count, rest) = rest.split_once('\n').unwrap_or((rest, ""));
            let (block, after) = rest.split_once("\nend\n").unwrap_or((rest, ""));
            let copies = copies_of(alloc, number(count), block)?;
            Ok(format!(in alloc; "{before}\n{copies}{after}\n")?)
        }
        None => Ok(format!(in alloc; "{lines}\n")?),
    }
}

fn copies_of(alloc: Global, count: u32, block: &str) -> Result<String> {
    let mut copies = String::new(alloc);
    for number in 0..count {
        let copy = at_number(alloc, block, number)?;
        copies.push_str(copy.as_str())?;
        copies.push('\n')?;
    }
    Ok(copies)
}

/// A text, with a number in place of each `@`.
fn at_number(alloc: Global, text: &str, number: u32) -> Result<String> {
    let number = format!(in alloc; "{number}")?;
    Ok(text.replace(alloc, '@', number.as_str())?)
}

/// A row with its answer.
fn answered<T: Answers>(
    alloc: Global,
    files: &Files,
    answers: &mut T,
    row: &str,
) -> Result<String> {
    let range = word(row, 0);
    let answer = if range.contains("..") {
        answers_to(alloc, files, answers, range, rest(row, 1))?
    } else {
        answer_to(alloc, files, answers, row)?
    };
    let answer = answer.as_str().trim_end();
    Ok(format!(in alloc; "{row} => {answer}")?)
}

/// The answer to a row, which may be an error.
fn answer_to<T: Answers>(
    alloc: Global,
    files: &Files,
    answers: &mut T,
    row: &str,
) -> Result<String> {
    match answers.answer(alloc, files, row) {
        Ok(answer) => Ok(answer),
        Err(error) => Ok(format!(in alloc; "{error}")?),
    }
}

/// The answers to a row for each number of a range, with equal ones that follow each other as one.
fn answers_to<T: Answers>(
    alloc: Global,
    files: &Files,
    answers: &mut T,
    range: &str,
    row: &str,
) -> Result<String> {
    let (first, count, step) = numbers_of(range)?;
    let mut shown = String::new(alloc);
    let mut last = String::new(alloc);
    for place in 0..count {
        let number = first.saturating_add(place.saturating_mul(step));
        let one = at_number(alloc, row, number)?;
        let answer = answer_to(alloc, files, answers, one.as_str())?;
        if place == 0 || answer != last {
            push_answer(&mut shown, number, answer.as_str())?;
            last = answer;
        }
    }
    Ok(shown)
}

fn push_answer(shown: &mut String, number: u32, answer: &str) -> Result<()> {
    let between = if shown.is_empty() { "" } else { "; " };
    write!(shown, "{between}{number}: {answer}")?;
    Ok(())
}

/// The first number of a range `FIRST..LAST` or `FIRST..LAST/STEP`, how many there are, and the step.
fn numbers_of(range: &str) -> Result<(u32, u32, u32)> {
    let (first, rest) = range.split_once("..").unwrap_or((range, ""));
    let (last, step) = rest.split_once('/').unwrap_or((rest, "1"));
    let (first, last, step) = (number(first), number(last), number(step));
    if last < first || step == 0 {
        bail!("an empty range");
    }
    Ok((first, ((last - first) / step).saturating_add(1), step))
}

fn number(digits: &str) -> u32 {
    digits.parse().unwrap_or(0)
}
