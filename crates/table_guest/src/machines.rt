//! Runs of the guest machine over written answers.
use anyhow::{Result, bail, ensure};
use elf_image::image;
use elf_reader::read_elf;
use mips_machine::Mips;
use nv_events::{Outcome, Scripted, View};
use std::alloc::{AllocError, Global};
use std::fmt::Write;
use table_rows::{Files, bytes_of, outcome_text, program_of, replies_of, rest, word};

/// Runs of a program: `run STEPS ANSWERS PROGRAM`, and after a `?` what is shown after each run.
///
/// `STEPS` are bounds with commas between runs of new machines over the same answers, and `+` between runs of one machine; a bound such as
/// `9s` is gone step by step. `ANSWERS` are `none`, or numbers with commas between them, each with bytes as in `1:41` where the call has
/// room; the first is for the loader's call. The program is `file NAME`, or its words at 00400000. It has a page of heap and one of stack.
pub fn run_row(alloc: Global, text: &mut String, files: &Files, row: &str) -> Result<()> {
    let (asked, shown) = row.split_once(" ? ").unwrap_or((row, ""));
    let file = program(alloc, files, rest(asked, 3))?;
    let mut server = Scripted::new(replies_of(alloc, word(asked, 2))?);
    for runs in word(asked, 1).split(',') {
        push_runs(alloc, text, file.as_slice(), &mut server, runs, shown)?;
    }
    Ok(())
}

fn program(alloc: Global, files: &Files, words: &str) -> Result<Vec<u8>> {
    if word(words, 0) == "file" {
        files.get(alloc, word(words, 1))
    } else {
        program_of(alloc, bytes_of(alloc, words)?)
    }
}

/// Runs of a new machine, and what is shown of it then.
fn push_runs(
    alloc: Global,
    text: &mut String,
    file: &[u8],
    server: &mut Scripted,
    runs: &str,
    shown: &str,
) -> Result<()> {
    let mut mips = loaded(alloc, file)?;
    for bound in runs.split('+') {
        push_run(alloc, text, &mut mips, server, bound)?;
    }
    for asked in shown.split_whitespace() {
        push_shown(text, &mut mips, asked)?;
    }
    Ok(())
}

fn loaded(alloc: Global, file: &[u8]) -> Result<Mips> {
    let elf = read_elf(alloc, file)?;
    let image = image(alloc, &elf, 1, 1)?;
    Ok(Mips::load(alloc, &image)?)
}

fn push_run(
    alloc: Global,
    text: &mut String,
    mips: &mut Mips,
    server: &mut Scripted,
    bound: &str,
) -> Result<()> {
    let outcome = match bound.strip_suffix('s') {
        Some(steps) => stepped(text, mips, server, number(steps))?,
        None => run(mips, server, number(bound))?,
    };
    let shown = outcome_text(alloc, outcome)?;
    let ended = if mips.ended() { "" } else { ", not ended" };
    write!(text, "{shown}{ended}; ")?;
    Ok(())
}

fn number(digits: &str) -> u64 {
    digits.parse().unwrap_or(0)
}

fn run(mips: &mut Mips, server: &mut Scripted, bound: u64) -> Result<Outcome> {
    ensure!(!mips.ended(), "the program has ended");
    match mips.run(bound, server) {
        Ok(outcome) => Ok(outcome),
        Err(fault) => bail!("{fault:?}"),
    }
}

/// Goes step by step, and tells how many steps went.
fn stepped(
    text: &mut String,
    mips: &mut Mips,
    server: &mut Scripted,
    steps: u64,
) -> Result<Outcome> {
    let mut went = 0u64;
    let mut end = Outcome::Going;
    for _ in 0..steps {
        match step(mips, server)? {
            Some(Outcome::Going) => went = went.saturating_add(1),
            Some(outcome) => end = outcome,
            None => break,
        }
    }
    write!(text, "went {went}, ")?;
    Ok(end)
}

/// What a step of a program that has not ended comes to.
fn step(mips: &mut Mips, server: &mut Scripted) -> Result<Option<Outcome>> {
    if mips.ended() {
        return Ok(None);
    }
    match mips.step(server) {
        Ok(step) => Ok(Some(step.outcome().unwrap_or(Outcome::Going))),
        Err(fault) => bail!("{fault:?}"),
    }
}

/// Shows registers, as `$8`, `hi`, `lo` or `pc`; a byte of memory, as `byte:00401000`; whether it may be written, as `may:00401000`; or
/// whether a byte is put there, as `put:00401000=FF`.
fn push_shown(text: &mut String, mips: &mut Mips, asked: &str) -> Result<()> {
    let (what, place) = asked.split_once(':').unwrap_or((asked, ""));
    let (place, byte) = place.split_once('=').unwrap_or((place, ""));
    let at = hexadecimal(place);
    match what {
        "byte" => push_byte(text, asked, mips.byte(at))?,
        "may" => push_flag(text, asked, mips.writable(at))?,
        "put" => push_flag(text, asked, mips.put(at, byte_of(byte)))?,
        _ => push_word(text, what, register(mips, what)?)?,
    }
    Ok(())
}

fn hexadecimal(digits: &str) -> u32 {
    u32::from_str_radix(digits, 16).unwrap_or(0)
}

fn byte_of(digits: &str) -> u8 {
    u8::from_str_radix(digits, 16).unwrap_or(0)
}

fn push_byte(text: &mut String, asked: &str, byte: Option<u8>) -> Result<(), AllocError> {
    match byte {
        Some(byte) => write!(text, "{asked} {byte:02X}; "),
        None => write!(text, "{asked} none; "),
    }
}

fn push_flag(text: &mut String, asked: &str, is: bool) -> Result<(), AllocError> {
    write!(text, "{asked} {is}; ")
}

fn push_word(text: &mut String, what: &str, word: u32) -> Result<(), AllocError> {
    write!(text, "{what} {word:08X}; ")
}

fn register(mips: &Mips, name: &str) -> Result<u32> {
    match name {
        "hi" => Ok(mips.hi()),
        "lo" => Ok(mips.lo()),
        "pc" => Ok(mips.pc()),
        _ => {
            let number = name.strip_prefix('$').unwrap_or("32").parse().unwrap_or(32);
            ensure!(number < 32, "there is no such register");
            Ok(mips.register(number))
        }
    }
}
