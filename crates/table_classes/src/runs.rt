//! Runs of the class machine over written answers.
use crate::reading::class_of;
use crate::sets::linked;
use anyhow::{Context, Result, bail, ensure};
use jvm_link::Linked;
use jvm_machine::Jvm;
use nv_events::{Outcome, Scripted};
use nv_values::RegionWords;
use std::alloc::Global;
use std::fmt::Write;
use std::str;
use table_rows::{Files, class_file_of, count, outcome_text, replies_of, rest, word};
use type_verifier::{Verified, VerifyError, verify};

/// Runs of `run()V` with this code, in a class of the lines of a text: `run BOUNDS WORDS ANSWERS TEXT CODE`.
///
/// Bounds have `+` between them where the machine runs on, and commas where it is set back. So have answers commas, one of each run from
/// the start: `none`, or a number, with bytes as in `3:1234`. The machine has so many words for arrays.
pub fn run_row(alloc: Global, text: &mut String, files: &Files, row: &str) -> Result<()> {
    let lines = files.get(alloc, word(row, 4))?;
    let file = class_file_of(alloc, str::from_utf8(lines.as_slice())?, rest(row, 5))?;
    let mut jvm = machine(alloc, file.as_slice(), count(row, 2))?;
    push_runs(alloc, text, &mut jvm, row)
}

fn machine(alloc: Global, file: &[u8], words: u32) -> Result<Jvm> {
    let words = RegionWords::new(words).context("no lawful number of words")?;
    let classes = vec![in alloc; class_of(alloc, file)?]?;
    let verified = verified(alloc, linked(alloc, classes)?)?;
    Ok(Jvm::load(alloc, verified, words)?)
}

fn verified(alloc: Global, linked: Linked) -> Result<Verified> {
    match verify(alloc, linked) {
        Ok(verified) => Ok(verified),
        Err(VerifyError::Refused(fault)) => bail!("{fault:?}"),
        Err(VerifyError::NoMemory) => bail!("there is not enough memory"),
    }
}

/// The runs from the start, one for each of the bounds and answers with commas between them.
fn push_runs(alloc: Global, text: &mut String, jvm: &mut Jvm, row: &str) -> Result<()> {
    for (runs, answer) in word(row, 1).split(',').zip(word(row, 3).split(',')) {
        push_from_start(alloc, text, jvm, runs, answer)?;
    }
    Ok(())
}

fn push_from_start(
    alloc: Global,
    text: &mut String,
    jvm: &mut Jvm,
    bounds: &str,
    answer: &str,
) -> Result<()> {
    jvm.reset();
    let mut server = Scripted::new(replies_of(alloc, answer)?);
    for bound in bounds.split('+') {
        push_run(alloc, text, jvm, &mut server, bound)?;
    }
    Ok(())
}

fn push_run(
    alloc: Global,
    text: &mut String,
    jvm: &mut Jvm,
    server: &mut Scripted,
    bound: &str,
) -> Result<()> {
    let outcome = run(jvm, server, bound.parse().unwrap_or(0))?;
    let shown = outcome_text(alloc, outcome)?;
    let ended = if jvm.ended() { "" } else { ", not ended" };
    write!(text, "{shown}{ended}; ")?;
    Ok(())
}

fn run(jvm: &mut Jvm, server: &mut Scripted, bound: u64) -> Result<Outcome> {
    ensure!(!jvm.ended(), "the program has ended");
    match nv_events::run(jvm, bound, server) {
        Ok(outcome) => Ok(outcome),
        Err(fault) => bail!("{fault:?}"),
    }
}
