//! Answers that are to be alike.
use nested_cli::Done;
use std::alloc::AllocError;
use std::fmt::Write;

/// Whether all commands refuse a file with the same fault, or the first one, which runs nothing, is good and the others end in the same
/// way. If they are not alike, all answers.
pub fn push_alike(text: &mut String, dones: &[Done]) -> Result<(), AllocError> {
    let Some((first, others)) = dones.split_first() else {
        return Ok(());
    };
    if is_refusal(first) && are_all(others, first) {
        text.push_str("all refuse it: ")?;
        push_refusal(text, first)
    } else if *first == Done::Good && are_one_end(others) {
        text.push_str("all take it")
    } else {
        push_each(text, dones)
    }
}

fn are_all(dones: &[Done], one: &Done) -> bool {
    dones.iter().all(|done| *done == *one)
}

/// Whether a file is refused.
fn is_refusal(done: &Done) -> bool {
    matches!(
        done,
        Done::ElfRefused(_)
            | Done::ImageRefused(_)
            | Done::ClassRefused { .. }
            | Done::LinkRefused(_)
            | Done::VerifyRefused(_)
    )
}

/// What a file is refused with.
fn push_refusal(text: &mut String, done: &Done) -> Result<(), AllocError> {
    match done {
        Done::ElfRefused(fault) => push_kind(text, "elf", fault.kind),
        Done::ImageRefused(fault) => push_kind(text, "image", fault.kind),
        Done::ClassRefused { class, kind, .. } => push_class(text, *class, *kind),
        Done::LinkRefused(fault) => push_kind(text, "link", fault.kind),
        _ => text.push_str("verify"),
    }
}

fn push_kind(text: &mut String, name: &str, kind: u32) -> Result<(), AllocError> {
    write!(text, "{name} {kind}")
}

fn push_class(text: &mut String, class: u32, kind: u32) -> Result<(), AllocError> {
    write!(text, "class {class} {kind}")
}

/// Whether all are the same end of a run.
fn are_one_end(dones: &[Done]) -> bool {
    match dones.first() {
        Some(first) => is_end(first) && are_all(dones, first),
        None => false,
    }
}

fn is_end(done: &Done) -> bool {
    matches!(
        done,
        Done::Exited(_) | Done::Faulted(_) | Done::Spent | Done::Trapped(_)
    )
}

fn push_each(text: &mut String, dones: &[Done]) -> Result<(), AllocError> {
    for done in dones {
        push_done(text, done)?;
    }
    Ok(())
}

/// An answer, with a semicolon after it.
pub fn push_done(text: &mut String, done: &Done) -> Result<(), AllocError> {
    write!(text, "{done:?}; ")
}
