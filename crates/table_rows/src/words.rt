//! The words of commands.
use anyhow::Result;
use command_words::read_words;
use std::alloc::{AllocError, Global};
use std::fmt::Write;

/// The command that words mean, or what is wrong with them. They have `|` between two; `\0` is the byte 0, and `\e` no letter. No text
/// is no words.
pub fn words_row(alloc: Global, text: &mut String, words: &str) -> Result<()> {
    let words = words.replace(alloc, "\\0", "\0")?;
    let words = split(alloc, words.as_str())?;
    push_meaning(alloc, text, words.as_slice())?;
    Ok(())
}

fn split(alloc: Global, text: &str) -> Result<Vec<String>, AllocError> {
    let mut words = Vec::new(alloc);
    if !text.is_empty() {
        for word in text.split('|') {
            words.push(word.replace(alloc, "\\e", "")?)?;
        }
    }
    Ok(words)
}

fn push_meaning(alloc: Global, text: &mut String, words: &[String]) -> Result<(), AllocError> {
    match read_words(alloc, words) {
        Ok(command) => write!(text, "{command:?}"),
        Err(error) => write!(text, "{error:?}"),
    }
}
