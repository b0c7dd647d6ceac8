//! Files beside a call.
use crate::folder::file_of;
use crate::outside::number;
use crate::{Files, class_file_of};
use anyhow::{Result, bail};
use nv_outside::{MemShelf, Shelf};
use std::alloc::{AllocError, Global};

/// The shelf of words, as `Outside::new` reads them.
///
/// # Errors
/// Where a word is none.
pub fn shelf_of<H: Shelf>(
    alloc: Global,
    files: &Files,
    folder: &mut H,
    words: &str,
) -> Result<MemShelf> {
    let mut shelf = empty(alloc, number(words, "shelf:", 0))?;
    for word in words.split_whitespace() {
        add_word(alloc, &mut shelf, files, folder, word)?;
    }
    let last = number(words, "chain:", 0);
    if 0 < last {
        add_chain(alloc, &mut shelf, last)?;
    }
    Ok(shelf)
}

/// A shelf without files, one of whose calls fails.
fn empty(alloc: Global, fails: u64) -> Result<MemShelf, AllocError> {
    Ok(MemShelf::new(alloc, [fails].to_vec(alloc)?))
}

fn add_word<H: Shelf>(
    alloc: Global,
    shelf: &mut MemShelf,
    files: &Files,
    folder: &mut H,
    word: &str,
) -> Result<()> {
    match word.split_once('=') {
        Some((name, file)) if !name.contains(':') => {
            add_file(alloc, shelf, files, folder, name, file)
        }
        _ if word.contains(':') => Ok(()),
        _ => bail!("{word} says nothing of a call"),
    }
}

fn add_file<H: Shelf>(
    alloc: Global,
    shelf: &mut MemShelf,
    files: &Files,
    folder: &mut H,
    name: &str,
    file: &str,
) -> Result<()> {
    if shelf.get(name).is_none() {
        shelf.add(name, file_of(alloc, files, folder, file)?.as_slice())?;
    }
    Ok(())
}

/// The classes `1001` to the last one, and `Main`. Each calls the one before it, and `Main` the last.
fn add_chain(alloc: Global, shelf: &mut MemShelf, last: u64) -> Result<()> {
    let mut named = String::from_str(alloc, "Main")?;
    for number in 1001..=last {
        let own = format!(in alloc; "{number}")?;
        add_calling(alloc, shelf, own.as_str(), named.as_str())?;
        named = own;
    }
    add_calling(alloc, shelf, "Main", named.as_str())
}

fn add_calling(alloc: Global, shelf: &mut MemShelf, own: &str, named: &str) -> Result<()> {
    let lines = format!(in alloc; "{own}\ntext {named}\nclass 8\npair 5 6\nmethod 9 10\n")?;
    let bytes = class_file_of(alloc, lines.as_str(), "B8000BB1")?;
    let file = format!(in alloc; "{own}.class")?;
    shelf.add(file.as_str(), bytes.as_slice())?;
    Ok(())
}
