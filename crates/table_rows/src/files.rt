//! The files that a table has.
use crate::class_file::class_of;
use crate::edit::change;
use crate::hexadecimal::bytes_of;
use crate::segments::{file_of, parts_of, program_of};
use anyhow::{Context, Result, bail, ensure};
use mips_asm::assemble;
use std::alloc::Global;
use std::collections::BTreeMap;

/// Files by their names.
#[derive(Drop)]
pub struct Files {
    files: BTreeMap<String, Vec<u8>>,
}

impl Files {
    /// No files.
    pub fn new(alloc: Global) -> Files {
        Files {
            files: BTreeMap::new(alloc),
        }
    }

    /// Sets a file of a kind, which its lines make.
    ///
    /// # Errors
    /// Where they make none.
    pub fn add(&mut self, alloc: Global, kind: &str, name: &str, lines: &str) -> Result<()> {
        let bytes = made(alloc, kind, lines).context(format_args!("the file {name}"))?;
        self.files.insert(String::from_str(alloc, name)?, bytes)?;
        Ok(())
    }

    /// The bytes of the file that a word `NAME` or `NAME,EDIT,EDIT` names, as `exit7,<51` or `exit7,4=02,5=03`.
    ///
    /// # Errors
    /// Where there is no such file, or an edit is none.
    pub fn get(&self, alloc: Global, word: &str) -> Result<Vec<u8>> {
        match word.split_once(',') {
            Some((name, edits)) => edited(alloc, self.plain(alloc, name)?, edits),
            None => self.plain(alloc, word),
        }
    }

    fn plain(&self, alloc: Global, name: &str) -> Result<Vec<u8>> {
        match self.files.get(name) {
            Some(file) => Ok(file.as_slice().to_vec(alloc)?),
            None => bail!("there is no file {name}"),
        }
    }
}

fn edited(alloc: Global, mut bytes: Vec<u8>, edits: &str) -> Result<Vec<u8>> {
    for edit in edits.split(',') {
        change(alloc, &mut bytes, edit)?;
    }
    Ok(bytes)
}

/// Whether this is a kind of files.
pub fn is_kind(word: &str) -> bool {
    matches!(word, "hex" | "text" | "asm" | "words" | "parts" | "class")
}

/// The file that lines make: its bytes in hexadecimal digits (`hex`), its lines (`text`), a program by its text in assembly language
/// (`asm`), at 00400000 by its words (`words`) or by its segments and sections (`parts`), or a class by its slots, members and code.
fn made(alloc: Global, kind: &str, lines: &str) -> Result<Vec<u8>> {
    match kind {
        "hex" => bytes_of(alloc, lines),
        "text" => Ok(lines.as_bytes().to_vec(alloc)?),
        "asm" => assembled(alloc, lines.as_bytes()),
        "words" => program_of(alloc, bytes_of(alloc, lines)?),
        "parts" => file_of(alloc, &parts_of(alloc, lines)?),
        "class" => class_of(alloc, lines),
        _ => bail!("there is no such kind"),
    }
}

fn assembled(alloc: Global, text: &[u8]) -> Result<Vec<u8>> {
    ensure!(text.len() <= 67_108_864, "the text is too long");
    Ok(assemble(alloc, text)?)
}
