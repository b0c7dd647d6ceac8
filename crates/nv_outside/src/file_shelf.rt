ghost use Rattle.std.specs.Prelude.{◌≡◌, None};
ghost use Rattle.nv_outside.specs.Faults.{CountsFailure, shelf_failed};

use crate::shelf::Shelf;
use crate::shelf_error::ShelfError;
use std::alloc::Global;
use std::fs;
use std::io::{ErrorKind, Read, Write};
use std::path::PathBuf;
use std::rt::Files;

/// The most bytes of a file that are loaded: one more than the largest disk of a guest holds.
const LONGEST_FILE: usize = 268_435_457;

const PIECE: usize = 65_536;

/// The files of a folder. It tells nothing of their content.
///
/// A name is taken from the folder on, and an absolute name stands for itself. Only a file that is not found is no
/// file: a folder, a name that is too long, a path through a file, or a file of more than 268,435,457 bytes is a
/// failure. What was stored of a file before a failure stays.
#[derive(Drop)]
pub struct FileShelf<R> {
    system: R,
    alloc: Global,
    folder: PathBuf,
    faults: u64,
}

impl<R: Files> FileShelf<R> {
    pub fn new(alloc: Global, system: R, folder: PathBuf) -> FileShelf<R>
        ensures { ⟦<FileShelf<R> as Shelf>⟧.faults result ≡ 0 }
    {
        FileShelf {
            system,
            alloc,
            folder,
            faults: 0,
        }
    }

    /// What a call answers, once its failure is counted.
    fn counted<T>(&mut self, answer: Result<T, ShelfError>) -> Result<T, ShelfError>
        ensures answer { result ≡ answer }
        ensures count { CountsFailure (shelf_failed result) self.old.faults self.new.faults }
    {
        if let Err(ShelfError::Failed) = answer {
            self.faults = self.faults.saturating_add(1);
        }
        answer
    }
}

impl<R: Files> Shelf for FileShelf<R> {
    ghost files = { λ _. None };

    ghost faults = { λ s. s.faults };

    fn load(&mut self, alloc: Global, name: &str) -> Result<Option<Vec<u8>>, ShelfError> {
        let loaded = load_file(&self.system, alloc, &self.folder, name);
        self.counted(loaded)
    }

    fn store(&mut self, name: &str, bytes: &[u8]) -> Result<(), ShelfError> {
        let stored = store_file(&self.system, self.alloc, &self.folder, name, bytes);
        self.counted(stored)
    }
}

fn load_file<R: Files>(
    system: &R,
    alloc: Global,
    folder: &PathBuf,
    name: &str,
) -> Result<Option<Vec<u8>>, ShelfError> {
    let path = folder.join(alloc, name)?;
    match fs::open(system, path.as_path()) {
        Ok(mut file) => Ok(Some(read_whole(alloc, &mut file)?)),
        Err(error) if error.kind() == ErrorKind::NotFound => Ok(None),
        Err(_) => Err(ShelfError::Failed),
    }
}

/// All bytes of a reader, if it has at most `LONGEST_FILE`. Of a longer one it reads one byte more and no further.
fn read_whole(alloc: Global, reader: &mut impl Read) -> Result<Vec<u8>, ShelfError> {
    let mut bytes = Vec::new(alloc);
    let mut piece = [0u8; PIECE];
    for _ in 0..u64::MAX {
        let asked = PIECE.min((LONGEST_FILE + 1).saturating_sub(bytes.len()));
        match reader.read(&mut piece[..asked]) {
            Ok(0) => return Ok(bytes),
            Ok(n) => bytes.extend_from_slice(&piece[..n])?,
            Err(_) => return Err(ShelfError::Failed),
        }
        if bytes.len() > LONGEST_FILE {
            return Err(ShelfError::Failed);
        }
    }
    Err(ShelfError::Failed)
}

fn store_file<R: Files>(
    system: &R,
    alloc: Global,
    folder: &PathBuf,
    name: &str,
    bytes: &[u8],
) -> Result<(), ShelfError> {
    let path = folder.join(alloc, name)?;
    match fs::write(system, path.as_path(), bytes) {
        Ok(()) => Ok(()),
        Err(_) => Err(ShelfError::Failed),
    }
}
