//! Loading the files that words name.
ghost use Rattle.std.specs.Prelude.{◌≡◌, ◌++◌, ◌∷◌, [], IfOk, OnOk, length};
ghost use Rattle.command_deeds.specs.Ends.{Gives};
ghost use Rattle.command_deeds.specs.World.{shelf_seen};
ghost use Rattle.command_link.specs.Loading.{AreLoaded, files_in};

use command_deeds::{Ending, load};
use command_words::Named;
use nv_outside::Shelf;
use std::alloc::{AllocError, Global};

/// The bytes of the files of these names, loaded one after the other.
pub(crate) fn load_files<H: Shelf>(
    alloc: Global,
    names: &[Named],
    shelf: &mut H,
) -> Result<Vec<Vec<u8>>, Ending>
    ensures gives { Gives (λ files check. AreLoaded (shelf_seen H.Shelf shelf.old).told names.now
        (files_in check)) (shelf_seen H.Shelf shelf.old) (shelf_seen H.Shelf shelf.new) result }
    ensures all { IfOk result (λ files. length files.items ≡ length names.now) }
{
    let mut files = Vec::new(alloc);
    for name in names {
        let file = load(alloc, name.word, name.text.as_str(), shelf)?;
        push(&mut files, file)?;
    }
    Ok(files)
}

fn push(files: &mut Vec<Vec<u8>>, file: Vec<u8>) -> Result<(), AllocError>
    ensures { OnOk result (files.new.items ≡ files.old.items ++ file ∷ []) }
{
    files.push(file)?;
    Ok(())
}
