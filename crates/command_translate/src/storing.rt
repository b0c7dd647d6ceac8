//! Storing the files of a translation.
ghost use Rattle.std.specs.Prelude.{◌∷◌, []};
ghost use Rattle.command_deeds.specs.Ends.{ShelfDoes};
ghost use Rattle.command_deeds.specs.World.{shelf_seen};
ghost use Rattle.command_translate.specs.Stores.{file_stored, files_stored};

use command_deeds::{Stop, store};
use nv_outside::Shelf;
use nv_translate::NamedFile;

/// Stores files, one after the other.
pub fn store_files<H: Shelf>(files: &[NamedFile], shelf: &mut H) -> Result<(), Stop>
    ensures stores { ShelfDoes (files_stored files.now) (shelf_seen H.Shelf shelf.old)
        (shelf_seen H.Shelf shelf.new) result }
{
    for file in files {
        store_file(file, shelf)?;
    }
    Ok(())
}

/// Stores a file.
fn store_file<H: Shelf>(file: &NamedFile, shelf: &mut H) -> Result<(), Stop>
    ensures stores { ShelfDoes (file_stored file.now ∷ []) (shelf_seen H.Shelf shelf.old)
        (shelf_seen H.Shelf shelf.new) result }
{
    store(shelf, file.name.as_str(), file.bytes.as_slice())
}
