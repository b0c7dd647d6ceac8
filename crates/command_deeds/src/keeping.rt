ghost use Rattle.std.specs.Prelude.{◌≡◌, Option, ℕ, map, option_map, string_bytes};
ghost use Rattle.unix_definition.specs.Files.{GuestFiles, bytes_at, node_named};
ghost use Rattle.command_deeds.specs.Ends.{ShelfDoes};
ghost use Rattle.command_deeds.specs.World.{shelf_seen};
ghost use Rattle.command_deeds.specs.Runs.{keeping, kept};

use crate::files::store;
use crate::stop::Stop;
use nv_outside::Shelf;
use std::alloc::Global;
use unix_calls::Unix;

/// Stores the files of these names that a guest has.
pub fn keep_files<H: Shelf>(
    alloc: Global,
    unix: &Unix,
    names: &[String],
    shelf: &mut H,
) -> Result<(), Stop>
    ensures keeps { ShelfDoes (kept unix.now.files (map string_bytes names.now))
        (shelf_seen H.Shelf shelf.old) (shelf_seen H.Shelf shelf.new) result }
{
    for name in names {
        keep_file(alloc, unix, name.as_str(), shelf)?;
    }
    Ok(())
}

/// Stores the file of this name, if a guest has one.
fn keep_file<H: Shelf>(alloc: Global, unix: &Unix, name: &str, shelf: &mut H) -> Result<(), Stop>
    ensures keeps { ShelfDoes (keeping unix.now.files name.now (node_named unix.now.files name.now))
        (shelf_seen H.Shelf shelf.old) (shelf_seen H.Shelf shelf.new) result }
{
    let found = unix.file(alloc, name.as_bytes())?;
    store_found(name, &found, shelf)
}

/// Stores what a guest has under a name.
fn store_found<H: Shelf>(name: &str, found: &Option<Vec<u8>>, shelf: &mut H) -> Result<(), Stop>
    ensures keeps { (files : GuestFiles) (node : Option ℕ)
        → option_map (λ v. v.items) found.now ≡ option_map (bytes_at files) node
        → ShelfDoes (keeping files name.now node) (shelf_seen H.Shelf shelf.old)
        (shelf_seen H.Shelf shelf.new) result }
{
    match found {
        Some(bytes) => store(shelf, name, bytes.as_slice()),
        None => Ok(()),
    }
}
