ghost use Rattle.std.specs.Prelude.{◌≡◌, ◌∷◌, []};
ghost use Rattle.command_deeds.specs.Checks.{bytes_of, file_at};
ghost use Rattle.command_deeds.specs.Deeds.{stores};
ghost use Rattle.command_deeds.specs.Ends.{Gives, ShelfDoes};
ghost use Rattle.command_deeds.specs.World.{shelf_seen};

use crate::ending::Ending;
use crate::stop::Stop;
use nv_outside::Shelf;
use std::alloc::Global;

/// The bytes of a file. `word` is the word that gives its name.
pub fn load<H: Shelf>(
    alloc: Global,
    word: u32,
    name: &str,
    shelf: &mut H,
) -> Result<Vec<u8>, Ending>
    ensures gives { Gives (λ files check. bytes_of check ≡ file_at files word name.now)
        (shelf_seen H.Shelf shelf.old) (shelf_seen H.Shelf shelf.new) result }
{
    match shelf.load(alloc, name)? {
        Some(file) => Ok(file),
        None => Err(Ending::NoFile {
            word,
            name: String::from_str(alloc, name)?,
        }),
    }
}

/// Sets a file to these bytes.
pub fn store<H: Shelf>(shelf: &mut H, name: &str, bytes: &[u8]) -> Result<(), Stop>
    ensures stores { ShelfDoes (stores name.now bytes.now ∷ []) (shelf_seen H.Shelf shelf.old)
        (shelf_seen H.Shelf shelf.new) result }
{
    shelf.store(name, bytes)?;
    Ok(())
}
