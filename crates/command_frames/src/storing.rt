//! Storing classes with their tables.
ghost use Rattle.std.specs.Prelude.{◌∷◌, [], map};
ghost use Rattle.command_deeds.specs.Ends.{ShelfDoes};
ghost use Rattle.command_deeds.specs.World.{shelf_seen};
ghost use Rattle.command_frames.specs.Frames.{deed_of};

use crate::stored_class::StoredClass;
use command_deeds::{Stop, store};
use nv_outside::Shelf;

/// Stores classes, one after the other.
pub fn store_classes<H: Shelf>(classes: &[StoredClass], shelf: &mut H) -> Result<(), Stop>
    ensures stores { ShelfDoes (map deed_of classes.now) (shelf_seen H.Shelf shelf.old)
        (shelf_seen H.Shelf shelf.new) result }
{
    for class in classes {
        store_class(class, shelf)?;
    }
    Ok(())
}

/// Stores a class.
fn store_class<H: Shelf>(class: &StoredClass, shelf: &mut H) -> Result<(), Stop>
    ensures stores { ShelfDoes (deed_of class.now ∷ []) (shelf_seen H.Shelf shelf.old)
        (shelf_seen H.Shelf shelf.new) result }
{
    store(shelf, class.name.as_str(), class.bytes.as_slice())
}
