//! The fields of the main class.
ghost use Rattle.std.specs.Prelude.{◌≡◌, ◌+◌, ◌*◌, ◌<◌, ◌≤◌, true, [], ◌∷◌, length, OnOk, IfOk};
ghost use Rattle.emit_layout.specs.Fields.{field_descriptor, field_name};
ghost use Rattle.emit_classes.specs.Built.{GrowsPool};
ghost use Rattle.emit_classes.specs.Lawful.{has_class};
ghost use Rattle.emit_classes.specs.Mentioned.{MentionsOf, field_mention};
ghost use Rattle.emit_classes.specs.Named.{IsFieldAt};
ghost use Rattle.translate_classes.specs.Mentioned.{field_mentions};
ghost use Rattle.translate_classes.specs.Named.{AreFields};

use crate::{NoMemory, building};
use emit_classes::ClassBuilder;
use emit_layout::{field_descriptor, field_name};
use std::alloc::Global;

/// The slots of so many fields of the main class, by their numbers; `main` is the slot of that class.
pub fn field_references(
    alloc: Global,
    class: &mut ClassBuilder,
    main: u16,
    fields: u32,
) -> Result<Vec<u16>, NoMemory>
    requires room { length class.old.pool + 156 ≤ 65534 }
    requires owner { has_class class.old.pool main ≡ true }
    requires few { fields ≤ 39 }
    ensures there { IfOk result (λ slots. AreFields class.new.pool main slots.items fields) }
    ensures grown { OnOk result (GrowsPool class.old class.new 156) }
    ensures mentions { OnOk result (MentionsOf class.old.pool class.new.pool main
        (λ owner. field_mentions owner fields)) }
{
    let mut slots = Vec::new(alloc);
    for field in 0..fields {
        slots.push(field_reference(alloc, class, main, field)?)?;
    }
    Ok(slots)
}

// The slot of one field.
fn field_reference(
    alloc: Global,
    class: &mut ClassBuilder,
    main: u16,
    field: u32,
) -> Result<u16, NoMemory>
    requires room { length class.old.pool + 4 ≤ 65534 }
    requires owner { has_class class.old.pool main ≡ true }
    requires within { field < 39 }
    ensures there { IfOk result (λ slot.
        IsFieldAt class.new.pool slot main (field_name field) (field_descriptor field)) }
    ensures grown { OnOk result (GrowsPool class.old class.new 4) }
    ensures mentions { OnOk result (MentionsOf class.old.pool class.new.pool main
        (λ owner. field_mention owner (field_name field) (field_descriptor field) ∷ [])) }
{
    let name = field_name(alloc, field)?;
    building::field_reference(alloc, class, main, name.as_str(), field_descriptor(field))
}
