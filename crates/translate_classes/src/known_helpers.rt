//! The helper methods of the main class.
ghost use Rattle.std.specs.Prelude.{◌≡◌, ◌+◌, ◌<◌, ◌≤◌, true, [], ◌∷◌, length, OnOk, IfOk};
ghost use Rattle.emit_layout.specs.Helpers.{helper_descriptor, helper_name};
ghost use Rattle.emit_classes.specs.Built.{GrowsPool};
ghost use Rattle.emit_classes.specs.Lawful.{has_class};
ghost use Rattle.emit_classes.specs.Mentioned.{MentionsOf, method_mention};
ghost use Rattle.emit_classes.specs.Named.{IsMethodAt};
ghost use Rattle.translate_classes.specs.Mentioned.{helper_mentions};
ghost use Rattle.translate_classes.specs.Named.{AreHelpers};

use crate::NoMemory;
use crate::building::method_reference;
use emit_classes::ClassBuilder;
use emit_layout::{HELPERS, helper_descriptor, helper_name};
use std::alloc::Global;

/// The slots of the helper methods of the main class, by their numbers; `main` is the slot of that class.
pub fn helper_references(
    alloc: Global,
    class: &mut ClassBuilder,
    main: u16,
) -> Result<Vec<u16>, NoMemory>
    requires room { length class.old.pool + 80 ≤ 65534 }
    requires owner { has_class class.old.pool main ≡ true }
    ensures there { IfOk result (λ slots. AreHelpers class.new.pool main slots.items 20) }
    ensures grown { OnOk result (GrowsPool class.old class.new 80) }
    ensures mentions { OnOk result (MentionsOf class.old.pool class.new.pool main
        (λ owner. helper_mentions owner 20)) }
{
    let mut slots = Vec::new(alloc);
    for number in 0..HELPERS {
        slots.push(helper_reference(alloc, class, main, number)?)?;
    }
    Ok(slots)
}

// The slot of one helper method.
fn helper_reference(
    alloc: Global,
    class: &mut ClassBuilder,
    main: u16,
    number: u32,
) -> Result<u16, NoMemory>
    requires room { length class.old.pool + 4 ≤ 65534 }
    requires owner { has_class class.old.pool main ≡ true }
    requires within { number < 20 }
    ensures there { IfOk result (λ slot.
        IsMethodAt class.new.pool slot main (helper_name number) (helper_descriptor number)) }
    ensures grown { OnOk result (GrowsPool class.old class.new 4) }
    ensures mentions { OnOk result (MentionsOf class.old.pool class.new.pool main
        (λ owner. method_mention owner (helper_name number) (helper_descriptor number) ∷ [])) }
{
    method_reference(
        alloc,
        class,
        main,
        helper_name(number),
        helper_descriptor(number),
    )
}
