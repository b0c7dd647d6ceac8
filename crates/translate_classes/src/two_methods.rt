//! A class and two of its methods.
ghost use Rattle.std.specs.Prelude.{◌≡◌, ◌+◌, ◌≤◌, true, ◌++◌, length, OnOk, IfOk};
ghost use Rattle.class_definition.specs.MemberNames.{signature};
ghost use Rattle.emit_classes.specs.Built.{GrowsPool};
ghost use Rattle.emit_classes.specs.Mentioned.{Mentions, mentioned};
ghost use Rattle.translate_classes.specs.Mentioned.{two_mentions};
ghost use Rattle.translate_classes.specs.Named.{AreTwoMethods};
ghost use Rattle.translate_classes.specs.Room.{can_name_class, can_name_method};

use crate::NoMemory;
use crate::building::{class_reference, method_reference};
use emit_classes::ClassBuilder;
use std::alloc::Global;

/// The slots of a class and of two of its methods.
#[derive(Clone, Copy)]
pub struct TwoMethods {
    pub class: u16,
    pub first: u16,
    pub second: u16,
}

/// Names a class and two of its methods, each by its name and its descriptor.
pub fn two_methods(
    alloc: Global,
    class: &mut ClassBuilder,
    owner: &str,
    first: (&str, &str),
    second: (&str, &str),
) -> Result<TwoMethods, NoMemory>
    requires room { length class.old.pool + 10 ≤ 65534 }
    requires owner { can_name_class owner.now ≡ true }
    requires first { can_name_method first.0.now first.1.now ≡ true }
    requires second { can_name_method second.0.now second.1.now ≡ true }
    ensures there { IfOk result (AreTwoMethods class.new.pool owner.now
        (signature first.entry.0.now first.entry.1.now)
        (signature second.entry.0.now second.entry.1.now)) }
    ensures grown { OnOk result (GrowsPool class.old class.new 10) }
    ensures mentions { OnOk result (Mentions class.new.pool (mentioned class.old.pool
        ++ two_mentions owner.now (signature first.entry.0.now first.entry.1.now)
        (signature second.entry.0.now second.entry.1.now))) }
{
    let slot = class_reference(alloc, class, owner)?;
    let one = method_reference(alloc, class, slot, first.0, first.1)?;
    let other = method_reference(alloc, class, slot, second.0, second.1)?;
    Ok(TwoMethods {
        class: slot,
        first: one,
        second: other,
    })
}
