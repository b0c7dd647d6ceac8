//! What a class of code names.
ghost use Rattle.std.specs.Prelude.{◌≡◌, ◌+◌, ◌*◌, ◌<◌, ◌≤◌, true, [], ◌∷◌, length, IfOk, OnOk};
ghost use Rattle.emit_layout.specs.ClassNames.{span_name};
ghost use Rattle.emit_classes.specs.Built.{GrowsPool};
ghost use Rattle.emit_classes.specs.Lawful.{has_class};
ghost use Rattle.emit_classes.specs.Mentioned.{MentionsOf, method_mention};
ghost use Rattle.emit_classes.specs.Named.{IsMethodAt};
ghost use Rattle.emit_methods_laws.specs.Naming.{fields_of};
ghost use Rattle.translate_classes.specs.Making.{nothing};
ghost use Rattle.translate_classes.specs.CodeNaming.{AreSpanMethods, IsNamedClass, span_mentions};
ghost use Rattle.translate_classes.specs.Room.{is_own_name};

use crate::NoMemory;
use crate::building::{class_reference, method_reference, new_class};
use crate::known_helpers::helper_references;
use crate::names::Names;
use emit_classes::ClassBuilder;
use emit_layout::span_name;
use nv_values::ClassName;
use std::alloc::Global;

/// A class of code without methods, with the slots of all that its methods name.
#[derive(Drop)]
pub struct NamedClass {
    pub class: ClassBuilder,
    pub names: Names,
    /// The helper methods, by their numbers.
    pub helpers: Vec<u16>,
    /// The class itself.
    pub own: u16,
    /// Its methods of spans, by their numbers.
    pub own_methods: Vec<u16>,
}

/// The class of this name, with so many spans, of the program whose main class is called `main`, with a meter or without.
pub fn named_class(
    alloc: Global,
    name: &str,
    main: &ClassName,
    metered: bool,
    spans: u32,
) -> Result<NamedClass, NoMemory>
    requires name { is_own_name name.now ≡ true }
    requires few { spans ≤ 2048 }
    ensures names { IfOk result (IsNamedClass (fields_of metered) name.now main.now spans) }
    ensures few { IfOk result (λ n. length n.class.pool ≤ 267 + 4 * spans) }
{
    let mut class = new_class(alloc, name)?;
    let names = Names::new(alloc, &mut class, main, metered)?;
    let helpers = helper_references(alloc, &mut class, names.main)?;
    let own = class_reference(alloc, &mut class, name)?;
    let own_methods = span_references(alloc, &mut class, own, spans)?;
    Ok(NamedClass {
        class,
        names,
        helpers,
        own,
        own_methods,
    })
}

// The slots of the methods of so many spans of the class in a slot.
fn span_references(
    alloc: Global,
    class: &mut ClassBuilder,
    own: u16,
    spans: u32,
) -> Result<Vec<u16>, NoMemory>
    requires room { length class.old.pool + 4 * spans ≤ 65534 }
    requires owner { has_class class.old.pool own ≡ true }
    requires few { spans ≤ 2048 }
    ensures there { IfOk result (λ slots. AreSpanMethods class.new.pool own slots.items spans) }
    ensures grown { OnOk result (GrowsPool class.old class.new (4 * spans)) }
    ensures mentions { OnOk result (MentionsOf class.old.pool class.new.pool own
        (λ owner. span_mentions owner spans)) }
{
    let mut slots = Vec::new(alloc);
    for k in 0..spans {
        slots.push(span_reference(alloc, class, own, k)?)?;
    }
    Ok(slots)
}

fn span_reference(
    alloc: Global,
    class: &mut ClassBuilder,
    own: u16,
    k: u32,
) -> Result<u16, NoMemory>
    requires room { length class.old.pool + 4 ≤ 65534 }
    requires owner { has_class class.old.pool own ≡ true }
    requires within { k < 2048 }
    ensures there { IfOk result (λ slot. IsMethodAt class.new.pool slot own (span_name k) nothing) }
    ensures grown { OnOk result (GrowsPool class.old class.new 4) }
    ensures mentions { OnOk result (MentionsOf class.old.pool class.new.pool own
        (λ owner. method_mention owner (span_name k) nothing ∷ [])) }
{
    let name = span_name(alloc, k)?;
    method_reference(alloc, class, own, name.as_str(), "()V")
}
