//! The types of fields.
ghost use Rattle.std.specs.Prelude.{◌≡◌, ◌++◌, map, IfOk, OnOk};
ghost use Rattle.class_definition.specs.Linking as linking;

use crate::kinds::kind_of;
use class_names::{NoMemory, text_of};
use jvm_code::Class;
use jvm_definition::Kind;
use std::alloc::Global;

/// The types of the fields of all classes, class by class.
pub fn field_kinds(alloc: Global, classes: &[Class]) -> Result<Vec<Kind>, NoMemory>
    ensures { IfOk result (λ kinds. kinds.items ≡ linking.field_kinds classes.now) }
{
    let mut kinds = Vec::new(alloc);
    for class in classes {
        push_kinds(&mut kinds, class)?;
    }
    Ok(kinds)
}

fn push_kinds(kinds: &mut Vec<Kind>, class: &Class) -> Result<(), NoMemory>
    ensures { OnOk result (kinds.new.items ≡ kinds.old.items
        ++ map (linking.field_kind class.now) class.now.fields) }
{
    for field in class.fields.as_slice() {
        kinds.push(kind_of(text_of(class, field.desc)))?;
    }
    Ok(())
}
