//! Names that are twice.
ghost use Rattle.std.specs.Prelude.{◌≡◌, ◌≤◌, length, IfOk, []};
ghost use Rattle.class_definition.specs.LinkFault.{twice_fault};
ghost use Rattle.class_names.specs.Keys.{classes_in, has_equal_keys, is_twice_by, field_keys, method_keys};

use crate::equal_keys::has_equal;
use crate::known::is_known;
use crate::link_error::NoMemory;
use crate::lookups::class_name_at;
use crate::numbered::Numbered;
use crate::numbered_class::NumberedClass;
use class_definition::LinkFault;
use indexmap::IndexSet;
use std::alloc::Global;

/// The first class with the name of one before it or of a known one, or with two equal members.
pub fn twice_fault(alloc: Global, numbered: &Numbered) -> Result<Option<LinkFault>, NoMemory>
    requires { length numbered.now.classes.items ≤ 1024 }
    ensures { IfOk result (λ fault. fault
        ≡ twice_fault [] 0 (classes_in numbered.now.classes.items)) }
{
    let mut names = IndexSet::new(alloc);
    for (number, class) in numbered.classes.iter().enumerate() {
        if is_twice(alloc, &names, class)? {
            return Ok(Some(LinkFault {
                kind: LinkFault::TWICE,
                class: number as u32,
                slot: 0,
            }));
        }
        names.insert(class.own_number())?;
    }
    Ok(None)
}

// Whether a class has one of these names or that of a known class, or two equal members.
fn is_twice(alloc: Global, names: &IndexSet<usize>, class: &NumberedClass) -> Result<bool, NoMemory>
    ensures { IfOk result (λ twice. twice ≡ is_twice_by names.now.keys class.now) }
{
    if names.contains(&class.own_number()) {
        return Ok(true);
    }
    if is_known(class_name_at(class.class, class.class.this_class)) {
        return Ok(true);
    }
    if has_equal_fields(alloc, class)? {
        return Ok(true);
    }
    has_equal_methods(alloc, class)
}

fn has_equal_fields(alloc: Global, class: &NumberedClass) -> Result<bool, NoMemory>
    ensures { IfOk result (λ equal. equal ≡ has_equal_keys (field_keys class.now)) }
{
    let mut keys = Vec::new(alloc);
    class.push_field_keys(&mut keys)?;
    has_equal(alloc, keys.as_slice())
}

fn has_equal_methods(alloc: Global, class: &NumberedClass) -> Result<bool, NoMemory>
    ensures { IfOk result (λ equal. equal ≡ has_equal_keys (method_keys class.now)) }
{
    let mut keys = Vec::new(alloc);
    class.push_method_keys(&mut keys)?;
    has_equal(alloc, keys.as_slice())
}
