//! The fields of the main class.
ghost use Rattle.std.specs.Prelude.{◌≡◌, ◌+◌, ◌<◌, ◌≤◌, [], length, OnOk};
ghost use Rattle.emit_layout.specs.Fields.{field_descriptor, field_name};
ghost use Rattle.emit_classes.specs.Built.{AddsField};
ghost use Rattle.emit_methods_laws.specs.Naming.{fields_of};
ghost use Rattle.translate_classes.specs.Fields.{AddsFields};

use crate::NoMemory;
use crate::building::put_field;
use emit_classes::ClassBuilder;
use emit_layout::{FIELDS, METERED_FIELDS, field_descriptor, field_name};
use std::alloc::Global;

/// How many fields there are: with a meter one more.
pub fn fields_of(metered: bool) -> u32
    ensures value { result ≡ fields_of metered }
    ensures few { result ≤ 39 }
{
    if metered { METERED_FIELDS } else { FIELDS }
}

/// Adds so many fields, by their numbers.
pub fn add_fields(alloc: Global, class: &mut ClassBuilder, fields: u32) -> Result<(), NoMemory>
    requires none { class.old.fields ≡ [] }
    requires room { length class.old.pool + 78 ≤ 65534 }
    requires few { fields ≤ 39 }
    ensures fields { OnOk result (AddsFields class.old class.new fields) }
    ensures few { OnOk result (length class.new.pool ≤ length class.old.pool + 78) }
{
    for field in 0..fields {
        add_field(alloc, class, field)?;
    }
    Ok(())
}

fn add_field(alloc: Global, class: &mut ClassBuilder, field: u32) -> Result<(), NoMemory>
    requires few { length class.old.fields < 65535 }
    requires room { length class.old.pool + 2 ≤ 65534 }
    requires within { field < 39 }
    ensures { OnOk result (AddsField class.old class.new (field_name field)
        (field_descriptor field)) }
{
    let name = field_name(alloc, field)?;
    put_field(alloc, class, name.as_str(), field_descriptor(field))
}
