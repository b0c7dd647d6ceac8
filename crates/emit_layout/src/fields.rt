//! The fields of the main class.
ghost use Rattle.std.specs.Prelude.{◌≡◌, IfOk, string_bytes};
ghost use Rattle.emit_layout.specs.Fields as fields;

use crate::NoMemory;
use crate::numbered::numbered;
use std::alloc::Global;

/// How many fields there are: registers 1 to 31, HI, LO, where the guest goes, the tables of pages that can be read and be written, and
/// the address of the last LL with whether it is linked.
pub const FIELDS: u32 = 38;

/// How many there are where classes keep a meter: after the others, how many turns are left on it.
pub const METERED_FIELDS: u32 = 39;

/// The name of the field of this number.
pub fn field_name(alloc: Global, field: u32) -> Result<String, NoMemory>
    ensures { IfOk result (λ text. string_bytes text ≡ fields.field_name field) }
{
    if field < 31 {
        numbered(alloc, "", "r", field + 1)
    } else {
        String::from_str(alloc, special_name(field))
    }
}

fn special_name(field: u32) -> &'static str
    ensures { result.now ≡ fields.special_name field }
{
    match field {
        31 => "hi",
        32 => "lo",
        33 => "pc",
        34 => "rd",
        35 => "wr",
        36 => "ll",
        37 => "lf",
        _ => "left",
    }
}

/// The descriptor of the field of this number: an int, but for the two tables of pages.
pub fn field_descriptor(field: u32) -> &'static str
    ensures { result.now ≡ fields.field_descriptor field }
{
    match field {
        34 | 35 => "[[I",
        _ => "I",
    }
}
