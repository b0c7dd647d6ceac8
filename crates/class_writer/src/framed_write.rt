//! A class file of version 51.0 as its bytes.
ghost use Rattle.std.specs.Prelude.{◌≡◌, ◌≤◌, ◌↔◌, ℕ, true, Some, None, Err, IfOk, length};
ghost use Rattle.std.specs.List.{list_all};
ghost use Rattle.class_definition.specs.ClassFile.{class};
ghost use Rattle.class_definition.specs.declared.framed_class.FramedClass.{FramedClass};
ghost use Rattle.class_definition.specs.FramedClassFile as format;
ghost use Rattle.class_writer.specs.Limits.{limit};
ghost use Rattle.class_writer.specs.Written.{framed_class_bytes, has_short_code, is_short_table, name_slot};
ghost use Rattle.class_writer.specs.declared.error.WriteError.TheVariants.{TooLong};

use crate::error::{NoMemory, WriteError};
use crate::limits::limit_of;
use crate::member_writing::append_framed_methods;
use crate::numbers::append_halves;
use crate::write::front_of;
use class_definition_laws::{FramedClass, table_slot_of};
use constant_pool::Entry;
use std::alloc::Global;

const MAJOR: u16 = 51;

/// The bytes of a class of version 51.0 with its tables, of which `read_class_51` makes it again (JVM Specification, Java SE 7
/// edition, 4). It keeps every rule of class files but the four limits of [`WriteError::TooLong`], and has a table for each
/// method, each below 2^31 bytes; where one is not empty, the pool has the text `StackMapTable`.
///
/// # Errors
///
/// TooLong, exactly if a limit is exceeded. NoMemory.
pub fn write_class_51(alloc: Global, c: &FramedClass) -> Result<Vec<u8>, WriteError>
    requires fits { limit c.now.class ≡ None → class.fits c.now.class ≡ true }
    requires tables { format.IsTabled c.now }
    ensures spelled { IfOk result (λ bytes. format.SpellsFramed bytes.items c.now) }
    ensures sound { IfOk result (λ bytes. format.class_fault bytes.items ≡ None) }
    ensures only_class { IfOk result (λ bytes. (d : FramedClass) → format.SpellsFramed bytes.items d
        → d ≡ c.now) }
    ensures too_long { (k : ℕ) → (result ≡ Err (TooLong k)) ↔ (limit c.now.class ≡ Some k) }
{
    if let Some(limit) = limit_of(&c.class) {
        return Err(WriteError::TooLong(limit));
    }
    match framed_bytes_of(alloc, c) {
        Ok(bytes) => Ok(bytes),
        Err(_) => Err(WriteError::NoMemory),
    }
}

fn framed_bytes_of(alloc: Global, c: &FramedClass) -> Result<Vec<u8>, NoMemory>
    requires held { limit c.now.class ≡ None }
    requires codes { list_all has_short_code c.now.class.methods ≡ true }
    requires tables { list_all is_short_table c.now.tables ≡ true }
    ensures { IfOk result (λ bytes. bytes.items ≡ framed_class_bytes c.now) }
{
    let name = name_slot_of(c.class.pool.as_slice());
    let mut bytes = front_of(alloc, &c.class, MAJOR)?;
    append_framed_methods(
        &mut bytes,
        name,
        c.class.methods.as_slice(),
        c.tables.as_slice(),
    )?;
    append_halves(&mut bytes, &[0])?;
    Ok(bytes)
}

// The slot of the tables' name, or 0.
fn name_slot_of(entries: &[Entry]) -> u16
    requires { length entries.now ≤ 65534 }
    ensures { result ≡ name_slot entries.now }
{
    match table_slot_of(entries) {
        Some(slot) => slot as u16,
        None => 0,
    }
}
