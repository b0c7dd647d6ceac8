//! A class file as its bytes.
ghost use Rattle.std.specs.Prelude.{◌≡◌, ◌↔◌, ℕ, true, Some, None, Err, IfOk};
ghost use Rattle.std.specs.List.{list_all};
ghost use Rattle.class_definition.specs.declared.class.Class.{Class};
ghost use Rattle.class_definition.specs.ClassFile as format;
ghost use Rattle.class_writer.specs.Limits.{limit};
ghost use Rattle.class_writer.specs.Written.{class_bytes, front_bytes, has_short_code};
ghost use Rattle.class_writer.specs.declared.error.WriteError.TheVariants.{TooLong};

use crate::entry_writing::append_entries;
use crate::error::{NoMemory, WriteError};
use crate::limits::limit_of;
use crate::member_writing::{append_fields, append_methods};
use crate::numbers::{append_halves, append_word};
use jvm_code::Class;
use std::alloc::Global;

const MAGIC: u32 = 0xCAFE_BABE;

const MINOR: u16 = 0;

const MAJOR: u16 = 48;

/// Public, final and super.
const FLAGS: u16 = 0x31;

/// The bytes of a class, of which `read_class` makes it again. It keeps every rule of class files but the four limits of
/// [`WriteError::TooLong`].
///
/// # Errors
///
/// TooLong, exactly if a limit is exceeded. NoMemory.
pub fn write_class(alloc: Global, c: &Class) -> Result<Vec<u8>, WriteError>
    requires { limit c.now ≡ None → format.class.fits c.now ≡ true }
    ensures spelled { IfOk result (λ bytes. format.Spells bytes.items c.now) }
    ensures sound { IfOk result (λ bytes. format.class_fault bytes.items ≡ None) }
    ensures only_class { IfOk result (λ bytes. (d : Class) → format.Spells bytes.items d
        → d ≡ c.now) }
    ensures too_long { (k : ℕ) → (result ≡ Err (TooLong k)) ↔ (limit c.now ≡ Some k) }
{
    if let Some(limit) = limit_of(c) {
        return Err(WriteError::TooLong(limit));
    }
    match bytes_of(alloc, c) {
        Ok(bytes) => Ok(bytes),
        Err(_) => Err(WriteError::NoMemory),
    }
}

fn bytes_of(alloc: Global, c: &Class) -> Result<Vec<u8>, NoMemory>
    requires held { limit c.now ≡ None }
    requires codes { list_all has_short_code c.now.methods ≡ true }
    ensures { IfOk result (λ bytes. bytes.items ≡ class_bytes c.now) }
{
    let mut bytes = front_of(alloc, c, MAJOR)?;
    append_methods(&mut bytes, c.methods.as_slice())?;
    append_halves(&mut bytes, &[0])?;
    Ok(bytes)
}

/// The bytes of a class of a version up to its methods.
pub fn front_of(alloc: Global, c: &Class, major: u16) -> Result<Vec<u8>, NoMemory>
    requires { limit c.now ≡ None }
    ensures { IfOk result (λ bytes. bytes.items ≡ front_bytes major c.now) }
{
    let pool = c.pool.as_slice();
    let fields = c.fields.as_slice();
    let methods = c.methods.as_slice();
    let mut bytes = Vec::new(alloc);
    append_word(&mut bytes, MAGIC)?;
    append_halves(&mut bytes, &[MINOR, major, pool.len() as u16 + 1])?;
    append_entries(&mut bytes, pool)?;
    append_halves(
        &mut bytes,
        &[FLAGS, c.this_class, c.super_class, 0, fields.len() as u16],
    )?;
    append_fields(&mut bytes, fields)?;
    append_halves(&mut bytes, &[methods.len() as u16])?;
    Ok(bytes)
}
