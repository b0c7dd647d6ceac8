//! Fields that are appended to a file.
ghost use Rattle.std.specs.Prelude.{◌≡◌, ◌++◌, ◌≤◌, OnOk, replicate, ◌-◌};
ghost use Rattle.elf_definition.specs.FileFields.{halves, words};
ghost use Rattle.elf_definition.specs.File.{padding};
ghost use Rattle.elf_definition.specs.FilePlaces.{aligned};

use crate::place::next_aligned;
use crate::writer::NoMemory;

/// Appends the fields of two bytes, big-endian.
pub fn append_halves(file: &mut Vec<u8>, fields: &[u16]) -> Result<(), NoMemory>
    ensures { OnOk result (file.new.items ≡ file.old.items ++ halves fields.now) }
{
    for field in fields {
        file.extend_from_slice(&field.to_be_bytes())?;
    }
    Ok(())
}

/// Appends the fields of four bytes, big-endian.
pub fn append_words(file: &mut Vec<u8>, fields: &[u32]) -> Result<(), NoMemory>
    ensures { OnOk result (file.new.items ≡ file.old.items ++ words fields.now) }
{
    for field in fields {
        file.extend_from_slice(&field.to_be_bytes())?;
    }
    Ok(())
}

/// Appends zeros to a file that ends at `at`, up to the next multiple of 4.
pub fn append_padding(file: &mut Vec<u8>, at: u32) -> Result<(), NoMemory>
    requires { at ≤ 67108864 }
    ensures { OnOk result (file.new.items ≡ file.old.items ++ padding at) }
{
    for _ in 0..next_aligned(at) - at {
        file.push(0)?;
    }
    Ok(())
}
