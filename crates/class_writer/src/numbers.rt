//! Numbers as bytes, the most significant byte first.
ghost use Rattle.std.specs.Prelude.{◌≡◌, ◌++◌, OnOk};
ghost use Rattle.class_writer.specs.Written.{halves, word};

use crate::error::NoMemory;

/// Appends numbers of two bytes.
pub fn append_halves(bytes: &mut Vec<u8>, numbers: &[u16]) -> Result<(), NoMemory>
    ensures { OnOk result (bytes.new.items ≡ bytes.old.items ++ halves numbers.now) }
{
    for number in numbers {
        bytes.extend_from_slice(&number.to_be_bytes())?;
    }
    Ok(())
}

/// Appends a number of four bytes.
pub fn append_word(bytes: &mut Vec<u8>, number: u32) -> Result<(), NoMemory>
    ensures { OnOk result (bytes.new.items ≡ bytes.old.items ++ word number) }
{
    bytes.extend_from_slice(&number.to_be_bytes())
}
