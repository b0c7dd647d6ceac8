//! Numbers as bytes, the most significant byte first.
ghost use Rattle.std.specs.Prelude.{◌≡◌, ◌++◌, OnOk};
ghost use Rattle.std.specs.Int.{w8, w16, w32, to_be_bytes};
ghost use Rattle.class_definition.specs.Format.{signed};
ghost use Rattle.class_definition.specs.Targets.{cut_instruction};

use crate::encode::NoMemory;

/// Appends a byte.
pub fn append_byte(code: &mut Vec<u8>, number: u8) -> Result<(), NoMemory>
    ensures { OnOk result (code.new.items ≡ code.old.items ++ to_be_bytes w8 number) }
{
    code.push(number)?;
    Ok(())
}

/// Appends a number of two bytes.
pub fn append_half(code: &mut Vec<u8>, number: u16) -> Result<(), NoMemory>
    ensures { OnOk result (code.new.items ≡ code.old.items ++ to_be_bytes w16 number) }
{
    code.extend_from_slice(&number.to_be_bytes())
}

/// Appends a number of four bytes.
pub fn append_word(code: &mut Vec<u8>, number: u32) -> Result<(), NoMemory>
    ensures { OnOk result (code.new.items ≡ code.old.items ++ to_be_bytes w32 number) }
{
    code.extend_from_slice(&number.to_be_bytes())
}

/// Appends a two's complement number of one byte.
pub fn append_signed_byte(code: &mut Vec<u8>, number: i8) -> Result<(), NoMemory>
    ensures { OnOk result (code.new.items ≡ code.old.items ++ (signed cut_instruction w8).spell number) }
{
    append_byte(code, number.cast_unsigned())
}

/// Appends a two's complement number of two bytes.
pub fn append_signed_half(code: &mut Vec<u8>, number: i16) -> Result<(), NoMemory>
    ensures { OnOk result (code.new.items ≡ code.old.items ++ (signed cut_instruction w16).spell number) }
{
    append_half(code, number.cast_unsigned())
}

/// Appends a two's complement number of four bytes.
pub fn append_signed_word(code: &mut Vec<u8>, number: i32) -> Result<(), NoMemory>
    ensures { OnOk result (code.new.items ≡ code.old.items ++ (signed cut_instruction w32).spell number) }
{
    append_word(code, number.cast_unsigned())
}
