//! Targets as bytes: offsets from the instruction.
ghost use Rattle.std.specs.Prelude.{◌≡◌, ◌<◌, ◌^◌, ◌++◌, true, OnOk};
ghost use Rattle.class_definition.specs.Targets.{near, wide, offset_to};

use crate::encode::NoMemory;
use crate::number_writing::{append_half, append_word};

/// Appends the offset of two bytes from a place to a target that it reaches.
pub fn append_near(code: &mut Vec<u8>, at: u32, target: u32) -> Result<(), NoMemory>
    requires low { at < 2 ^ 16 }
    requires fits { (near at).fits target ≡ true }
    ensures { OnOk result (code.new.items ≡ code.old.items ++ (near at).spell target) }
{
    append_half(code, (offset_of(at, target) % 0x1_0000) as u16)
}

/// Appends the offset of four bytes from a place to a target.
pub fn append_wide(code: &mut Vec<u8>, at: u32, target: u32) -> Result<(), NoMemory>
    requires { at < 2 ^ 16 }
    ensures { OnOk result (code.new.items ≡ code.old.items ++ (wide at).spell target) }
{
    append_word(code, offset_of(at, target))
}

fn offset_of(at: u32, target: u32) -> u32
    requires { at < 2 ^ 16 }
    ensures { result ≡ offset_to at target }
{
    target.wrapping_sub(at)
}
