//! Names that end with a number.
ghost use Rattle.std.specs.Prelude.{◌≡◌, ◌++◌, decimal, IfOk, string_bytes};

use crate::NoMemory;
use itoa::Buffer;
use std::alloc::Global;

/// Two texts, one after the other.
pub fn joined(alloc: Global, front: &str, back: &str) -> Result<String, NoMemory>
    ensures { IfOk result (λ text. string_bytes text ≡ front.now ++ back.now) }
{
    let mut text = String::from_str(alloc, front)?;
    text.push_str(back)?;
    Ok(text)
}

/// Two texts and a number in decimal digits, one after the other.
pub fn numbered(alloc: Global, front: &str, mark: &str, n: u32) -> Result<String, NoMemory>
    ensures { IfOk result (λ text. string_bytes text ≡ front.now ++ mark.now ++ decimal n) }
{
    let mut digits = Buffer::new();
    let mut text = joined(alloc, front, mark)?;
    text.push_str(digits.format(n))?;
    Ok(text)
}
