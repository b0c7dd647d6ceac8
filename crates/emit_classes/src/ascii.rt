//! Names as the characters of class files.
ghost use Rattle.std.specs.Prelude.{◌≡◌, IfOk};

use constant_pool::NoMemory;
use std::alloc::Global;

/// The characters of a word, a character for each of its bytes: what it says where it is ASCII.
pub fn characters_of(alloc: Global, word: &str) -> Result<Vec<u16>, NoMemory>
    ensures { IfOk result (λ characters. characters.items ≡ word.now) }
{
    let mut characters = Vec::new(alloc);
    for byte in word.as_bytes() {
        characters.push(u16::from(*byte))?;
    }
    Ok(characters)
}
