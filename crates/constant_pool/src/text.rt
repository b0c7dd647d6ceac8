//! Texts as bytes.
ghost use Rattle.std.specs.Prelude.{◌≡◌, ◌+◌, ◌<◌, ◌^◌, ◌++◌, OnOk, length};
ghost use Rattle.class_definition.specs.Utf8.{character_bytes, text_bytes};

use crate::error::NoMemory;

/// The number of bytes of a text in modified UTF-8.
pub fn text_size(text: &[u16]) -> usize
    ensures value { result ≡ length (text_bytes text.now) }
    ensures small { result + 3 < 2 ^ 64 }
{
    let mut size = 0;
    for character in text {
        size += character_size(*character);
    }
    size
}

fn character_size(character: u16) -> usize
    ensures { result ≡ length (character_bytes character) }
{
    if 1 <= character && character < 0x80 {
        1
    } else if character < 0x800 {
        2
    } else {
        3
    }
}

/// Appends a text in modified UTF-8.
pub fn append_text(bytes: &mut Vec<u8>, text: &[u16]) -> Result<(), NoMemory>
    ensures { OnOk result (bytes.new.items ≡ bytes.old.items ++ text_bytes text.now) }
{
    for character in text {
        append_character(bytes, *character)?;
    }
    Ok(())
}

fn append_character(bytes: &mut Vec<u8>, character: u16) -> Result<(), NoMemory>
    ensures { OnOk result (bytes.new.items ≡ bytes.old.items ++ character_bytes character) }
{
    if 1 <= character && character < 0x80 {
        bytes.extend_from_slice(&[character as u8])
    } else if character < 0x800 {
        bytes.extend_from_slice(&[(0xC0 + character / 64) as u8, (0x80 + character % 64) as u8])
    } else {
        bytes.extend_from_slice(&[
            (0xE0 + character / 4096) as u8,
            (0x80 + character / 64 % 64) as u8,
            (0x80 + character % 64) as u8,
        ])
    }
}
