//! What is changed in a file.
use anyhow::{Result, bail};
use std::alloc::Global;

/// Changes a file: `PLACE=HEX` puts a byte, `+HEX` appends one, `<LENGTH` cuts it, `^BIT` turns a bit, counted from the least one of the
/// first byte, and `little` gives a program's numbers the other order.
///
/// # Errors
/// Where the text is none of these.
pub fn change(alloc: Global, bytes: &mut Vec<u8>, edit: &str) -> Result<()> {
    if edit == "little" {
        *bytes = turned(alloc, bytes.as_slice())?;
    } else if let Some(length) = edit.strip_prefix('<') {
        bytes.truncate(length.parse()?);
    } else if let Some(digits) = edit.strip_prefix('+') {
        bytes.push(u8::from_str_radix(digits, 16)?)?;
    } else if let Some(bit) = edit.strip_prefix('^') {
        let bit = bit.parse::<usize>()?;
        put(bytes.as_mut_slice(), bit / 8, 1 << (bit % 8), 0xFF)?;
    } else if let Some((place, digits)) = edit.split_once('=') {
        put(
            bytes.as_mut_slice(),
            place.parse()?,
            u8::from_str_radix(digits, 16)?,
            0,
        )?;
    } else {
        bail!("an edit is wanted");
    }
    Ok(())
}

/// Puts a byte, over these bits of what is there.
fn put(bytes: &mut [u8], place: usize, byte: u8, bits: u8) -> Result<()> {
    match bytes.get_mut(place) {
        Some(there) => *there = byte ^ (*there & bits),
        None => bail!("there is no such byte"),
    }
    Ok(())
}

/// A program's file with its numbers turned: the half-words of the header, and all words after its first 16 bytes.
fn turned(alloc: Global, file: &[u8]) -> Result<Vec<u8>> {
    let mut turned = Vec::new(alloc);
    for place in 0..file.len() {
        turned.push(byte_at(file, turned_place(place)))?;
    }
    put(turned.as_mut_slice(), 5, 1, 0)?;
    Ok(turned)
}

fn byte_at(file: &[u8], place: usize) -> u8 {
    file.get(place).copied().unwrap_or(0)
}

/// Which byte of the file is at a place.
fn turned_place(place: usize) -> usize {
    if place < 16 {
        place
    } else if place < 20 || (40 <= place && place < 52) {
        place ^ 1
    } else {
        place ^ 3
    }
}
