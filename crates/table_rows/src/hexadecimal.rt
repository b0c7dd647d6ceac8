//! Bytes in hexadecimal digits.
use anyhow::{Context, Result};
use std::alloc::Global;

/// The bytes of pieces of digits, with blanks between them. A piece such as `3*00,FF` stands for three times the bytes `00` and `FF`.
///
/// # Errors
/// Where a piece is no such text.
pub fn bytes_of(alloc: Global, pieces: &str) -> Result<Vec<u8>> {
    let mut bytes = Vec::new(alloc);
    for piece in pieces.split_whitespace() {
        push_piece(alloc, &mut bytes, piece)?;
    }
    Ok(bytes)
}

fn push_piece(alloc: Global, bytes: &mut Vec<u8>, piece: &str) -> Result<()> {
    let (count, digits) = piece.split_once('*').unwrap_or(("1", piece));
    let count = count.parse::<u32>().unwrap_or(0);
    let digits = digits.replace(alloc, ',', "")?;
    let once = hex::decode(alloc, digits.as_str()).context("these are no bytes")?;
    for _ in 0..count {
        bytes.extend_from_slice(once.as_slice())?;
    }
    Ok(())
}

/// The words of bytes that are written so, the most significant byte first; up to three bytes at the end are left out.
///
/// # Errors
/// As `bytes_of`.
pub fn words_of(alloc: Global, pieces: &str) -> Result<Vec<u32>> {
    let bytes = bytes_of(alloc, pieces)?;
    let mut words = Vec::new(alloc);
    for word in bytes.as_slice().chunks_exact(4) {
        if let [a, b, c, d] = word {
            words.push(u32::from_be_bytes([*a, *b, *c, *d]))?;
        }
    }
    Ok(words)
}

/// Bytes as digits.
///
/// # Errors
/// Out of memory.
pub fn hex_of(alloc: Global, bytes: &[u8]) -> Result<String> {
    Ok(hex::encode_upper(alloc, bytes)?)
}

/// A text, or so many, as `4078*x`.
///
/// # Errors
/// Out of memory.
pub fn repeated(alloc: Global, text: &str) -> Result<String> {
    let (count, once) = text.split_once('*').unwrap_or(("1", text));
    Ok(once.repeat(alloc, count.parse()?)?)
}
