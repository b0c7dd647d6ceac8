//! Numbers in bytes, lanes of words, and signs.
use anyhow::Result;
use nv_words::{Order, half_in, lane_of, put_half, put_word, signed, unsigned, with_lane, word_in};
use std::alloc::{AllocError, Global};
use std::fmt::Write;
use table_rows::{address, bytes_of, count, hex_of, word};

/// `ORDER half BYTES PLACE`, `ORDER word BYTES PLACE` or `ORDER lane WORD NUMBER`.
pub fn field_row(alloc: Global, text: &mut String, order: Order, row: &str) -> Result<()> {
    let bytes = bytes_of(alloc, word(row, 2))?;
    push_found(text, field(order, bytes.as_slice(), row))?;
    Ok(())
}

fn field(order: Order, bytes: &[u8], row: &str) -> Option<u32> {
    let place = word(row, 3).parse::<usize>().unwrap_or(0);
    match word(row, 1) {
        "half" => half_in(order, bytes, place).map(u32::from),
        "word" => word_in(order, bytes, place),
        "lane" => lane(order, address(row, 2), count(row, 3)),
        _ => None,
    }
}

/// A number, or `none` where there is none.
pub fn push_found(text: &mut String, found: Option<u32>) -> Result<(), AllocError> {
    match found {
        Some(number) => write!(text, "{number:X}"),
        None => text.push_str("none"),
    }
}

fn lane(order: Order, word: u32, place: u32) -> Option<u32> {
    if place < 4 {
        Some(u32::from(lane_of(order, word, place)))
    } else {
        None
    }
}

/// `put half BYTES PLACE NUMBER`, `put word BYTES PLACE NUMBER` or `put lane WORD NUMBER BYTE`.
pub fn put_row(alloc: Global, text: &mut String, row: &str) -> Result<()> {
    if word(row, 1) == "lane" {
        push_lane(text, row)?;
        return Ok(());
    }
    let mut bytes = bytes_of(alloc, word(row, 2))?;
    let fits = put(bytes.as_mut_slice(), row);
    let digits = hex_of(alloc, bytes.as_slice())?;
    write!(text, "{fits} {digits}")?;
    Ok(())
}

fn push_lane(text: &mut String, row: &str) -> Result<(), AllocError> {
    let (place, byte) = (count(row, 3), u8::try_from(address(row, 4)).unwrap_or(0));
    if place < 4 {
        let word = with_lane(address(row, 2), place, byte);
        write!(text, "{word:08X}")
    } else {
        text.push_str("none")
    }
}

fn put(bytes: &mut [u8], row: &str) -> bool {
    let (place, number) = (count(row, 3) as usize, address(row, 4));
    if word(row, 1) == "half" {
        put_half(bytes, place, u16::try_from(number).unwrap_or(0))
    } else {
        put_word(bytes, place, number)
    }
}

/// `signed WORD` or `unsigned NUMBER`.
pub fn signs_row(text: &mut String, row: &str) -> Result<(), AllocError> {
    if word(row, 0) == "signed" {
        let number = signed(address(row, 1));
        write!(text, "{number}")
    } else {
        let word = unsigned(word(row, 1).parse().unwrap_or(0));
        write!(text, "{word:08X}")
    }
}
