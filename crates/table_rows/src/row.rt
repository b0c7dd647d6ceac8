//! Words of a row.

/// The word of this number, from 0, where one blank is between two; empty where there is none.
pub fn word(row: &str, number: usize) -> &str {
    row.split(' ').nth(number).unwrap_or("")
}

/// What is after so many words.
pub fn rest(row: &str, words: usize) -> &str {
    row.splitn(words.saturating_add(1), ' ')
        .nth(words)
        .unwrap_or("")
}

/// The number that a word is in decimal digits; 0 where it is none, which the row's answer shows.
pub fn count(row: &str, number: usize) -> u32 {
    word(row, number).parse().unwrap_or(0)
}

/// A number as `count`, of 64 bits.
pub fn long_count(row: &str, number: usize) -> u64 {
    word(row, number).parse().unwrap_or(0)
}

/// The number that a word is in hexadecimal digits; 0 where it is none.
pub fn address(row: &str, number: usize) -> u32 {
    u32::from_str_radix(word(row, number), 16).unwrap_or(0)
}

/// A number as `count`, of 16 bits.
pub fn slot(row: &str, number: usize) -> u16 {
    word(row, number).parse().unwrap_or(0)
}
