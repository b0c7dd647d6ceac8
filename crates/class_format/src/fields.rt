//! Numbers and bytes at the front of a slice.
ghost use Rattle.std.specs.Prelude.{◌≡◌, length};
ghost use Rattle.std.specs.Int.{w8, w16, w32, w64};
ghost use Rattle.class_definition.specs.Format.{number_format, raw, signed, exactly, fault_at};
ghost use Rattle.class_format.specs.Gives.{Gives};
ghost use Rattle.class_format.specs.declared.failure.Failure.TheVariants.{Missed};

use crate::failure::Failure;
use class_definition::{ClassFault, Miss};

/// The byte at the front, and what follows it. `cut` is the kind of a field that runs past the end.
pub fn byte_of(cut: u32, bytes: &[u8]) -> Result<(u8, &[u8]), Failure>
    ensures { Gives (λ x. (x.0, x.1.now)) result ((number_format cut w8).read bytes.now) }
{
    let (front, rest) = raw_of(cut, bytes, 1)?;
    Ok((front[0], rest))
}

/// The number of two bytes at the front, and what follows it.
pub fn half_of(cut: u32, bytes: &[u8]) -> Result<(u16, &[u8]), Failure>
    ensures { Gives (λ x. (x.0, x.1.now)) result ((number_format cut w16).read bytes.now) }
{
    if bytes.len() < 2 {
        return Err(missed(cut, bytes));
    }
    let (front, rest) = bytes.split_at(2);
    Ok((u16::from_be_bytes([front[0], front[1]]), rest))
}

/// The number of four bytes at the front, and what follows it.
pub fn word_of(cut: u32, bytes: &[u8]) -> Result<(u32, &[u8]), Failure>
    ensures { Gives (λ x. (x.0, x.1.now)) result ((number_format cut w32).read bytes.now) }
{
    if bytes.len() < 4 {
        return Err(missed(cut, bytes));
    }
    let (front, rest) = bytes.split_at(4);
    let number = u32::from_be_bytes([front[0], front[1], front[2], front[3]]);
    Ok((number, rest))
}

/// As many bytes as are told, and what follows them.
pub fn raw_of(cut: u32, bytes: &[u8], length: usize) -> Result<(&[u8], &[u8]), Failure>
    ensures { Gives (λ x. (x.0.now, x.1.now)) result ((raw cut length).read bytes.now) }
{
    if bytes.len() < length {
        return Err(missed(cut, bytes));
    }
    Ok(bytes.split_at(length))
}

/// A miss of the field at the front.
pub fn missed(kind: u32, bytes: &[u8]) -> Failure
    ensures { result ≡ Missed (record { kind = kind; left = length bytes.now }) }
{
    Failure::Missed(Miss {
        kind,
        left: bytes.len(),
    })
}

/// The two's complement number of one byte at the front, and what follows it.
pub fn signed_byte_of(cut: u32, bytes: &[u8]) -> Result<(i8, &[u8]), Failure>
    ensures { Gives (λ x. (x.0, x.1.now)) result ((signed cut w8).read bytes.now) }
{
    let (bits, rest) = byte_of(cut, bytes)?;
    Ok((bits.cast_signed(), rest))
}

/// The two's complement number of two bytes at the front, and what follows it.
pub fn signed_half_of(cut: u32, bytes: &[u8]) -> Result<(i16, &[u8]), Failure>
    ensures { Gives (λ x. (x.0, x.1.now)) result ((signed cut w16).read bytes.now) }
{
    let (bits, rest) = half_of(cut, bytes)?;
    Ok((bits.cast_signed(), rest))
}

/// The two's complement number of four bytes at the front, and what follows it.
pub fn signed_word_of(cut: u32, bytes: &[u8]) -> Result<(i32, &[u8]), Failure>
    ensures { Gives (λ x. (x.0, x.1.now)) result ((signed cut w32).read bytes.now) }
{
    let (bits, rest) = word_of(cut, bytes)?;
    Ok((bits.cast_signed(), rest))
}

/// The two's complement number of eight bytes at the front, and what follows it.
pub fn signed_long_of(cut: u32, bytes: &[u8]) -> Result<(i64, &[u8]), Failure>
    ensures { Gives (λ x. (x.0, x.1.now)) result ((signed cut w64).read bytes.now) }
{
    let (bits, rest) = long_of(cut, bytes)?;
    Ok((bits.cast_signed(), rest))
}

/// The number of eight bytes at the front, and what follows it.
pub fn long_of(cut: u32, bytes: &[u8]) -> Result<(u64, &[u8]), Failure>
    ensures { Gives (λ x. (x.0, x.1.now)) result ((number_format cut w64).read bytes.now) }
{
    if bytes.len() < 8 {
        return Err(missed(cut, bytes));
    }
    let (front, rest) = bytes.split_at(8);
    let number = u64::from_be_bytes([
        front[0], front[1], front[2], front[3], front[4], front[5], front[6], front[7],
    ]);
    Ok((number, rest))
}

/// What follows a byte that can only be this one; `kind` is that of another.
pub fn exact_byte_of(cut: u32, kind: u32, byte: u8, bytes: &[u8]) -> Result<&[u8], Failure>
    ensures { Gives (λ x. (tt, x.now)) result ((exactly cut w8 kind byte).read bytes.now) }
{
    let (only, rest) = byte_of(cut, bytes)?;
    if only != byte {
        return Err(missed(kind, bytes));
    }
    Ok(rest)
}

/// What follows a number of two bytes that can only be this one; `kind` is that of another number.
pub fn exact_half_of(cut: u32, kind: u32, number: u16, bytes: &[u8]) -> Result<&[u8], Failure>
    ensures { Gives (λ x. (tt, x.now)) result ((exactly cut w16 kind number).read bytes.now) }
{
    let (found, rest) = half_of(cut, bytes)?;
    if found != number {
        return Err(missed(kind, bytes));
    }
    Ok(rest)
}

/// What follows a number of four bytes that can only be this one; `kind` is that of another number.
pub fn exact_word_of(cut: u32, kind: u32, number: u32, bytes: &[u8]) -> Result<&[u8], Failure>
    ensures { Gives (λ x. (tt, x.now)) result ((exactly cut w32 kind number).read bytes.now) }
{
    let (word, rest) = word_of(cut, bytes)?;
    if word != number {
        return Err(missed(kind, bytes));
    }
    Ok(rest)
}

/// The field at fault among `size` bytes that begin at `start`.
pub fn fault_of(start: usize, size: usize, miss: Miss) -> ClassFault
    ensures { result ≡ fault_at start size miss }
{
    let at = start.saturating_add(size.saturating_sub(miss.left));
    ClassFault {
        kind: miss.kind,
        at: u32::try_from(at).unwrap_or(u32::MAX),
    }
}
