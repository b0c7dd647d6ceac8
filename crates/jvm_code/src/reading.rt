//! Instructions from bytes.
ghost use Rattle.std.specs.Prelude.{◌≡◌, ◌<◌, ◌^◌, length};
ghost use Rattle.class_format.specs.Gives.{Gives};
ghost use Rattle.class_definition.specs.Targets as targets;
ghost use Rattle.class_definition.specs.Switches as switches;
ghost use Rattle.class_definition.specs.Instructions as format;

use class_format::{Failure, half_of, word_of};

const CUT: u32 = 2;

/// The target of an offset of two bytes at the front, counted from a place.
pub fn near_of(at: u32, bytes: &[u8]) -> Result<(u32, &[u8]), Failure>
    requires { at < 2 ^ 16 }
    ensures { Gives (λ x. (x.0, x.1.now)) result ((targets.near at).read bytes.now) }
{
    let (bits, rest) = half_of(CUT, bytes)?;
    Ok((at.wrapping_add(extended(bits)), rest))
}

fn extended(bits: u16) -> u32
    ensures { result ≡ targets.extended bits }
{
    if bits < 0x8000 {
        u32::from(bits)
    } else {
        u32::from(bits) + 0xFFFF_0000
    }
}

/// The target of an offset of four bytes at the front, counted from a place.
pub fn wide_of(at: u32, bytes: &[u8]) -> Result<(u32, &[u8]), Failure>
    requires { at < 2 ^ 16 }
    ensures { Gives (λ x. (x.0, x.1.now)) result ((targets.wide at).read bytes.now) }
{
    let (bits, rest) = word_of(CUT, bytes)?;
    Ok((at.wrapping_add(bits), rest))
}
