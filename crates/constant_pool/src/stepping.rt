//! The characters of a text, byte by byte.
ghost use Rattle.std.specs.Prelude.{◌≡◌, ◌<◌, IfSome};
ghost use Rattle.class_definition.specs.Utf8.{step, first_step, low_six_bits, two_bytes, three_bytes, IsPartial};

use class_definition::{Partial, Step};

/// What one more byte makes of a character.
pub fn step_by(partial: Partial, byte: u8) -> Step
    requires { IsPartial partial }
    ensures { result ≡ step partial byte }
{
    match partial {
        Partial::Start => first_step(byte),
        Partial::Two(high) => match low_bits(byte) {
            Some(low) => two_bytes(u16::from(high) * 64 + low),
            None => Step::Wrong,
        },
        Partial::Three(high) => match low_bits(byte) {
            Some(low) => Step::More(Partial::Last(u16::from(high) * 64 + low)),
            None => Step::Wrong,
        },
        Partial::Last(high) => match low_bits(byte) {
            Some(low) => three_bytes(high * 64 + low),
            None => Step::Wrong,
        },
    }
}

fn first_step(byte: u8) -> Step
    ensures { result ≡ first_step byte }
{
    if 1 <= byte && byte < 0x80 {
        Step::Character(u16::from(byte))
    } else if 0xC0 <= byte && byte < 0xE0 {
        Step::More(Partial::Two(byte - 0xC0))
    } else if 0xE0 <= byte && byte < 0xF0 {
        Step::More(Partial::Three(byte - 0xE0))
    } else {
        Step::Wrong
    }
}

// The six bits of a byte that goes on.
fn low_bits(byte: u8) -> Option<u16>
    ensures value { result ≡ low_six_bits byte }
    ensures below { IfSome result (λ low. low < 64) }
{
    if 0x80 <= byte && byte < 0xC0 {
        Some(u16::from(byte - 0x80))
    } else {
        None
    }
}

fn two_bytes(character: u16) -> Step
    ensures { result ≡ two_bytes character }
{
    if character == 0 || 0x80 <= character {
        Step::Character(character)
    } else {
        Step::Wrong
    }
}

fn three_bytes(character: u16) -> Step
    ensures { result ≡ three_bytes character }
{
    if 0x800 <= character {
        Step::Character(character)
    } else {
        Step::Wrong
    }
}
