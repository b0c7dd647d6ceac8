//! Numbers in digits, without taking memory.
ghost use Rattle.std.specs.Prelude.{◌≡◌, ◌<◌, decimal};
ghost use Rattle.std.specs.Fmt.{signed_decimal};
ghost use Rattle.command_deeds.specs.Line.{hex_digit, hex_word};

use itoa::Buffer;

/// A number in decimal digits.
pub fn decimal(digits: &mut Buffer, n: u32) -> &[u8]
    ensures { result.now ≡ decimal n }
{
    digits.format(n).as_bytes()
}

/// A number of 64 bits in decimal digits.
pub fn decimal_long(digits: &mut Buffer, n: u64) -> &[u8]
    ensures { result.now ≡ decimal n }
{
    digits.format(n).as_bytes()
}

/// A number with its sign in decimal digits.
pub(crate) fn decimal_signed(digits: &mut Buffer, n: i32) -> &[u8]
    ensures { result.now ≡ signed_decimal n }
{
    digits.format(n).as_bytes()
}

/// A word as eight upper-case hexadecimal digits.
#[tactic(auto, unfolding(crate::specs::Line::hex_word))]
pub fn hexadecimal(word: u32) -> [u8; 8]
    ensures { result ≡ hex_word word }
{
    [
        digit(word / 0x1000_0000 % 16),
        digit(word / 0x100_0000 % 16),
        digit(word / 0x10_0000 % 16),
        digit(word / 0x1_0000 % 16),
        digit(word / 0x1000 % 16),
        digit(word / 0x100 % 16),
        digit(word / 0x10 % 16),
        digit(word % 16),
    ]
}

/// A hexadecimal digit.
fn digit(d: u32) -> u8
    requires { d < 16 }
    ensures { result ≡ hex_digit d }
{
    if d < 10 {
        b'0' + d as u8
    } else {
        b'A' + (d as u8 - 10)
    }
}
