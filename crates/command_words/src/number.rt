ghost use Rattle.std.specs.Prelude.{◌≡◌, ◌≤◌, option_map};
ghost use Rattle.std.specs.List.{list_all};
ghost use Rattle.nv_values.specs.Names.{is_digit};
ghost use Rattle.nv_values.specs.Ranges.{lies_in};
ghost use Rattle.command_words.specs.Values.{is_number_text, number_in, number_or};

use nv_values::is_digit;

/// The number that 1 to 20 decimal digits write, if it is in the range.
pub(crate) fn number_in(text: &str, least: u64, most: u64) -> Option<u64>
    ensures { result ≡ number_in least most text.now }
{
    if !is_number(text.as_bytes()) {
        return None;
    }
    match text.parse::<u64>() {
        Ok(number) if least <= number && number <= most => Some(number),
        _ => None,
    }
}

/// The number that an option gives, or its default where it is left out.
pub(crate) fn number_or(text: Option<&str>, least: u64, most: u64, default: u64) -> Option<u64>
    ensures { result ≡ number_or least most default (option_map (λ t. t.now) text.entry) }
{
    match text {
        Some(text) => number_in(text, least, most),
        None => Some(default),
    }
}

/// The same of an option whose range lies in 32 bits.
pub(crate) fn small_number_or(
    text: Option<&str>,
    least: u32,
    most: u32,
    default: u32,
) -> Option<u32>
    ensures { result ≡ number_or least most default (option_map (λ t. t.now) text.entry) }
{
    match text {
        Some(text) => small_number_in(text, least, most),
        None => Some(default),
    }
}

/// The same of a number whose range lies in 32 bits.
pub(crate) fn small_number_in(text: &str, least: u32, most: u32) -> Option<u32>
    ensures { result ≡ number_in least most text.now }
{
    let number = number_in(text, u64::from(least), u64::from(most))?;
    u32::try_from(number).ok()
}

/// Whether the text is 1 to 20 decimal digits.
fn is_number(text: &[u8]) -> bool
    ensures { result ≡ is_number_text text.now }
{
    1 <= text.len() && text.len() <= 20 && all_digits(text)
}

fn all_digits(text: &[u8]) -> bool
    ensures { result ≡ list_all is_digit text.now }
{
    text.iter().all(|b| is_digit(*b))
}
