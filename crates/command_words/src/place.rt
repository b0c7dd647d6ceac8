ghost use Rattle.std.specs.Prelude.{◌≡◌};
ghost use Rattle.command_words.specs.Meaning.{word_number};

/// The number of the word at a place after COMMAND; the greatest where no `u32` holds it.
pub(crate) fn word_number(place: usize) -> u32
    ensures { result ≡ word_number place }
{
    match u32::try_from(place) {
        Ok(number) => number.saturating_add(1),
        Err(_) => u32::MAX,
    }
}
