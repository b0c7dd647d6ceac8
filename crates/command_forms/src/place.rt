ghost use Rattle.std.specs.Prelude.{◌≡◌, false};
ghost use Rattle.command_forms.specs.Given.{value_place, word_place};
ghost use Rattle.command_forms.specs.Word.{texts};

use crate::word::{is_option, is_plain, waits_for_value};

/// How many words are before the first plain word that is no option's value; all where there is none.
pub fn word_place(words: &[String]) -> usize
    ensures { result ≡ word_place false (texts words.now) }
{
    let mut rest = words;
    let mut place = 0;
    let mut follows = false;
    while let Some((word, others)) = rest.split_first() {
        if !follows && is_plain(word.as_bytes()) {
            return place;
        }
        follows = !follows && waits_for_value(word.as_bytes());
        place += 1;
        rest = others;
    }
    place
}

/// How many words are before the one that holds the option's value: the word of the option itself, where its value is after `=`.
pub fn value_place(name: &str, words: &[String]) -> usize
    ensures { result ≡ value_place name.now (texts words.now) }
{
    let mut rest = words;
    let mut place = 0;
    while let Some((word, others)) = rest.split_first() {
        if is_option(name, word.as_bytes()) {
            return if waits_for_value(word.as_bytes()) {
                place + 1
            } else {
                place
            };
        }
        place += 1;
        rest = others;
    }
    place
}
