//! Plain words and options apart, where the plain words repeat.
ghost use Rattle.std.specs.Prelude.{◌≡◌, false, IfOk};
ghost use Rattle.command_words.specs.Meaning.{named, plain_words};
ghost use Rattle.command_forms.specs.Word.{texts};

use crate::named::Named;
use crate::place::word_number;
use crate::text::Text;
use command_forms::{is_plain, waits_for_value};
use std::alloc::{AllocError, Global};

/// The plain words that are no option's value, with their numbers.
pub(crate) fn plain_words(alloc: Global, words: &[String]) -> Result<Vec<Named>, AllocError>
    ensures { IfOk result (λ v. v.items ≡ plain_words false 0 (texts words.now)) }
{
    let mut plain = Vec::new(alloc);
    let mut rest = words;
    let mut place = 0;
    let mut follows = false;
    while let Some((word, others)) = rest.split_first() {
        if follows {
            follows = false;
        } else if is_plain(word.as_bytes()) {
            plain.push(named(alloc, place, word.as_str())?)?;
        } else {
            follows = waits_for_value(word.as_bytes());
        }
        place += 1;
        rest = others;
    }
    Ok(plain)
}

/// A word at a place after COMMAND.
fn named(alloc: Global, place: usize, word: &str) -> Result<Named, AllocError>
    ensures { IfOk result (λ n. n ≡ named place word.now) }
{
    Ok(Named {
        word: word_number(place),
        text: Text::new(String::from_str(alloc, word)?),
    })
}
