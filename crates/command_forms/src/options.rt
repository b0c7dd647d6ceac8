ghost use Rattle.std.specs.Prelude.{◌≡◌, false, IfOk, map, string_bytes};
ghost use Rattle.command_forms.specs.Given.{option_words};
ghost use Rattle.command_forms.specs.Word.{texts};

use crate::word::{is_plain, waits_for_value};
use std::alloc::{AllocError, Global};

/// The options with their values, where the plain words repeat.
///
/// An error comes only if memory runs out.
pub fn option_words(alloc: Global, words: &[String]) -> Result<Vec<String>, AllocError>
    ensures { IfOk result (λ v. map string_bytes v.items ≡ option_words false (texts words.now)) }
{
    let mut options = Vec::new(alloc);
    let mut rest = words;
    let mut follows = false;
    while let Some((word, others)) = rest.split_first() {
        if follows {
            follows = false;
            options.push(word.clone()?)?;
        } else if !is_plain(word.as_bytes()) {
            follows = waits_for_value(word.as_bytes());
            options.push(word.clone()?)?;
        }
        rest = others;
    }
    Ok(options)
}
