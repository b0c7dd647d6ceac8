//! Classes that plain words name, one after the other.
ghost use Rattle.std.specs.Prelude.{◌≡◌};
ghost use Rattle.command_words.specs.Answers.{Reads};
ghost use Rattle.command_words.specs.Meaning.{class_named, classes_in, classes_of};

use crate::named::Named;
use crate::named_class::NamedClass;
use crate::named_classes::NamedClasses;
use crate::read::lawful_name;
use command_forms::WordsError;
use std::alloc::Global;

/// The fewest classes of a pipeline, and the most.
const FEWEST: usize = 2;

const MOST: usize = 8;

/// The classes of a pipeline.
pub(crate) fn classes(alloc: Global, words: &[Named]) -> Result<NamedClasses, WordsError>
    ensures { Reads (classes_in words.now) result }
{
    if words.len() < FEWEST || words.len() > MOST {
        return Err(WordsError::NOT_LAWFUL);
    }
    classes_of(alloc, words)
}

/// The classes of all these words.
fn classes_of(alloc: Global, words: &[Named]) -> Result<NamedClasses, WordsError>
    ensures { Reads (classes_of words.now) result }
{
    let mut classes = Vec::new(alloc);
    let mut rest = words;
    while let Some((word, others)) = rest.split_first() {
        let class = class_of(alloc, word)?;
        if classes.push(class).is_err() {
            return Err(WordsError::NoMemory);
        }
        rest = others;
    }
    Ok(NamedClasses::new(classes))
}

/// The class of a word.
fn class_of(alloc: Global, word: &Named) -> Result<NamedClass, WordsError>
    ensures { Reads (class_named word.now) result }
{
    let name = lawful_name(alloc, word.text.as_str())?;
    Ok(NamedClass {
        word: word.word,
        name,
    })
}
