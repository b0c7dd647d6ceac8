ghost use Rattle.std.specs.Prelude.{◌≡◌, []};
ghost use Rattle.clap.specs.Words.{first_value, found_of};
ghost use Rattle.command_words.specs.Answers.{Reads};
ghost use Rattle.command_words.specs.Meaning.{entry_in, link_from, linked_from, symbol_name};
ghost use Rattle.command_forms.specs.Word.{texts};

use crate::command::Command;
use crate::inputs::Inputs;
use crate::named::Named;
use crate::names::is_file_name;
use crate::plain::plain_words;
use crate::text::Text;
use clap::ArgMatches;
use command_forms::WordsError;
use std::alloc::Global;

/// The most files that are linked.
const MOST_INPUTS: usize = 256;

/// The command that links.
pub(crate) fn link(
    alloc: Global,
    words: &[String],
    matches: &ArgMatches<'_>,
) -> Result<Command, WordsError>
    ensures { Reads (link_from (texts words.now) (first_value (found_of matches.now)) []) result }
{
    linked(alloc, plain_words(alloc, words)?, matches)
}

/// The command that links to the file of the first of these words those of the others.
fn linked(alloc: Global, words: Vec<Named>, matches: &ArgMatches<'_>) -> Result<Command, WordsError>
    ensures { Reads (linked_from (first_value (found_of matches.now)) words.items) result }
{
    let mut inputs = words;
    if inputs.len() < 2 || inputs.len() - 1 > MOST_INPUTS {
        return Err(WordsError::NOT_LAWFUL);
    }
    let output = inputs.remove(0).text;
    let entry = entry(alloc, matches)?;
    Ok(Command::Link {
        output,
        inputs: Inputs::new(inputs),
        entry,
    })
}

/// The symbol at which the program begins, `__start` where the option is left out.
fn entry(alloc: Global, matches: &ArgMatches<'_>) -> Result<Text, WordsError>
    ensures { Reads (entry_in (first_value (found_of matches.now))) result }
{
    symbol_name(alloc, matches.get_str("entry").unwrap_or("__start"))
}

/// The symbol of a name.
fn symbol_name(alloc: Global, text: &str) -> Result<Text, WordsError>
    ensures { Reads (symbol_name text.now) result }
{
    if !is_file_name(text.as_bytes()) {
        return Err(WordsError::NOT_LAWFUL);
    }
    Ok(Text::new(String::from_str(alloc, text)?))
}
