ghost use Rattle.std.specs.Prelude.{◌≡◌, IfOk, Ok, Err};
ghost use Rattle.command_words.specs.Answers.{Reads};
ghost use Rattle.command_words.specs.Limits.{IsWithinLimits};
ghost use Rattle.command_forms.specs.Forms.{command_form};
ghost use Rattle.command_words.specs.Meaning.{command_after, command_of, command_made, maker_of};
ghost use Rattle.command_forms.specs.Word.{texts};
ghost use Rattle.command_forms.specs.declared.usage.Usage.{Usage};

use crate::command::Command;
use crate::commands::make;
use command_forms::{CommandName, Usage, WordsError, cut, match_words, option_words, refuses_end};
use std::alloc::Global;

/// The command that the words mean. `words` are those after the program's name.
///
/// `Usage` comes exactly if the first word is missing or no command, or where the others break the rules of the command; but
/// it yields to running out of memory, as the command does.
pub fn read_words(alloc: Global, words: &[String]) -> Result<Command, WordsError>
    ensures ok { IfOk result (λ command. command_of (texts words.now) ≡ Ok command) }
    ensures limits { IfOk result IsWithinLimits }
    ensures usage { (fault : Usage) → result ≡ Err (WordsError.Usage fault)
        → command_of (texts words.now) ≡ Err fault }
{
    let Some((first, others)) = words.split_first() else {
        return Err(WordsError::Usage(Usage::NoCommand));
    };
    match CommandName::of(first.as_str()) {
        Some(name) => read_command(alloc, name, others),
        None => Err(WordsError::Usage(Usage::NoCommand)),
    }
}

/// The command that the words after its name mean.
fn read_command(alloc: Global, name: CommandName, words: &[String]) -> Result<Command, WordsError>
    ensures { Reads (command_after name (texts words.now)) result }
{
    if refuses_end(name, words) {
        return Err(WordsError::NOT_LAWFUL);
    }
    let (before, arguments) = cut(words);
    if name.repeats() {
        let options = option_words(alloc, before)?;
        read_formed(alloc, name, before, options.as_slice(), arguments)
    } else {
        read_formed(alloc, name, before, before, arguments)
    }
}

/// The command that words and arguments mean. `formed` are the words that the form of the command is read from.
fn read_formed(
    alloc: Global,
    name: CommandName,
    words: &[String],
    formed: &[String],
    arguments: &[String],
) -> Result<Command, WordsError>
    ensures { Reads (command_made (command_form name) (maker_of name) (texts words.now) (texts formed.now)
        (texts arguments.now)) result }
{
    let matches = match_words(alloc, formed, name.words(), name.options())?;
    make(alloc, name, words, &matches, arguments)
}
