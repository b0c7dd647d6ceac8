ghost use Rattle.std.specs.Prelude.{[]};
ghost use Rattle.clap.specs.Words.{first_value, found_of};
ghost use Rattle.command_words.specs.Answers.{Reads};
ghost use Rattle.command_words.specs.Meaning.{asm_from, check_from, frames_command, go_from, interp_from, list_from, make_from, maker_of, pipe_from, run_from, translate_from, verify_from};
ghost use Rattle.command_forms.specs.Word.{texts};

use crate::classes::classes;
use crate::command::Command;
use crate::linking::link;
use crate::number::small_number_in;
use crate::plain::plain_words;
use crate::read::{
    class, disk, input, meter, method_bytes, name, pages, pipe_bytes, region_words, session, steps,
};
use crate::text::Text;
use clap::ArgMatches;
use command_forms::{CommandName, WordsError};
use std::alloc::Global;

/// The most steps of a guest.
const GUEST_STEPS: u64 = 1_099_511_627_776;

/// The most steps of a class.
const CLASS_STEPS: u64 = 1_125_899_906_842_624;

/// The command that the values mean. `words` are those before `--`.
pub(crate) fn make(
    alloc: Global,
    command: CommandName,
    words: &[String],
    matches: &ArgMatches<'_>,
    arguments: &[String],
) -> Result<Command, WordsError>
    ensures { Reads (maker_of command (texts words.now) (first_value (found_of matches.now))
        (texts arguments.now)) result }
{
    match command {
        CommandName::Go => go(alloc, words, matches, arguments),
        CommandName::Translate => translate(alloc, words, matches),
        CommandName::Interp => interp(alloc, words, matches, arguments),
        CommandName::Run => run(alloc, words, matches, arguments),
        CommandName::Verify => verify(alloc, words, matches),
        CommandName::Frames => frames(alloc, words, matches),
        CommandName::Check => check(alloc, words, matches),
        CommandName::Asm => asm(alloc, words, matches),
        CommandName::List => list(alloc, words, matches),
        CommandName::Make => counter(matches),
        CommandName::Link => link(alloc, words, matches),
        CommandName::Pipe => pipe(alloc, words, matches),
    }
}

fn go(
    alloc: Global,
    words: &[String],
    matches: &ArgMatches<'_>,
    arguments: &[String],
) -> Result<Command, WordsError>
    ensures { Reads (go_from (texts words.now) (first_value (found_of matches.now))
        (texts arguments.now)) result }
{
    let input = input(alloc, words, matches, "IN")?;
    let name = name(alloc, matches)?;
    let pages = pages(matches).ok_or(WordsError::NOT_LAWFUL)?;
    let method_bytes = method_bytes(matches).ok_or(WordsError::NOT_LAWFUL)?;
    let meter = meter(matches)?;
    let session = session(alloc, GUEST_STEPS, words, matches, arguments)?;
    Ok(Command::Go {
        input,
        name,
        pages,
        method_bytes,
        meter,
        session,
    })
}

fn translate(
    alloc: Global,
    words: &[String],
    matches: &ArgMatches<'_>,
) -> Result<Command, WordsError>
    ensures { Reads (translate_from (texts words.now) (first_value (found_of matches.now)) [])
        result }
{
    let input = input(alloc, words, matches, "IN")?;
    let name = name(alloc, matches)?;
    let pages = pages(matches).ok_or(WordsError::NOT_LAWFUL)?;
    let method_bytes = method_bytes(matches).ok_or(WordsError::NOT_LAWFUL)?;
    let meter = meter(matches)?;
    Ok(Command::Translate {
        input,
        name,
        pages,
        method_bytes,
        meter,
    })
}

fn interp(
    alloc: Global,
    words: &[String],
    matches: &ArgMatches<'_>,
    arguments: &[String],
) -> Result<Command, WordsError>
    ensures { Reads (interp_from (texts words.now) (first_value (found_of matches.now))
        (texts arguments.now)) result }
{
    let input = input(alloc, words, matches, "IN")?;
    let name = name(alloc, matches)?;
    let pages = pages(matches).ok_or(WordsError::NOT_LAWFUL)?;
    let session = session(alloc, GUEST_STEPS, words, matches, arguments)?;
    Ok(Command::Interp {
        input,
        name,
        pages,
        session,
    })
}

fn run(
    alloc: Global,
    words: &[String],
    matches: &ArgMatches<'_>,
    arguments: &[String],
) -> Result<Command, WordsError>
    ensures { Reads (run_from (texts words.now) (first_value (found_of matches.now))
        (texts arguments.now)) result }
{
    let class = class(alloc, words, matches)?;
    let region = region_words(matches).ok_or(WordsError::NOT_LAWFUL)?;
    let session = session(alloc, CLASS_STEPS, words, matches, arguments)?;
    Ok(Command::Run {
        class,
        words: region,
        session,
    })
}

fn verify(alloc: Global, words: &[String], matches: &ArgMatches<'_>) -> Result<Command, WordsError>
    ensures { Reads (verify_from (texts words.now) (first_value (found_of matches.now)) []) result }
{
    let class = class(alloc, words, matches)?;
    Ok(Command::Verify { class })
}

fn frames(alloc: Global, words: &[String], matches: &ArgMatches<'_>) -> Result<Command, WordsError>
    ensures { Reads (frames_command (texts words.now) (first_value (found_of matches.now)) []) result }
{
    let class = class(alloc, words, matches)?;
    Ok(Command::Frames { class })
}

fn check(alloc: Global, words: &[String], matches: &ArgMatches<'_>) -> Result<Command, WordsError>
    ensures { Reads (check_from (texts words.now) (first_value (found_of matches.now)) []) result }
{
    let class = class(alloc, words, matches)?;
    Ok(Command::Check { class })
}

fn asm(alloc: Global, words: &[String], matches: &ArgMatches<'_>) -> Result<Command, WordsError>
    ensures { Reads (asm_from (texts words.now) (first_value (found_of matches.now)) []) result }
{
    let input = input(alloc, words, matches, "IN")?;
    let output = matches.get_str("OUT").ok_or(WordsError::NOT_LAWFUL)?;
    let output = Text::new(String::from_str(alloc, output)?);
    Ok(Command::Asm { input, output })
}

fn list(alloc: Global, words: &[String], matches: &ArgMatches<'_>) -> Result<Command, WordsError>
    ensures { Reads (list_from (texts words.now) (first_value (found_of matches.now)) []) result }
{
    let input = input(alloc, words, matches, "IN")?;
    Ok(Command::List { input })
}

fn counter(matches: &ArgMatches<'_>) -> Result<Command, WordsError>
    ensures { Reads (make_from [] (first_value (found_of matches.now)) []) result }
{
    let count = matches.get_str("N").ok_or(WordsError::NOT_LAWFUL)?;
    let count = small_number_in(count, 1, 65_536).ok_or(WordsError::NOT_LAWFUL)?;
    let method_bytes = method_bytes(matches).ok_or(WordsError::NOT_LAWFUL)?;
    Ok(Command::Make {
        count,
        method_bytes,
    })
}

fn pipe(alloc: Global, words: &[String], matches: &ArgMatches<'_>) -> Result<Command, WordsError>
    ensures { Reads (pipe_from (texts words.now) (first_value (found_of matches.now)) []) result }
{
    let named = plain_words(alloc, words)?;
    let classes = classes(alloc, named.as_slice())?;
    let region = region_words(matches).ok_or(WordsError::NOT_LAWFUL)?;
    let steps = steps(matches, CLASS_STEPS).ok_or(WordsError::NOT_LAWFUL)?;
    let disk = disk(matches).ok_or(WordsError::NOT_LAWFUL)?;
    let pipe = pipe_bytes(matches).ok_or(WordsError::NOT_LAWFUL)?;
    Ok(Command::Pipe {
        classes,
        words: region,
        steps,
        disk,
        pipe,
    })
}
