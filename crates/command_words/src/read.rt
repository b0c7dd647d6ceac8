ghost use Rattle.std.specs.Prelude.{◌≡◌, if◌then◌else◌};
ghost use Rattle.command_forms.specs.Given.{value_place};
ghost use Rattle.clap.specs.Words.{first_value, found_of};
ghost use Rattle.nv_values.specs.MeterTurns.{least_meter_turns, most_meter_turns};
ghost use Rattle.nv_values.specs.Names.{lawful_name};
ghost use Rattle.command_words.specs.Answers.{Reads};
ghost use Rattle.command_words.specs.Meaning.{arguments_in, class_word, disk_in, heap_in, input_in, meter_in, method_bytes_in, name_in, name_list_in, pages_in, pipe_bytes_in, region_words_in, session_in, stack_in, steps_in, word_number};
ghost use Rattle.command_words.specs.Values.{number_in};
ghost use Rattle.command_forms.specs.Word.{texts};

use crate::name_list::NameList;
use crate::named::Named;
use crate::named_class::NamedClass;
use crate::names::{are_arguments, copied_words, names_in};
use crate::number::{number_or, small_number_in, small_number_or};
use crate::pages::Pages;
use crate::place::word_number;
use crate::session::Session;
use crate::text::Text;
use crate::texts::Texts;
use clap::ArgMatches;
use command_forms::{WordsError, value_place, word_place};
use nv_values::{ClassName, MeterTurns, MethodBytes, PipeBytes, RegionWords};
use std::alloc::{AllocError, Global};

/// The words of a region where the option is left out.
const REGION_WORDS: u32 = 4_194_304;

/// The bytes that make a pipe full where the option is left out.
const PIPE_BYTES: u32 = 4_096;

/// The file that the first plain word names.
pub(crate) fn input(
    alloc: Global,
    words: &[String],
    matches: &ArgMatches<'_>,
    name: &str,
) -> Result<Named, WordsError>
    ensures { Reads (input_in (texts words.now) name.now (first_value (found_of matches.now)))
        result }
{
    let text = matches.get_str(name).ok_or(WordsError::NOT_LAWFUL)?;
    let text = Text::new(String::from_str(alloc, text)?);
    Ok(Named {
        word: word_number(word_place(words)),
        text,
    })
}

/// The class that the first plain word names.
pub(crate) fn class(
    alloc: Global,
    words: &[String],
    matches: &ArgMatches<'_>,
) -> Result<NamedClass, WordsError>
    ensures { Reads (class_word (texts words.now) (first_value (found_of matches.now))) result }
{
    let text = matches.get_str("NAME").ok_or(WordsError::NOT_LAWFUL)?;
    let name = lawful_name(alloc, text)?;
    Ok(NamedClass {
        word: word_number(word_place(words)),
        name,
    })
}

/// The name of the classes, `Main` where the option is left out.
pub(crate) fn name(alloc: Global, matches: &ArgMatches<'_>) -> Result<ClassName, WordsError>
    ensures { Reads (name_in (first_value (found_of matches.now))) result }
{
    lawful_name(alloc, matches.get_str("name").unwrap_or("Main"))
}

/// The class of a name.
pub(crate) fn lawful_name(alloc: Global, text: &str) -> Result<ClassName, WordsError>
    ensures { Reads (lawful_name text.now) result }
{
    ClassName::new(String::from_str(alloc, text)?).ok_or(WordsError::NOT_LAWFUL)
}

/// The names that an option gives, with the number of its word.
fn name_list(
    alloc: Global,
    words: &[String],
    matches: &ArgMatches<'_>,
    name: &str,
) -> Result<NameList, WordsError>
    ensures { Reads (name_list_in (texts words.now) name.now (first_value (found_of matches.now)))
        result }
{
    let text = matches.get_str(name);
    let names = names_in(alloc, text)?;
    let word = list_word(words, name, text.is_some());
    Ok(NameList { word, names })
}

/// The number of an option's word, 0 where it is left out.
fn list_word(words: &[String], name: &str, is_given: bool) -> u32
    ensures { result ≡ (if is_given then word_number (value_place name.now (texts words.now))
        else 0) }
{
    if is_given {
        word_number(value_place(name, words))
    } else {
        0
    }
}

/// The sizes of the heap and the stack.
pub(crate) fn pages(matches: &ArgMatches<'_>) -> Option<Pages>
    ensures { result ≡ pages_in (first_value (found_of matches.now)) }
{
    let heap = small_number_or(matches.get_str("heap"), 0, 32_768, 256)?;
    let stack = small_number_or(matches.get_str("stack"), 1, 32_768, 64)?;
    Some(Pages { heap, stack })
}

/// The greatest length of a method.
pub(crate) fn method_bytes(matches: &ArgMatches<'_>) -> Option<MethodBytes>
    ensures { result ≡ method_bytes_in (first_value (found_of matches.now)) }
{
    let count = small_number_or(
        matches.get_str("method-bytes"),
        0,
        u32::MAX,
        MethodBytes::MOST,
    )?;
    MethodBytes::new(count)
}

/// How many instructions a meter allows, None where there is no meter. With a meter there is no bound of steps.
pub(crate) fn meter(matches: &ArgMatches<'_>) -> Result<Option<MeterTurns>, WordsError>
    ensures { Reads (meter_in (first_value (found_of matches.now))) result }
{
    let Some(text) = matches.get_str("meter") else {
        return Ok(None);
    };
    if matches.get_str("steps").is_some() {
        return Err(WordsError::NOT_LAWFUL);
    }
    let turns = meter_turns(text).ok_or(WordsError::NOT_LAWFUL)?;
    Ok(Some(turns))
}

/// The number of instructions that the text writes.
fn meter_turns(text: &str) -> Option<MeterTurns>
    ensures { result ≡ number_in least_meter_turns most_meter_turns text.now }
{
    let count = small_number_in(text, 0, u32::MAX)?;
    MeterTurns::new(count)
}

/// The words of the class machine's region.
pub(crate) fn region_words(matches: &ArgMatches<'_>) -> Option<RegionWords>
    ensures { result ≡ region_words_in (first_value (found_of matches.now)) }
{
    let count = small_number_or(matches.get_str("words"), 0, u32::MAX, REGION_WORDS)?;
    RegionWords::new(count)
}

/// The steps, of which `most` are the greatest number and the default.
pub(crate) fn steps(matches: &ArgMatches<'_>, most: u64) -> Option<u64>
    ensures { result ≡ steps_in most (first_value (found_of matches.now)) }
{
    number_or(matches.get_str("steps"), 0, most, most)
}

/// The blocks of the disk.
pub(crate) fn disk(matches: &ArgMatches<'_>) -> Option<u32>
    ensures { result ≡ disk_in (first_value (found_of matches.now)) }
{
    small_number_or(matches.get_str("disk"), 0, 65_536, 1_024)
}

/// The bytes that make a pipe full.
pub(crate) fn pipe_bytes(matches: &ArgMatches<'_>) -> Option<PipeBytes>
    ensures { result ≡ pipe_bytes_in (first_value (found_of matches.now)) }
{
    let count = small_number_or(matches.get_str("pipe"), 0, u32::MAX, PIPE_BYTES)?;
    PipeBytes::new(count)
}

/// How a guest or a class is run, in at most `most` steps.
pub(crate) fn session(
    alloc: Global,
    most: u64,
    words: &[String],
    matches: &ArgMatches<'_>,
    arguments: &[String],
) -> Result<Session, WordsError>
    ensures { Reads (session_in most (texts words.now) (first_value (found_of matches.now))
        (texts arguments.now)) result }
{
    let steps = steps(matches, most).ok_or(WordsError::NOT_LAWFUL)?;
    let disk = disk(matches).ok_or(WordsError::NOT_LAWFUL)?;
    let with = name_list(alloc, words, matches, "with")?;
    let keep = name_list(alloc, words, matches, "keep")?;
    let arguments = arguments_in(alloc, arguments)?;
    Ok(Session {
        steps,
        disk,
        with,
        keep,
        arguments,
    })
}

/// The arguments.
fn arguments_in(alloc: Global, arguments: &[String]) -> Result<Texts, WordsError>
    ensures { Reads (arguments_in (texts arguments.now)) result }
{
    if !are_arguments(arguments) {
        return Err(WordsError::NOT_LAWFUL);
    }
    let texts = copied_words(alloc, arguments)?;
    Ok(Texts::new(texts))
}
