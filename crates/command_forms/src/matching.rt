ghost use Rattle.std.specs.Prelude.{◌≡◌, ◌≤◌, IfOk, length, map, string_bytes};
ghost use Rattle.std.specs.List.{list_all};
ghost use Rattle.clap.specs.Words.{app_of};
ghost use Rattle.command_forms.specs.Answers.{MatchesForm, shown};
ghost use Rattle.command_forms.specs.Builder.{bare_app, form_app, option_rule, with_rules, word_rules};
ghost use Rattle.command_forms.specs.Given.{form_from};
ghost use Rattle.command_forms.specs.Word.{is_formed, texts};

use crate::word::is_formed;
use crate::words_error::WordsError;
use clap::{Arg, ArgMatches, Command as Parser};
use std::alloc::{AllocError, Global};

/// Reads the words before `--` by the names of a command's plain words and options, which are a form.
///
/// `Usage` comes exactly if the words break the rules of the form, but it yields to running out of memory.
pub fn match_words<'a>(
    alloc: Global,
    words: &'a [String],
    names: &[&'a str],
    options: &[&'a str],
) -> Result<ArgMatches<'a>, WordsError>
    requires { length names.now ≤ 8 }
    ensures { MatchesForm (form_from names.now options.now) (texts words.entry.now) result }
{
    if !are_formed(words) {
        return Err(WordsError::NOT_LAWFUL);
    }
    let parser = parser_of(alloc, names, options)?;
    let matches = parser.try_get_matches_from(words)?;
    Ok(matches)
}

/// Whether each word is a plain word or an option.
fn are_formed(words: &[String]) -> bool
    ensures { result ≡ list_all (λ w. is_formed (string_bytes w)) words.now }
{
    words.iter().all(|word| is_formed(word.as_bytes()))
}

/// The parser of a command's words.
fn parser_of<'a>(
    alloc: Global,
    names: &[&'a str],
    options: &[&'a str],
) -> Result<Parser<'a>, AllocError>
    requires { length names.now ≤ 8 }
    ensures { IfOk result (λ p. app_of p ≡ form_app (form_from names.now options.now)) }
{
    let parser = with_options(alloc, bare_parser(alloc), options)?;
    with_words(alloc, parser, names)
}

/// A parser without arguments.
fn bare_parser<'a>(alloc: Global) -> Parser<'a>
    ensures { app_of result ≡ bare_app }
{
    Parser::new(alloc, "words")
        .no_binary_name(true)
        .disable_help_flag(true)
}

/// The parser with these options.
fn with_options<'a>(
    alloc: Global,
    parser: Parser<'a>,
    options: &[&'a str],
) -> Result<Parser<'a>, AllocError>
    ensures { IfOk result (λ p. app_of p
        ≡ with_rules (map option_rule (shown options.now)) (app_of parser.entry)) }
{
    let mut parser = parser;
    for name in options {
        parser = parser.arg(Arg::new(alloc, name).long(name))?;
    }
    Ok(parser)
}

/// The parser with these plain words.
fn with_words<'a>(
    alloc: Global,
    parser: Parser<'a>,
    names: &[&'a str],
) -> Result<Parser<'a>, AllocError>
    requires { length names.now ≤ 8 }
    ensures { IfOk result (λ p. app_of p
        ≡ with_rules (word_rules 1 (shown names.now)) (app_of parser.entry)) }
{
    let mut parser = parser;
    for (place, name) in names.iter().enumerate() {
        parser = parser.arg(Arg::new(alloc, name).index(place + 1))?;
    }
    Ok(parser)
}
