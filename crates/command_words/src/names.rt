ghost use Rattle.std.specs.Prelude.{◌≡◌, IfOk, map, string_bytes, option_map, bytes_eq, not, Some};
ghost use Rattle.std.specs.List.{list_any, list_all};
ghost use Rattle.command_forms.specs.Answers.{shown};
ghost use Rattle.command_words.specs.Answers.{Reads};
ghost use Rattle.command_words.specs.Values.{all_different, are_arguments, are_file_names, has_zero, is_file_name, names_in, comma_names};
ghost use Rattle.command_forms.specs.Word.{texts};

use crate::texts::Texts;
use command_forms::WordsError;
use std::alloc::{AllocError, Global};

/// Whether no argument has a byte 0.
pub(crate) fn are_arguments(arguments: &[String]) -> bool
    ensures { result ≡ list_all (λ a. not (has_zero (string_bytes a))) arguments.now }
{
    arguments.iter().all(|a| !has_zero(a.as_bytes()))
}

/// The names that `--with` or `--keep` gives, none where it is left out.
pub(crate) fn names_in(alloc: Global, text: Option<&str>) -> Result<Texts, WordsError>
    ensures { Reads (names_in (option_map (λ t. t.now) text.entry)) result }
{
    match text {
        Some(text) => file_names(alloc, text),
        None => Ok(Texts::new(Vec::new(alloc))),
    }
}

/// The names between the commas, if they are names of files.
fn file_names(alloc: Global, text: &str) -> Result<Texts, WordsError>
    ensures { Reads (names_in (Some text.now)) result }
{
    let names = split_names(alloc, text)?;
    if !are_file_names(&names) {
        return Err(WordsError::NOT_LAWFUL);
    }
    let names = copied(alloc, &names)?;
    Ok(Texts::new(names))
}

/// The texts between the commas.
fn split_names<'a>(alloc: Global, text: &'a str) -> Result<Vec<&'a str>, AllocError>
    ensures { IfOk result (λ v. shown v.items ≡ comma_names text.entry.now) }
{
    text.split(',').collect(alloc)
}

/// Whether there are 64 names at most, all different, each of 1 to 255 bytes and none of these 0.
#[tactic(auto, using(crate::proofs::NameLemmas::too_many, crate::proofs::NameLemmas::some_bad, crate::proofs::NameLemmas::all_good))]
fn are_file_names(names: &[&str]) -> bool
    ensures { result ≡ are_file_names (shown names.now) }
{
    if names.len() > 64 {
        return false;
    }
    if !all_file_names(names) {
        return false;
    }
    all_different(names)
}

fn all_file_names(names: &[&str]) -> bool
    ensures { result ≡ list_all (λ n. is_file_name n.now) names.now }
{
    names.iter().all(|name| is_file_name(name.as_bytes()))
}

/// Whether the text has 1 to 255 bytes, and none of them is 0.
pub(crate) fn is_file_name(name: &[u8]) -> bool
    ensures { result ≡ is_file_name name.now }
{
    1 <= name.len() && name.len() <= 255 && !has_zero(name)
}

fn has_zero(text: &[u8]) -> bool
    ensures { result ≡ has_zero text.now }
{
    text.iter().any(|b| *b == 0)
}

fn all_different(names: &[&str]) -> bool
    ensures { result ≡ all_different (shown names.now) }
{
    match names.split_first() {
        Some((name, others)) => {
            if is_among(others, name) {
                false
            } else {
                all_different(others)
            }
        }
        None => true,
    }
}

fn is_among(names: &[&str], name: &str) -> bool
    ensures { result ≡ list_any (λ n. bytes_eq n.now name.now) names.now }
{
    names.iter().any(|n| *n == name)
}

/// The texts, in memory of their own.
fn copied(alloc: Global, names: &[&str]) -> Result<Vec<String>, AllocError>
    ensures { IfOk result (λ v. map string_bytes v.items ≡ shown names.now) }
{
    let mut texts = Vec::new(alloc);
    for name in names {
        texts.push(String::from_str(alloc, name)?)?;
    }
    Ok(texts)
}

/// The words, in memory of their own.
pub(crate) fn copied_words(alloc: Global, words: &[String]) -> Result<Vec<String>, AllocError>
    ensures { IfOk result (λ v. map string_bytes v.items ≡ texts words.now) }
{
    let mut texts = Vec::new(alloc);
    for word in words {
        texts.push(String::from_str(alloc, word.as_str())?)?;
    }
    Ok(texts)
}
