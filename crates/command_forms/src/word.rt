ghost use Rattle.std.specs.Prelude.{◌≡◌, option_map, position};
ghost use Rattle.command_forms.specs.Word.{after_hyphen, has_some_value, is_end_of_words, is_equals, is_formed, is_option, is_plain, name_and_value, option_in, waits_for_value};

/// The name and the value of `--name` or `--name=value`.
#[derive(Clone, Copy, Debug)]
pub(crate) struct OptionWord<'a> {
    pub(crate) name: &'a [u8],
    pub(crate) value: Option<&'a [u8]>,
}

/// Whether the word ends the words that are read.
pub(crate) fn is_end(word: &str) -> bool
    ensures { result ≡ is_end_of_words word.now }
{
    word == "--"
}

/// Whether the word is not empty and does not begin with `-`.
pub fn is_plain(word: &[u8]) -> bool
    ensures { result ≡ is_plain word.now }
{
    match word {
        [] => false,
        [first, ..] => *first != b'-',
    }
}

/// Whether the word is a plain word, `--name`, or `--name=value` with a value that is not empty.
pub(crate) fn is_formed(word: &[u8]) -> bool
    ensures { result ≡ is_formed word.now }
{
    is_plain(word)
        || match option_in(word) {
            Some(option) => has_some_value(option.value),
            None => false,
        }
}

/// Whether the word is an option whose value is the next word.
pub fn waits_for_value(word: &[u8]) -> bool
    ensures { result ≡ waits_for_value word.now }
{
    match option_in(word) {
        Some(option) => option.value.is_none(),
        None => false,
    }
}

/// Whether the word is the option of this name.
pub(crate) fn is_option(name: &str, word: &[u8]) -> bool
    ensures { result ≡ is_option name.now word.now }
{
    match option_in(word) {
        Some(option) => option.name == name.as_bytes(),
        None => false,
    }
}

/// The option that the word is.
fn option_in(word: &[u8]) -> Option<OptionWord<'_>>
    ensures { option_map (λ o. (o.name.now, option_map (λ v. v.now) o.value)) result
        ≡ option_in word.now }
{
    let rest = after_hyphen(after_hyphen(word)?)?;
    name_and_value(rest)
}

/// What follows a first `-`.
fn after_hyphen(word: &[u8]) -> Option<&[u8]>
    ensures { option_map (λ w. w.now) result ≡ after_hyphen word.now }
{
    match word {
        [b'-', rest @ ..] => Some(rest),
        _ => None,
    }
}

/// What is before the first `=`, and after it if it is there.
fn name_and_value(text: &[u8]) -> Option<OptionWord<'_>>
    ensures { option_map (λ o. (o.name.now, option_map (λ v. v.now) o.value)) result
        ≡ name_and_value text.now }
{
    if text.is_empty() {
        return None;
    }
    match equals_at(text) {
        Some(at) => {
            let (name, _) = text.split_at(at);
            let (_, value) = text.split_at(at + 1);
            Some(OptionWord {
                name,
                value: Some(value),
            })
        }
        None => Some(OptionWord {
            name: text,
            value: None,
        }),
    }
}

/// The place of the first `=`.
fn equals_at(text: &[u8]) -> Option<usize>
    ensures { result ≡ position is_equals text.now }
{
    text.iter().position(|b| *b == b'=')
}

/// A value after `=` is not empty.
fn has_some_value(value: Option<&[u8]>) -> bool
    ensures { result ≡ has_some_value (option_map (λ v. v.now) value.entry) }
{
    match value {
        Some(text) => !text.is_empty(),
        None => true,
    }
}
