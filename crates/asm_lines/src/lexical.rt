//! Lines, words and names.
ghost use Rattle.std.specs.Prelude.{◌≡◌, ◌==◌, ◌||◌, ◌<◌, ◌≤◌, ◌∷◌, IfSome, length, option_copied};
ghost use Rattle.asm_lines.specs.Cuts.{behind, lines_behind};
ghost use Rattle.asm_lines.specs.Lexical.{lines_of_text, before_byte, from, is_dark, up_to_last, trimmed_line, all, begins_name, goes_on_name};
ghost use Rattle.asm_lines.specs.Lexical as lexical;

/// A line without its comment, and without spaces and tabs at its ends.
pub fn bare_line(line: &[u8]) -> &[u8]
    ensures { result.now ≡ lexical.bare_line line.now }
{
    trim(before_byte(line, b'#'), b'\t')
}

/// The first word of a bare line, up to a space.
pub fn first_word(line: &[u8]) -> &[u8]
    ensures { result.now ≡ lexical.first_word line.now }
{
    before_byte(line, b' ')
}

/// What follows the first word of a bare line and the spaces after it.
pub fn after_word(line: &[u8]) -> &[u8]
    ensures { result.now ≡ lexical.after_word line.now }
{
    trim_start(from_byte(line, b' '), b' ')
}

/// Whether a word is a name: a letter or `_`, then letters, digits and `_`.
pub fn is_name(word: &[u8]) -> bool
    ensures { result ≡ lexical.is_name word.now }
{
    match word.split_first() {
        None => false,
        Some((first, rest)) => can_begin(*first) && all_go_on(rest),
    }
}

/// Without the blanks at both ends: spaces and `other`.
pub fn trim(bytes: &[u8], other: u8) -> &[u8]
    ensures { result.now ≡ trimmed_line other bytes.now }
{
    trim_end(trim_start(bytes, other), other)
}

/// The bytes before the first `stop`, or all.
#[tactic(auto, using(crate::proofs::LexicalLemmas::before_from, crate::proofs::LexicalLemmas::length_from))]
pub fn before_byte(bytes: &[u8], stop: u8) -> &[u8]
    ensures { result.now ≡ before_byte (λ b. b == stop) bytes.now }
{
    let rest = from_byte(bytes, stop);
    &bytes[..bytes.len() - rest.len()]
}

/// What is after the first `stop`, if there is one.
pub fn behind_byte(bytes: &[u8], stop: u8) -> Option<&[u8]>
    ensures value { option_copied result ≡ behind (from (λ b. b == stop) bytes.now) }
    ensures shorter { IfSome result (λ rest. length rest.now < length bytes.now) }
{
    match from_byte(bytes, stop).split_first() {
        None => None,
        Some((_, rest)) => Some(rest),
    }
}

/// The first line of a text, and what is after its line feed.
#[tactic(auto, using(crate::proofs::OperandLemmas::first_line))]
pub fn first_line(text: &[u8]) -> (&[u8], Option<&[u8]>)
    ensures lines { lines_of_text text.now ≡ result.0.now ∷ lines_behind (option_copied result.1) }
    ensures shorter { IfSome result.1 (λ rest. length rest.now < length text.now) }
{
    (before_byte(text, b'\n'), behind_byte(text, b'\n'))
}

/// The bytes from the first `stop` on, or none.
pub fn from_byte(bytes: &[u8], stop: u8) -> &[u8]
    ensures value { result.now ≡ from (λ b. b == stop) bytes.now }
    ensures short { length result.now ≤ length bytes.now }
{
    let mut left = bytes;
    while let Some((first, rest)) = left.split_first() {
        if *first == stop {
            return left;
        }
        left = rest;
    }
    left
}

fn trim_start(bytes: &[u8], other: u8) -> &[u8]
    ensures { result.now ≡ from (is_dark other) bytes.now }
{
    let mut left = bytes;
    while let Some((first, rest)) = left.split_first() {
        if !is_blank(*first, other) {
            return left;
        }
        left = rest;
    }
    left
}

#[tactic(auto, using(crate::proofs::LexicalLemmas::up_to_dark, crate::proofs::LexicalLemmas::up_to_blank))]
fn trim_end(bytes: &[u8], other: u8) -> &[u8]
    ensures { result.now ≡ up_to_last other bytes.now }
{
    let mut left = bytes;
    while let Some((last, rest)) = left.split_last() {
        if !is_blank(*last, other) {
            return left;
        }
        left = rest;
    }
    left
}

fn is_blank(b: u8, other: u8) -> bool
    ensures { result ≡ lexical.is_blank other b }
{
    b == b' ' || b == other
}

fn all_go_on(bytes: &[u8]) -> bool
    ensures { result ≡ all goes_on_name bytes.now }
{
    let mut left = bytes;
    while let Some((first, rest)) = left.split_first() {
        if !can_go_on(*first) {
            return false;
        }
        left = rest;
    }
    true
}

fn can_begin(b: u8) -> bool
    ensures { result ≡ begins_name b }
{
    (97 <= b && b <= 122) || (65 <= b && b <= 90) || b == 95
}

fn can_go_on(b: u8) -> bool
    ensures { result ≡ goes_on_name b }
{
    can_begin(b) || (48 <= b && b <= 57)
}

/// The name in a word that is a name and the byte `stop` after it.
#[tactic(auto, using(crate::proofs::LexicalLemmas::name_before_end))]
pub fn name_before(stop: u8, word: &[u8]) -> Option<&[u8]>
    ensures { option_copied result ≡ lexical.name_before stop word.now }
{
    match word.split_last() {
        Some((last, name)) if *last == stop && is_name(name) => Some(name),
        _ => None,
    }
}
