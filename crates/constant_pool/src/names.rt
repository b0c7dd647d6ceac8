//! The names and descriptors of the classes here (JVM Specification, 4.2 and 4.3), of which only some are taken.
ghost use Rattle.std.specs.Prelude.{◌≡◌, ◌==◌, if◌then◌else◌, codes, option_map};
ghost use Rattle.std.specs.Option.{option_and_then};
ghost use Rattle.std.specs.List.{list_all};
ghost use Rattle.class_definition.specs.NameGrammar as profile;
ghost use Rattle.class_definition.specs.Named as format;

const ARRAY: [u16; 2] = [91, 73];

const PAGES: [u16; 3] = [91, 91, 73];

const STRING: [u16; 18] = [
    76, 106, 97, 118, 97, 47, 108, 97, 110, 103, 47, 83, 116, 114, 105, 110, 103, 59,
];

/// The descriptor of `String.charAt`, `(I)C`.
const CHARACTER_AT: [u16; 4] = [40, 73, 41, 67];

/// Whether a text can be the name of a field or method: one or more letters, digits, `_` and `$`.
pub fn is_member_name(text: &[u16]) -> bool
    ensures { result ≡ profile.is_member_name text.now }
{
    !text.is_empty() && are_part_characters(text)
}

fn are_part_characters(text: &[u16]) -> bool
    ensures { result ≡ list_all profile.is_part_character text.now }
{
    let mut rest = text;
    while let Some((c, others)) = rest.split_first() {
        if !is_part_character(*c) {
            return false;
        }
        rest = others;
    }
    true
}

/// Whether a text can be the name of a class: such parts, joined by `/`.
pub fn is_class_name(text: &[u16]) -> bool
    ensures { result ≡ profile.is_class_file_name text.now }
{
    let mut inside = false;
    let mut rest = text;
    while let Some((c, others)) = rest.split_first() {
        if !goes_on_name(inside, *c) {
            return false;
        }
        inside = *c != 47;
        rest = others;
    }
    inside
}

// Whether a class name may go on with a character.
fn goes_on_name(inside: bool, c: u16) -> bool
    ensures { result ≡ (if c == 47 then inside else profile.is_part_character c) }
{
    if c == 47 {
        inside
    } else {
        is_part_character(c)
    }
}

fn is_part_character(c: u16) -> bool
    ensures { result ≡ profile.is_part_character c }
{
    (97 <= c && c <= 122) || (65 <= c && c <= 90) || (48 <= c && c <= 57) || c == 95 || c == 36
}

/// Whether a text is `[I` or `[[I`.
pub fn is_array_name(text: &[u16]) -> bool
    ensures { result ≡ profile.is_array_name text.now }
{
    text == ARRAY.as_slice() || text == PAGES.as_slice()
}

/// Whether a text is the descriptor of a field: `I`, `[I`, `[[I` or `Ljava/lang/String;`.
pub fn is_field_descriptor(text: &[u16]) -> bool
    ensures { result ≡ profile.is_field_descriptor text.now }
{
    match after_field(text) {
        None => false,
        Some(rest) => rest.is_empty(),
    }
}

/// Whether a text is the descriptor of a method that a class names: `(`, at most 255 field descriptors, `)`, and `I` or `V`;
/// or `(I)C`.
pub fn is_method_descriptor(text: &[u16]) -> bool
    ensures { result ≡ profile.is_method_descriptor text.now }
{
    gives_int_or_nothing(text) || text == CHARACTER_AT.as_slice()
}

/// Whether a text is the descriptor of a method of a class here: such a one, but for `(I)C`.
pub fn is_own_descriptor(text: &[u16]) -> bool
    ensures { result ≡ format.is_own_descriptor text.now }
{
    is_method_descriptor(text) && text != CHARACTER_AT.as_slice()
}

fn gives_int_or_nothing(text: &[u16]) -> bool
    ensures { result ≡ profile.gives_int_or_nothing text.now }
{
    match after_descriptors(text) {
        None => false,
        Some(rest) => rest == [73].as_slice() || rest == [86].as_slice(),
    }
}

// What follows the parameters of a method descriptor.
fn after_descriptors(text: &[u16]) -> Option<&[u16]>
    ensures { option_map (λ x. x.now) result
        ≡ option_and_then (profile.after_parameters 255) (profile.after_front (codes "(") text.now) }
{
    after_parameters(after(text, &[40])?)
}

fn after_parameters(text: &[u16]) -> Option<&[u16]>
    ensures { option_map (λ x. x.now) result ≡ profile.after_parameters 255 text.now }
{
    let mut rest = text;
    for _ in 0..255u32 {
        match after(rest, &[41]) {
            Some(behind) => return Some(behind),
            None => match after_field(rest) {
                None => return None,
                Some(behind) => rest = behind,
            },
        }
    }
    after(rest, &[41])
}

/// What follows a field descriptor at the front of a text; None exactly if none is there.
#[tactic(auto, unfolding(class_definition::specs::NameGrammar::after_field))]
pub fn after_field(text: &[u16]) -> Option<&[u16]>
    ensures { option_map (λ x. x.now) result ≡ profile.after_field text.now }
{
    if let Some(rest) = after(text, &[73]) {
        return Some(rest);
    }
    if let Some(rest) = after(text, &ARRAY) {
        return Some(rest);
    }
    if let Some(rest) = after(text, &PAGES) {
        return Some(rest);
    }
    after(text, &STRING)
}

// What follows a text at the front.
fn after<'a>(text: &'a [u16], front: &[u16]) -> Option<&'a [u16]>
    ensures { option_map (λ x. x.now) result ≡ profile.after_front front.now text.now }
{
    if text.starts_with(front) {
        Some(text.split_at(front.len()).1)
    } else {
        None
    }
}
