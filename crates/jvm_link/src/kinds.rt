//! The types that descriptors name (JVM Specification, 4.3).
ghost use Rattle.std.specs.Prelude.{◌≡◌, IfOk, codes};
ghost use Rattle.class_definition.specs.NameGrammar.{same_text};
ghost use Rattle.class_definition.specs.Linking as linking;

use class_names::NoMemory;
use constant_pool::after_field;
use jvm_definition::Kind;
use std::alloc::Global;

/// `I`, `[I` and `[[I`.
const INT: [u16; 1] = [73];

const INTS: [u16; 2] = [91, 73];

const PAGES: [u16; 3] = [91, 91, 73];

/// The type that a field descriptor names.
pub fn kind_of(descriptor: &[u16]) -> Kind
    ensures { result ≡ linking.descriptor_kind descriptor.now }
{
    if descriptor == INT.as_slice() {
        Kind::Int
    } else if descriptor == INTS.as_slice() {
        Kind::Ints
    } else if is_pages(descriptor) {
        Kind::Pages
    } else {
        Kind::Text
    }
}

/// Whether a text is `[[I`.
fn is_pages(text: &[u16]) -> bool
    ensures { result ≡ same_text text.now (codes "[[I") }
{
    text == PAGES.as_slice()
}

/// Whether a text is `[I`.
pub fn is_ints(text: &[u16]) -> bool
    ensures { result ≡ same_text text.now (codes "[I") }
{
    text == INTS.as_slice()
}

// The type that the field descriptor at the front of a text names.
fn front_kind(text: &[u16]) -> Kind
    ensures { result ≡ linking.front_kind text.now }
{
    if text.starts_with(&INT) {
        Kind::Int
    } else if text.starts_with(&INTS) {
        Kind::Ints
    } else if text.starts_with(&PAGES) {
        Kind::Pages
    } else {
        Kind::Text
    }
}

/// The types of the parameters that a method descriptor names.
pub fn parameters_of(alloc: Global, descriptor: &[u16]) -> Result<Vec<Kind>, NoMemory>
    ensures { IfOk result (λ kinds. kinds.items ≡ linking.parameters_of descriptor.now) }
{
    match descriptor.split_first() {
        None => Ok(Vec::new(alloc)),
        Some((_, rest)) => parameters_from(alloc, rest),
    }
}

// The types of at most 255 parameters from the front of a text on.
fn parameters_from(alloc: Global, text: &[u16]) -> Result<Vec<Kind>, NoMemory>
    ensures { IfOk result (λ kinds. kinds.items ≡ linking.parameters_from 255 text.now) }
{
    let mut kinds = Vec::new(alloc);
    let mut rest = text;
    for _ in 0..255u32 {
        match after_field(rest) {
            None => return Ok(kinds),
            Some(behind) => {
                kinds.push(front_kind(rest))?;
                rest = behind;
            }
        }
    }
    Ok(kinds)
}

/// Whether a method of a descriptor gives an int.
pub fn gives_int(descriptor: &[u16]) -> bool
    ensures { result ≡ linking.gives_int descriptor.now }
{
    match descriptor.last() {
        Some(c) => *c == 73,
        None => false,
    }
}
