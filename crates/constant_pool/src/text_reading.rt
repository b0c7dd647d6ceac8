//! Texts from bytes.
ghost use Rattle.std.specs.Prelude.{◌≡◌, ℕ, List, [], ◌∷◌, ◌++◌, IfOk, IfSome, option_map, Option};
ghost use Rattle.class_definition.specs.Utf8.{text_from, text_of_bytes, IsPartial};
ghost use Rattle.constant_pool.specs.Answer.{whole_text, goes_on};
ghost use Rattle.class_definition.specs.declared.partial.Partial.TheVariants.{Start};

use crate::error::NoMemory;
use crate::stepping::step_by;
use class_definition::{Partial, Step};
use jvm_definition::Sequence;
use std::alloc::Global;

/// The text whose modified UTF-8 the bytes are; None exactly if they are no text's.
pub fn read_text(alloc: Global, bytes: &[u8]) -> Result<Option<Sequence<u16>>, NoMemory>
    ensures { IfOk result (λ text. text ≡ text_of_bytes bytes.now) }
{
    let mut text = Vec::new(alloc);
    let mut partial = Partial::Start;
    let mut rest = bytes;
    while let Some((byte, others)) = rest.split_first() {
        match take_byte(&mut text, partial, *byte)? {
            None => return Ok(None),
            Some(next) => partial = next,
        }
        rest = others;
    }
    Ok(ended(text, partial))
}

// The text, where no character is begun.
#[tactic(auto, unfolding(class_definition::specs::Utf8::text_from))]
fn ended(text: Vec<u16>, partial: Partial) -> Option<Sequence<u16>>
    ensures { result ≡ whole_text text.items (text_from partial []) }
{
    match partial {
        Partial::Start => Some(Sequence::new(text)),
        _ => None,
    }
}

// Takes one more byte. Where it makes a character whole, that is added to the text. None: it makes no character.
fn take_byte(text: &mut Vec<u16>, partial: Partial, byte: u8) -> Result<Option<Partial>, NoMemory>
    requires { IsPartial partial }
    ensures bits { IfOk result (λ next. IfSome next IsPartial) }
    ensures goes_on { IfOk result (λ next. (rest : List ℕ)
        → whole_text text.new.items (goes_on next rest)
        ≡ whole_text text.old.items (text_from partial (byte ∷ rest))) }
{
    match step_by(partial, byte) {
        Step::More(next) => Ok(Some(next)),
        Step::Character(character) => {
            text.push(character)?;
            Ok(Some(Partial::Start))
        }
        Step::Wrong => Ok(None),
    }
}
