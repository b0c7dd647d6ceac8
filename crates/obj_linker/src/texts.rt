//! Texts by numbers, so that two texts are the same exactly if their numbers are. A text that is not empty is its first byte and
//! the number of the rest, so each text takes one step where the rest has its number.
ghost use Rattle.std.specs.Prelude.{◌≡◌, ◌==◌, ℕ, List, ◌∷◌, IfOk, OnOk, if◌then◌else◌};
ghost use Rattle.std.specs.List.{AllZip};
ghost use Rattle.obj_linker.specs.Texts.{AreApart, IsNumber, Keeps, IsNumberWith, texts_within};

use crate::letter::Letter;
use indexmap::IndexSet;
use std::alloc::{AllocError, Global};

/// The texts that have a number, one more than their place; that of the empty text is 0.
pub type Texts = IndexSet<Letter>;

/// The number of a text with a byte before it.
fn number_before(texts: &mut Texts, byte: u8, rest: usize) -> Result<usize, AllocError>
    ensures number { IfOk result (λ n. (text : List ℕ) → IsNumber texts.old.keys rest text
        → IsNumber texts.new.keys n (byte ∷ text)) }
    ensures kept { OnOk result (Keeps texts.old.keys texts.new.keys) }
    ensures apart { OnOk result (AreApart texts.new.keys) }
{
    let (place, _) = texts.insert_full(Letter { byte, rest })?;
    let _count = texts.len();
    Ok(place + 1)
}

/// The number of a text.
pub fn number_of(texts: &mut Texts, text: &[u8]) -> Result<usize, AllocError>
    requires { AreApart texts.old.keys }
    ensures number { IfOk result (λ n. IsNumber texts.new.keys n text.now) }
    ensures kept { OnOk result (Keeps texts.old.keys texts.new.keys) }
    ensures apart { OnOk result (AreApart texts.new.keys) }
{
    let mut number = 0;
    let mut rest = text;
    while let Some((byte, before)) = rest.split_last() {
        let next = number_before(texts, *byte, number)?;
        number = next;
        rest = before;
    }
    Ok(number)
}

/// The number of what begins with a byte and goes on with a text: a 00 ends it.
fn number_with(texts: &mut Texts, byte: u8, rest: usize) -> Result<usize, AllocError>
    requires { AreApart texts.old.keys }
    ensures number { IfOk result (IsNumberWith texts.old.keys texts.new.keys byte rest) }
    ensures kept { OnOk result (Keeps texts.old.keys texts.new.keys) }
    ensures apart { OnOk result (AreApart texts.new.keys) }
{
    if byte == 0 {
        return Ok(0);
    }
    number_before(texts, byte, rest)
}

/// The numbers of the texts that begin at the places of some bytes and after them, each up to a 00.
pub fn numbers_within(
    alloc: Global,
    texts: &mut Texts,
    bytes: &[u8],
) -> Result<Vec<usize>, AllocError>
    requires { AreApart texts.old.keys }
    ensures numbers { IfOk result (λ numbers.
        AllZip (IsNumber texts.new.keys) numbers.items (texts_within bytes.now)) }
    ensures kept { OnOk result (Keeps texts.old.keys texts.new.keys) }
    ensures apart { OnOk result (AreApart texts.new.keys) }
{
    let mut numbers = Vec::new(alloc);
    let mut number = 0;
    numbers.push(number)?;
    let mut rest = bytes;
    while let Some((byte, before)) = rest.split_last() {
        let next = number_with(texts, *byte, number)?;
        numbers.push(next)?;
        number = next;
        rest = before;
    }
    numbers.reverse();
    Ok(numbers)
}
