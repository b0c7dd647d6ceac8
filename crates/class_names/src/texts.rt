//! Texts and their numbers: a text is compared once, when its number is sought.
ghost use Rattle.std.specs.Prelude.{◌≡◌, ℕ, List, map, IfOk};
ghost use Rattle.std.specs.List.{AllZip};
ghost use Rattle.class_names.specs.Numbers.{IsNumber, AreTexts, Keeps, entry_text};

use crate::link_error::NoMemory;
use constant_pool::Entry;
use indexmap::IndexSet;
use jvm_definition::Sequence;
use std::alloc::Global;

/// The texts that have a number: their place among them.
pub type Texts = IndexSet<Sequence<u16>>;

/// The empty text alone.
pub fn first_texts(alloc: Global) -> Result<Texts, NoMemory>
    ensures { IfOk result (λ texts. AreTexts texts.keys) }
{
    let mut texts = IndexSet::new(alloc);
    texts.insert(Sequence::new(Vec::new(alloc)))?;
    Ok(texts)
}

/// The number of a text, which it now has.
pub fn text_number(alloc: Global, texts: &mut Texts, text: &[u16]) -> Result<usize, NoMemory>
    requires { AreTexts texts.old.keys }
    ensures number { IfOk result (λ n. IsNumber texts.new.keys n text.now) }
    ensures texts { AreTexts texts.new.keys }
    ensures kept { Keeps texts.old.keys texts.new.keys }
{
    let text = Sequence::new(Vec::from_slice(alloc, text)?);
    let (number, _) = texts.insert_full(text)?;
    Ok(number)
}

// The number of an entry's text.
fn entry_number(alloc: Global, texts: &mut Texts, entry: &Entry) -> Result<usize, NoMemory>
    requires { AreTexts texts.old.keys }
    ensures number { IfOk result (λ n. IsNumber texts.new.keys n (entry_text entry.now)) }
    ensures texts { AreTexts texts.new.keys }
    ensures kept { Keeps texts.old.keys texts.new.keys }
{
    match entry {
        Entry::Utf8(text) => text_number(alloc, texts, text.as_slice()),
        _ => Ok(0),
    }
}

/// The numbers of the texts of a pool, one for each slot.
pub fn pool_numbers(
    alloc: Global,
    texts: &mut Texts,
    pool: &[Entry],
) -> Result<Vec<usize>, NoMemory>
    requires { AreTexts texts.old.keys }
    ensures numbers { IfOk result (λ numbers.
        AllZip (IsNumber texts.new.keys) numbers.items (map entry_text pool.now)) }
    ensures texts { AreTexts texts.new.keys }
    ensures kept { Keeps texts.old.keys texts.new.keys }
{
    let mut numbers = Vec::new(alloc);
    for entry in pool {
        let number = entry_number(alloc, texts, entry)?;
        numbers.push(number)?;
    }
    Ok(numbers)
}
