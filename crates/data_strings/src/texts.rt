//! The words of pages as characters.
ghost use Rattle.std.specs.Prelude.{◌≡◌, ◌++◌, ◌<◌, IfOk, OnOk};
ghost use Rattle.data_strings.specs.Texts as texts;

use std::alloc::{AllocError, Global};

/// Out of memory, the one error of `page_text`.
pub type NoMemory = AllocError;

/// The text of a page's words: five characters of 7 bits for each, most significant first, of the 35 bits that are three zeros and the
/// word. All its characters are below 128, so in a class file each takes one byte, or two where it is 0.
///
/// # Errors
/// Out of memory for the text.
pub fn page_text(alloc: Global, words: &[u32]) -> Result<Vec<u16>, NoMemory>
    ensures { IfOk result (λ text. text.items ≡ texts.page_text words.now) }
{
    let mut text = Vec::with_capacity(alloc, 5 * words.len())?;
    for word in words {
        append_word(*word, &mut text)?;
    }
    Ok(text)
}

fn append_word(word: u32, text: &mut Vec<u16>) -> Result<(), NoMemory>
    ensures { OnOk result (text.new.items ≡ text.old.items ++ texts.word_text word) }
{
    text.push(group(word, 4))?;
    text.push(group(word, 3))?;
    text.push(group(word, 2))?;
    text.push(group(word, 1))?;
    text.push(group(word, 0))?;
    Ok(())
}

// The i-th group of 7 bits, counted from the least significant.
fn group(word: u32, i: u32) -> u16
    requires { i < 5 }
    ensures { result ≡ texts.group word i }
{
    (word >> (7 * i) & 0x7f) as u16
}
