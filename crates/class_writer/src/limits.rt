//! How much a class file can hold.
ghost use Rattle.std.specs.Prelude.{◌≡◌};
ghost use Rattle.std.specs.List.{list_any};
ghost use Rattle.class_writer.specs.Limits as format;

use constant_pool::{Entry, text_size};
use jvm_code::Class;

const MAX_SLOTS: usize = 65_534;

/// The greatest number of fields, of methods, and of bytes in a text.
const MAX: usize = 65_535;

/// The first limit that a class exceeds.
pub fn limit_of(class: &Class) -> Option<u32>
    ensures { result ≡ format.limit class.now }
{
    if MAX_SLOTS < class.pool.as_slice().len() {
        Some(1)
    } else if MAX < class.fields.as_slice().len() {
        Some(2)
    } else if MAX < class.methods.as_slice().len() {
        Some(3)
    } else {
        text_limit(class.pool.as_slice())
    }
}

fn text_limit(entries: &[Entry]) -> Option<u32>
    ensures { result ≡ format.text_limit entries.now }
{
    if is_any_text_long(entries) {
        Some(4)
    } else {
        None
    }
}

fn is_any_text_long(entries: &[Entry]) -> bool
    ensures { result ≡ list_any format.has_long_text entries.now }
{
    let mut rest = entries;
    while let Some((entry, others)) = rest.split_first() {
        if has_long_text(entry) {
            return true;
        }
        rest = others;
    }
    false
}

fn has_long_text(entry: &Entry) -> bool
    ensures { result ≡ format.has_long_text entry.now }
{
    match entry {
        Entry::Utf8(text) => MAX < text_size(text.as_slice()),
        _ => false,
    }
}
