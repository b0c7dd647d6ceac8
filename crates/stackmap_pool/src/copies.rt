//! Entries once more.
ghost use Rattle.std.specs.Prelude.{◌≡◌, IfOk};

use constant_pool::Entry;
use jvm_definition::Sequence;
use std::alloc::{AllocError, Global};

/// The same entries.
pub fn copies_of(alloc: Global, entries: &[Entry]) -> Result<Vec<Entry>, AllocError>
    ensures { IfOk result (λ v. v.items ≡ entries.now) }
{
    let mut copies = Vec::new(alloc);
    let mut rest = entries;
    while let Some((entry, others)) = rest.split_first() {
        copies.push(copy_of(alloc, entry)?)?;
        rest = others;
    }
    Ok(copies)
}

fn copy_of(alloc: Global, entry: &Entry) -> Result<Entry, AllocError>
    ensures { IfOk result (λ e. e ≡ entry.now) }
{
    match entry {
        Entry::Utf8(text) => {
            let text = Vec::from_slice(alloc, text.as_slice())?;
            Ok(Entry::Utf8(Sequence::new(text)))
        }
        Entry::Integer(number) => Ok(Entry::Integer(*number)),
        Entry::Long(number) => Ok(Entry::Long(*number)),
        Entry::LongRest => Ok(Entry::LongRest),
        Entry::ClassName(name) => Ok(Entry::ClassName(*name)),
        Entry::Text(text) => Ok(Entry::Text(*text)),
        Entry::FieldRef(class, name) => Ok(Entry::FieldRef(*class, *name)),
        Entry::MethodRef(class, name) => Ok(Entry::MethodRef(*class, *name)),
        Entry::NameAnd(name, descriptor) => Ok(Entry::NameAnd(*name, *descriptor)),
    }
}
