//! The names of classes that a class asks for.
ghost use Rattle.std.specs.Prelude.{◌≡◌, ◌<◌, All, IfOk, IfSome, None, option_map, string_bytes};
ghost use Rattle.std.specs.Option.{option_to_list};
ghost use Rattle.class_definition.specs.PoolChecks.{pool_entry_fault};
ghost use Rattle.class_definition.specs.declared.entry.Entry.TheVariants.{ClassName};
ghost use Rattle.class_sets.specs.ClassSets.{asked_in, has_file};

use class_names::is_known;
use constant_pool::{Entry, is_array_name, text_of};
use std::alloc::{AllocError, Global};

/// The name that an entry of a class asks for by the text in a slot, which is ASCII; None exactly if it is that of a type of
/// arrays or of a known class.
pub fn asked_name(pool: &[Entry], slot: u16) -> Option<&[u16]>
    requires { pool_entry_fault pool.now (ClassName slot) ≡ None }
    ensures name { option_to_list (option_map (λ x. x.now) result)
        ≡ asked_in pool.now (ClassName slot) }
    ensures plain { IfSome result (λ x. All (λ c. c < 128) x.now) }
{
    let name = text_of(pool, slot)?;
    if has_file(name) { Some(name) } else { None }
}

// Whether a class of this name has a file.
fn has_file(name: &[u16]) -> bool
    ensures { result ≡ has_file name.now }
{
    !is_array_name(name) && !is_known(name)
}

/// An ASCII text.
pub fn plain_text(alloc: Global, characters: &[u16]) -> Result<String, AllocError>
    requires { All (λ c. c < 128) characters.now }
    ensures { IfOk result (λ text. string_bytes text ≡ characters.now) }
{
    let mut text = String::new(alloc);
    for c in characters {
        text.push(char::from(*c as u8))?;
    }
    Ok(text)
}
