//! Where a program begins.
ghost use Rattle.std.specs.Prelude.{◌≡◌};
ghost use Rattle.std.specs.List.{list_any};
ghost use Rattle.obj_linker.specs.Known.{name_definition};
ghost use Rattle.obj_reader.specs.Sections.{is_code_object_section};
ghost use Rattle.obj_linker.specs.Link as spec;

use crate::meaning::Meaning;
use crate::name::Name;
use crate::sites::{is_section_placed, value_of};
use obj_reader::Section;

/// The name of a symbol at which a program begins.
#[derive(Clone, Copy)]
pub struct Entry<'a> {
    pub name: &'a [u8],
    /// What is known of it.
    pub known: Name,
}

/// The address of a name that is defined in a section with a place, among all sections and their places.
pub fn entry_of(entry: &Name, sections: &[Section], places: &[u32]) -> Option<u32>
    ensures { result ≡ spec.entry_address sections.now places.now
        (spec.defined_meaning (name_definition entry.now)) }
{
    let meaning = match entry.definition() {
        Some(s) => Meaning::of(&s),
        None => Meaning::Nothing,
    };
    address_of(sections, places, meaning)
}

/// The address that a symbol means, in a section with a place.
fn address_of(sections: &[Section], places: &[u32], meaning: Meaning) -> Option<u32>
    ensures { result ≡ spec.entry_address sections.now places.now meaning }
{
    match meaning {
        Meaning::InSection(section, _) => {
            if is_section_placed(sections, section) {
                Some(value_of(places, meaning))
            } else {
                None
            }
        }
        Meaning::Number(_) | Meaning::Nothing => None,
    }
}

/// Whether some section that gets a place is code.
pub fn has_code(sections: &[Section]) -> bool
    ensures { result ≡ list_any is_code_object_section sections.now }
{
    sections.iter().any(|s| s.is_code())
}
