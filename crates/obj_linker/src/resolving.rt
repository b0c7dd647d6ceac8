//! The checks of names and relocations over all objects.
ghost use Rattle.std.specs.Prelude.{◌≡◌, IfErr, IfOk, OnOk, None};
ghost use Rattle.std.specs.List.{find};
ghost use Rattle.obj_reader.specs.Fault.{IsAnswer};
ghost use Rattle.obj_reader.specs.Files.{files_of};
ghost use Rattle.obj_linker.specs.Known.{known_of};
ghost use Rattle.obj_linker.specs.Link as spec;
ghost use Rattle.obj_linker.specs.Pairs.{lows};
ghost use Rattle.obj_linker.specs.Sites.{is_undefined};
ghost use Rattle.obj_linker.specs.Whole.{relocation_fault_of};

use crate::entry::Entry;
use crate::meaning::Meaning;
use crate::name_table::{meanings_of, read_names};
use crate::named_symbols::name_symbols;
use crate::pairs::lower_halves;
use crate::sites::first_undefined;
use elf_definition::ObjFault;
use obj_reader::{ObjError, Relocation, Section, Tables, refusal};
use std::alloc::Global;

/// What the names of all objects mean.
#[derive(Drop)]
pub struct Resolved<'a> {
    /// For each relocation the offset of the lower half that goes with it, if there is one.
    pub lows: Vec<Option<u32>>,
    /// The name of the entry.
    pub entry: Entry<'a>,
    /// What each symbol means.
    pub meanings: Vec<Meaning>,
}

/// Finds what the names mean, with the checks of names and of what relocations need.
#[tactic(auto, unfolding(crate::specs::Link::names_fault))]
pub fn resolve<'a>(
    alloc: Global,
    objects: &[Vec<u8>],
    tables: &Tables,
    entry: &'a [u8],
) -> Result<Resolved<'a>, ObjError>
    ensures refused { IfErr result (IsAnswer (spec.names_fault (files_of objects.now)
        tables.now.sections.items tables.now.symbols.items tables.now.relocations.items)) }
    ensures passed { OnOk result (spec.names_fault (files_of objects.now)
        tables.now.sections.items tables.now.symbols.items tables.now.relocations.items ≡ None) }
    ensures lows { IfOk result (λ r. r.lows.items ≡ lows tables.now.relocations.items) }
    ensures name { IfOk result (λ r. r.entry.name.now ≡ entry.now) }
    ensures entry { IfOk result (λ r. r.entry.known
        ≡ known_of (files_of objects.now) tables.now.symbols.items r.entry.name.now) }
    ensures meanings { IfOk result (λ r. r.meanings.items
        ≡ spec.meanings_of (files_of objects.now) tables.now.symbols.items) }
{
    let relocations = tables.relocations.as_slice();
    let symbols = tables.symbols.as_slice();
    let lows = lower_halves(alloc, relocations)?;
    let named = name_symbols(alloc, objects, symbols, entry)?;
    let names = read_names(alloc, &named)?;
    let meanings = meanings_of(alloc, &named, &names)?;
    check_defined(tables.sections.as_slice(), meanings.as_slice(), relocations)?;
    let known = names.get(named.entry);
    Ok(Resolved {
        lows,
        entry: Entry { name: entry, known },
        meanings,
    })
}

/// Checks that each relocation's symbol means something, and is in no section without a place.
fn check_defined(
    sections: &[Section],
    meanings: &[Meaning],
    relocations: &[Relocation],
) -> Result<(), ObjError>
    ensures refused { IfErr result (IsAnswer
        (relocation_fault_of 11 (find (is_undefined sections.now meanings.now) relocations.now))) }
    ensures passed { OnOk result
        (find (is_undefined sections.now meanings.now) relocations.now ≡ None) }
{
    match first_undefined(sections, meanings, relocations) {
        Some(r) => Err(refusal(r.object, ObjFault::UNDEFINED, r.r_offset)),
        None => Ok(()),
    }
}
