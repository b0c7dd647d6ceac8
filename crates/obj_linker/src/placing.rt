//! Where everything is placed, and the words that follow from it.
ghost use Rattle.std.specs.Prelude.{◌≡◌, ◌≤◌, IfErr, IfOk, OnOk, None, Some, false, not, ◌||◌, is_none, length};
ghost use Rattle.obj_linker.specs.Image.{linked_bytes};
ghost use Rattle.obj_linker.specs.Cursor.{IsEnds};
ghost use Rattle.obj_reader.specs.Fault.{IsAnswer, object_fails};
ghost use Rattle.obj_reader.specs.Files.{files_of};
ghost use Rattle.obj_linker.specs.Known.{known_of};
ghost use Rattle.obj_linker.specs.Layout.{is_too_large, places_of};
ghost use Rattle.obj_linker.specs.Link as spec;
ghost use Rattle.obj_linker.specs.Pairs.{lows};
ghost use Rattle.obj_linker.specs.Sites.{first_far, site_fault_of};

use crate::entry::{entry_of, has_code};
use crate::image::image_of;
use crate::layout::{Ends, TEXT_START, ends_of, places_of};
use crate::relocated::relocate;
use crate::resolving::Resolved;
use crate::sites::{Plan, sites_of};
use elf_definition::ObjFault;
use obj_reader::{ObjError, Section, Tables, refusal};
use std::alloc::Global;

/// A program: where it begins, its text and data, and where these end.
#[derive(Drop)]
pub struct Placed {
    /// The address of the first instruction.
    pub entry: u32,
    /// The text, and after it the data.
    pub image: Vec<u8>,
    /// Where the groups of sections end.
    pub ends: Ends,
}

/// Places the sections and relocates them, with the checks of sizes, jumps and the entry.
#[tactic(auto, unfolding(crate::specs::Link::program_fault, crate::specs::Link::entry_of))]
pub fn place(
    alloc: Global,
    objects: &[Vec<u8>],
    tables: &Tables,
    resolved: &Resolved,
) -> Result<Placed, ObjError>
    requires lows { resolved.now.lows.items ≡ lows tables.now.relocations.items }
    requires entry { resolved.now.entry.known ≡ known_of (files_of objects.now)
        tables.now.symbols.items resolved.now.entry.name.now }
    requires meanings { resolved.now.meanings.items
        ≡ spec.meanings_of (files_of objects.now) tables.now.symbols.items }
    ensures refused { IfErr result (IsAnswer (spec.program_fault (files_of objects.now)
        tables.now.sections.items tables.now.symbols.items tables.now.relocations.items
        resolved.now.entry.name.now)) }
    ensures passed { OnOk result (spec.program_fault (files_of objects.now)
        tables.now.sections.items tables.now.symbols.items tables.now.relocations.items
        resolved.now.entry.name.now ≡ None) }
    ensures entry { IfOk result (λ p. spec.entry_of (files_of objects.now)
        tables.now.sections.items tables.now.symbols.items resolved.now.entry.name.now ≡ Some p.entry) }
    ensures image { IfOk result (λ p. p.image.items ≡ spec.linked_image (files_of objects.now)
        tables.now.sections.items tables.now.symbols.items tables.now.relocations.items) }
    ensures short { IfOk result (λ p. length p.image.items ≤ 33554432) }
    ensures ends { IfOk result (λ p. IsEnds tables.now.sections.items p.ends) }
{
    let sections = tables.sections.as_slice();
    let ends = check_size(sections)?;
    let places = places_of(alloc, sections, &ends)?;
    let image = linked_image(alloc, objects, tables, resolved, places.as_slice(), &ends)?;
    let address = entry_of(&resolved.entry.known, sections, places.as_slice());
    let at = check_entry(has_code(sections), address)?;
    Ok(Placed {
        entry: at,
        image,
        ends,
    })
}

/// The entry's address, if it has one and some section is code.
fn check_entry(has_code: bool, address: Option<u32>) -> Result<u32, ObjError>
    ensures refused { IfErr result (IsAnswer (object_fails 0 14 0 (not has_code || is_none address))) }
    ensures passed { OnOk result ((not has_code || is_none address) ≡ false) }
    ensures entry { IfOk result (λ at. address ≡ Some at) }
{
    if !has_code {
        return Err(refusal(0, ObjFault::NO_ENTRY, 0));
    }
    match address {
        Some(at) => Ok(at),
        None => Err(refusal(0, ObjFault::NO_ENTRY, 0)),
    }
}

/// Where the groups of sections end, if no segment is too large.
fn check_size(sections: &[Section]) -> Result<Ends, ObjError>
    ensures refused { IfErr result (IsAnswer (object_fails 0 12 0 (is_too_large sections.now))) }
    ensures passed { OnOk result (is_too_large sections.now ≡ false) }
    ensures ends { IfOk result (IsEnds sections.now) }
{
    match ends_of(sections) {
        Some(ends) => Ok(ends),
        None => Err(refusal(0, ObjFault::TOO_LARGE, 0)),
    }
}

/// The text and the data, with the words of the relocations.
#[tactic(auto, unfolding(crate::specs::Link::linked_image, crate::specs::Link::all_sites))]
fn linked_image(
    alloc: Global,
    objects: &[Vec<u8>],
    tables: &Tables,
    resolved: &Resolved,
    places: &[u32],
    ends: &Ends,
) -> Result<Vec<u8>, ObjError>
    requires lows { resolved.now.lows.items ≡ lows tables.now.relocations.items }
    requires meanings { resolved.now.meanings.items
        ≡ spec.meanings_of (files_of objects.now) tables.now.symbols.items }
    requires places { places.now ≡ places_of tables.now.sections.items }
    requires ends { IsEnds tables.now.sections.items ends.now }
    ensures refused { IfErr result (IsAnswer (site_fault_of 13 (first_far
        (linked_bytes (files_of objects.now) tables.now.sections.items)
        (spec.all_sites (files_of objects.now) tables.now.sections.items tables.now.symbols.items
        tables.now.relocations.items)))) }
    ensures passed { OnOk result (first_far
        (linked_bytes (files_of objects.now) tables.now.sections.items)
        (spec.all_sites (files_of objects.now) tables.now.sections.items tables.now.symbols.items
        tables.now.relocations.items) ≡ None) }
    ensures image { IfOk result (λ image. image.items ≡ spec.linked_image (files_of objects.now)
        tables.now.sections.items tables.now.symbols.items tables.now.relocations.items) }
    ensures short { IfOk result (λ image. length image.items ≤ 33554432) }
{
    let plan = Plan {
        symbols: tables.symbols.as_slice(),
        meanings: resolved.meanings.as_slice(),
        places,
        text: ends.text - TEXT_START,
    };
    let relocations = tables.relocations.as_slice();
    let sites = sites_of(alloc, &plan, relocations, resolved.lows.as_slice())?;
    let mut image = image_of(alloc, objects, tables.sections.as_slice(), ends)?;
    relocate(image.as_mut_slice(), sites.as_slice())?;
    Ok(image)
}
