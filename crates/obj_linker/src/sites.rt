//! The words that relocations change.
ghost use Rattle.std.specs.Prelude.{◌≡◌, ◌+◌, ◌^◌, ◌<◌, IfOk, map, slice_index, unwrap_or};
ghost use Rattle.std.specs.List.{find, zip};
ghost use Rattle.obj_linker.specs.Sites as spec;

use crate::layout::{DATA_START, TEXT_START};
use crate::meaning::Meaning;
use crate::site::Site;
use obj_reader::{Relocation, Section, Symbol};
use std::alloc::{AllocError, Global};

/// What the relocations are applied with.
#[derive(Clone, Copy)]
pub struct Plan<'a> {
    /// The symbols of all objects.
    pub symbols: &'a [Symbol],
    /// What each of them means.
    pub meanings: &'a [Meaning],
    /// The place of each section.
    pub places: &'a [u32],
    /// The length of the text, after which the data is in the image.
    pub text: u32,
}

/// The first relocation of a symbol that means nothing, or that is in a section without a place.
pub fn first_undefined(
    sections: &[Section],
    meanings: &[Meaning],
    relocations: &[Relocation],
) -> Option<Relocation>
    ensures { result ≡ find (spec.is_undefined sections.now meanings.now) relocations.now }
{
    relocations.iter().copied().find(|r| r.needs_symbol()
        && is_missing(sections, meaning_at(meanings, r.symbol)))
}

/// Whether it is nothing, or an address in a section without a place.
fn is_missing(sections: &[Section], meaning: Meaning) -> bool
    ensures { result ≡ spec.is_missing sections.now meaning }
{
    match meaning {
        Meaning::InSection(section, _) => !is_section_placed(sections, section),
        Meaning::Number(_) => false,
        Meaning::Nothing => true,
    }
}

/// Whether a section gets a place.
pub fn is_section_placed(sections: &[Section], section: usize) -> bool
    ensures { result ≡ spec.is_section_placed sections.now section }
{
    match sections.get(section) {
        Some(section) => section.is_placed(),
        None => false,
    }
}

/// What a symbol means.
fn meaning_at(meanings: &[Meaning], symbol: usize) -> Meaning
    ensures { result ≡ spec.meaning_at meanings.now symbol }
{
    match meanings.get(symbol) {
        Some(meaning) => *meaning,
        None => Meaning::Nothing,
    }
}

/// The sites of the relocations, each with the offset of the lower half that goes with it, if there is one.
#[tactic(auto, unfolding(crate::specs::Sites::sites_of))]
pub fn sites_of(
    alloc: Global,
    plan: &Plan,
    relocations: &[Relocation],
    lows: &[Option<u32>],
) -> Result<Vec<Site>, AllocError>
    ensures { IfOk result (λ sites. sites.items ≡ spec.sites_of plan.now.symbols.now
        plan.now.meanings.now plan.now.places.now plan.now.text relocations.now lows.now) }
{
    relocations
        .iter()
        .zip(lows)
        .map(|(r, low)| site_of(plan, r, *low))
        .collect(alloc)
}

/// The site of a relocation.
fn site_of(plan: &Plan, r: &Relocation, low: Option<u32>) -> Site
    ensures { result ≡ spec.site_of plan.now.symbols.now plan.now.meanings.now
        plan.now.places.now plan.now.text (r.now, low) }
{
    let place = place_at(plan.places, r.section);
    Site {
        object: r.object,
        r_offset: r.r_offset,
        r_type: r.r_type,
        at: image_place(plan.text, place, r.r_offset),
        low_at: image_place(plan.text, place, low.unwrap_or(0)),
        is_local: is_local(plan.symbols, r.symbol),
        value: value_of(plan.places, meaning_at(plan.meanings, r.symbol)),
    }
}

/// The place of a section, 0 where it is not there.
pub fn place_at(places: &[u32], section: usize) -> u32
    ensures { result ≡ slice_index places.now section }
{
    match places.get(section) {
        Some(place) => *place,
        None => 0,
    }
}

/// Where a byte is in the image that is at an offset after a place.
fn image_place(text: u32, place: u32, offset: u32) -> usize
    ensures { result ≡ spec.image_place text (place + offset) }
{
    let address = place as usize + offset as usize;
    if address < DATA_START as usize {
        address.saturating_sub(TEXT_START as usize)
    } else {
        address - DATA_START as usize + text as usize
    }
}

/// Whether a symbol is local.
fn is_local(symbols: &[Symbol], symbol: usize) -> bool
    ensures { result ≡ spec.is_symbol_local symbols.now symbol }
{
    match symbols.get(symbol) {
        Some(symbol) => symbol.is_local(),
        None => false,
    }
}

/// The value of a symbol.
pub fn value_of(places: &[u32], meaning: Meaning) -> u32
    ensures { result ≡ spec.symbol_value places.now meaning }
{
    match meaning {
        Meaning::InSection(section, offset) => place_at(places, section).wrapping_add(offset),
        Meaning::Number(value) => value,
        Meaning::Nothing => 0,
    }
}
