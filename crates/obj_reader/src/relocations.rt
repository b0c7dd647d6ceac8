//! The relocations of an object and their checks (System V ABI, "Relocation").
ghost use Rattle.std.specs.Prelude.{◌≡◌, ℕ, ◌+◌, ◌*◌, ◌^◌, ◌<◌, ◌≤◌, ◌++◌, ◌&&◌, ◌||◌, IfErr, IfOk, OnOk, IsTrue, None, Some, [], false, true, if◌then◌else◌, length, option_map, slice_get};
ghost use Rattle.std.specs.List.{find};
ghost use Rattle.obj_reader.specs.Fault.{IsAnswer, object_fails_at};
ghost use Rattle.obj_reader.specs.Objects.{first_other_type, relocation_fault};
ghost use Rattle.obj_reader.specs.Relocations as spec;
ghost use Rattle.obj_reader.specs.Sections.{sections_of, is_for_placed, is_section_outside, is_relocations, is_with_addends};
ghost use Rattle.obj_reader.specs.Symbols.{symbols_of};

use crate::fault::{refuse_at, refuse_when};
use crate::obj_error::ObjError;
use crate::relocation::Relocation;
use crate::section::Section;
use crate::sections::is_for_placed;
use crate::start::Start;
use elf_definition::ObjFault;
use std::alloc::{AllocError, Global};

/// Reads the relocations of the placed sections, with their checks, in an object with so many symbols. The sections passed
/// their own.
#[tactic(auto, unfolding(crate::specs::Objects::relocation_fault, crate::specs::Relocations::relocations_of, crate::specs::Relocations::relocations_fault))]
pub fn read_relocations(
    alloc: Global,
    start: Start,
    b: &[u8],
    sections: &[Section],
    symbols: usize,
) -> Result<Vec<Relocation>, ObjError>
    requires known_sections { start.section < 2 ^ 32 }
    requires known_symbols { start.symbol < 2 ^ 32 }
    requires read { sections.now ≡ sections_of start b.now }
    requires counted { symbols ≡ length (symbols_of start b.now) }
    requires few { symbols < 2 ^ 32 }
    requires inside { find (is_section_outside (length b.now) sections.now) sections.now ≡ None }
    ensures refused { IfErr result (IsAnswer (relocation_fault start b.now)) }
    ensures passed { OnOk result (relocation_fault start b.now ≡ None) }
    ensures relocations { IfOk result (λ relocations.
        relocations.items ≡ spec.relocations_of start b.now) }
{
    let limit = start.symbol + symbols;
    let mut relocations = Vec::new(alloc);
    for s in sections {
        append_section(&mut relocations, start, b, limit, sections, s)?;
    }
    let other = first_other_type(relocations.as_slice());
    refuse_at(start.object, ObjFault::RELOCATION_TYPE, other)?;
    Ok(relocations)
}

/// Appends what a section holds of relocations of a placed section, with their checks.
fn append_section(
    relocations: &mut Vec<Relocation>,
    start: Start,
    b: &[u8],
    limit: usize,
    sections: &[Section],
    s: &Section,
) -> Result<(), ObjError>
    requires known_sections { start.section < 2 ^ 32 }
    requires known_symbols { start.symbol < 2 ^ 32 }
    requires inside { is_section_outside (length b.now) sections.now s.now ≡ false }
    ensures refused { IfErr result (IsAnswer
        (object_fails_at start.object 7 (spec.relocation_target_fault start b.now limit sections.now s.now))) }
    ensures passed { OnOk result (spec.relocation_target_fault start b.now limit sections.now s.now ≡ None) }
    ensures appended { OnOk result (relocations.new.items
        ≡ relocations.old.items ++ spec.placed_entries start b.now sections.now s.now) }
{
    if !s.is_with_addends() && !s.is_relocations() {
        return Ok(());
    }
    match placed_target(sections, s) {
        None => Ok(()),
        Some(target) => append_checked(relocations, start, b, limit, s, &target),
    }
}

/// Appends the entries of a section of relocations for a placed section, with their checks.
fn append_checked(
    relocations: &mut Vec<Relocation>,
    start: Start,
    b: &[u8],
    limit: usize,
    s: &Section,
    target: &Section,
) -> Result<(), ObjError>
    requires known_sections { start.section < 2 ^ 32 }
    requires known_symbols { start.symbol < 2 ^ 32 }
    requires inside { is_with_addends s.now ≡ false
        → s.now.sh_offset + s.now.sh_size ≤ length b.now }
    ensures refused { IfErr result (IsAnswer
        (object_fails_at start.object 7 (spec.relocation_entries_fault start b.now limit s.now target.now))) }
    ensures passed { OnOk result (spec.relocation_entries_fault start b.now limit s.now target.now ≡ None) }
    ensures kind { OnOk result (is_with_addends s.now ≡ false) }
    ensures appended { OnOk result (relocations.new.items
        ≡ relocations.old.items ++ spec.entries_of start b.now s.now) }
{
    let is_wrong = s.is_with_addends() || s.sh_size % Relocation::SIZE as u32 != 0;
    refuse_when(start.object, ObjFault::RELOCATIONS, s.number, is_wrong)?;
    let first = relocations.len();
    append_entries(relocations, start, b, s)?;
    let wrong = first_wrong(limit, target, &relocations.as_slice()[first..]);
    refuse_at(start.object, ObjFault::RELOCATIONS, wrong)
}

/// The section that relocations are for, where it gets a place.
fn placed_target(sections: &[Section], s: &Section) -> Option<Section>
    ensures { result ≡ spec.placed_target sections.now s.now }
{
    let target = *sections.get(s.sh_info as usize)?;
    target.is_placed().then_some(target)
}

/// Appends the entries of a section of relocations, which lies in the file.
///
/// # Errors
/// Where there is no memory for them. None is taken for more entries than a file of this length can hold, which there are only
/// where sections share bytes.
fn append_entries(
    relocations: &mut Vec<Relocation>,
    start: Start,
    b: &[u8],
    s: &Section,
) -> Result<(), AllocError>
    requires known_sections { start.section < 2 ^ 32 }
    requires known_symbols { start.symbol < 2 ^ 32 }
    requires inside { s.now.sh_offset + s.now.sh_size ≤ length b.now }
    ensures { OnOk result (relocations.new.items
        ≡ relocations.old.items ++ spec.entries_of start b.now s.now) }
{
    let count = s.sh_size / Relocation::SIZE as u32;
    let room = (b.len() / Relocation::SIZE).saturating_sub(relocations.len());
    if room < count as usize {
        return Err(AllocError);
    }
    for k in 0..count {
        relocations.push(Relocation::read(start, b, s, k))?;
    }
    Ok(())
}

/// The offset of the first relocation that is wrong, beside the number of symbols and the section that is relocated.
fn first_wrong(limit: usize, target: &Section, relocations: &[Relocation]) -> Option<u32>
    ensures { result ≡ option_map spec.relocation_offset
        (find (spec.is_wrong_relocation limit target.now) relocations.now) }
{
    relocations
        .iter()
        .find(|r| is_wrong(limit, target, r))
        .map(|r| r.r_offset)
}

/// Whether a relocation names no symbol, or is for no aligned word of a section with bytes.
fn is_wrong(limit: usize, target: &Section, r: &Relocation) -> bool
    ensures { result ≡ spec.is_wrong_relocation limit target.now r.now }
{
    r.symbol >= limit
        || !target.has_bytes()
        || r.r_offset % 4 != 0
        || u64::from(target.sh_size) < u64::from(r.r_offset) + 4
}

/// The offset of the first relocation of a type that is not known.
fn first_other_type(relocations: &[Relocation]) -> Option<u32>
    ensures { result ≡ first_other_type relocations.now }
{
    relocations
        .iter()
        .find(|r| !r.is_known())
        .map(|r| r.r_offset)
}
