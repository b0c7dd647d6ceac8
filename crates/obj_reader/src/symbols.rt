//! The symbol table of an object and its checks (System V ABI, "Symbol Table").
ghost use Rattle.std.specs.Prelude.{◌≡◌, ℕ, ◌+◌, ◌*◌, ◌^◌, ◌<◌, ◌≤◌, IfErr, IfOk, OnOk, None, Some, [], if◌then◌else◌, length, option_map};
ghost use Rattle.std.specs.List.{find};
ghost use Rattle.obj_reader.specs.Ended.{EndsWithin, is_wrong_within};
ghost use Rattle.obj_reader.specs.Fault.{IsAnswer};
ghost use Rattle.obj_reader.specs.Sections.{sections_of, is_section_outside, string_table, strings_of_table, symbol_table};
ghost use Rattle.obj_reader.specs.Symbols as spec;

use crate::fault::{refusal, refuse_at, refuse_when};
use crate::obj_error::ObjError;
use crate::section::Section;
use crate::sections::{strings_of_table, symbol_table};
use crate::start::Start;
use crate::symbol::{SHN_LORESERVE, STB_WEAK, Symbol};
use elf_definition::ObjFault;
use std::alloc::{AllocError, Global};

/// Reads the symbol table, with its checks. The sections passed their own.
#[tactic(auto, unfolding(crate::specs::Symbols::symbol_fault, crate::specs::Symbols::symbols_of))]
pub fn read_symbols(
    alloc: Global,
    start: Start,
    b: &[u8],
    sections: &[Section],
) -> Result<Vec<Symbol>, ObjError>
    requires known { start.section < 2 ^ 32 }
    requires read { sections.now ≡ sections_of start b.now }
    requires inside { find (is_section_outside (length b.now) sections.now) sections.now ≡ None }
    ensures refused { IfErr result (IsAnswer (spec.symbol_fault start b.now)) }
    ensures passed { OnOk result (spec.symbol_fault start b.now ≡ None) }
    ensures symbols { IfOk result (λ symbols. symbols.items ≡ spec.symbols_of start b.now) }
    ensures few { IfOk result (λ symbols. 16 * length symbols.items ≤ length b.now) }
{
    match symbol_table(sections) {
        None => Ok(Vec::new(alloc)),
        Some(table) => read_table(alloc, start, b, sections, &table),
    }
}

/// Reads the entries of a symbol table, with the checks of the table.
#[tactic(auto, unfolding(crate::specs::Symbols::symbol_entries_fault))]
fn read_table(
    alloc: Global,
    start: Start,
    b: &[u8],
    sections: &[Section],
    table: &Section,
) -> Result<Vec<Symbol>, ObjError>
    requires known { start.section < 2 ^ 32 }
    requires there { symbol_table sections.now ≡ Some table.now }
    requires inside { find (is_section_outside (length b.now) sections.now) sections.now ≡ None }
    ensures refused { IfErr result (IsAnswer
        (spec.symbol_entries_fault start b.now sections.now table.now)) }
    ensures passed { OnOk result (spec.symbol_entries_fault start b.now sections.now table.now ≡ None) }
    ensures symbols { IfOk result (λ symbols. symbols.items
        ≡ spec.symbols_in start b.now (spec.strings_place sections.now) table.now) }
    ensures few { IfOk result (λ symbols. 16 * length symbols.items ≤ length b.now) }
{
    let strings = check_table(start, sections, table)?;
    let symbols = entries(alloc, start, b, table, strings.sh_offset)?;
    let wrong = first_wrong(bytes_in(b, &strings), sections.len(), symbols.as_slice());
    refuse_at(start.object, ObjFault::SYMBOLS, wrong)?;
    let common = first_common(symbols.as_slice());
    refuse_at(start.object, ObjFault::COMMON, common)?;
    Ok(symbols)
}

/// Checks that there is no other symbol table, the size of this one, and its string table, which it gives.
#[tactic(auto, unfolding(crate::specs::Symbols::form_fault))]
fn check_table(start: Start, sections: &[Section], table: &Section) -> Result<Section, ObjError>
    ensures refused { IfErr result (IsAnswer
        (spec.form_fault start.object sections.now table.now)) }
    ensures passed { OnOk result (spec.form_fault start.object sections.now table.now ≡ None) }
    ensures strings { IfOk result (λ strings.
        strings_of_table sections.now table.now ≡ Some strings) }
{
    let second = second_table(sections, table);
    refuse_at(start.object, ObjFault::SYMBOLS, second)?;
    let is_cut = table.sh_size % Symbol::SIZE as u32 != 0;
    refuse_when(start.object, ObjFault::SYMBOLS, table.number, is_cut)?;
    match strings_of_table(sections, table) {
        Some(strings) => Ok(strings),
        None => Err(refusal(start.object, ObjFault::SYMBOLS, table.number)),
    }
}

/// The number of a symbol table beside this one.
fn second_table(sections: &[Section], table: &Section) -> Option<u32>
    ensures { result ≡ spec.second_table sections.now table.now }
{
    sections
        .iter()
        .find(|s| s.is_symbol_table() && table.number != s.number)
        .map(|s| s.number)
}

/// The entries of a symbol table, which lies in the file.
fn entries(
    alloc: Global,
    start: Start,
    b: &[u8],
    table: &Section,
    strings: u32,
) -> Result<Vec<Symbol>, AllocError>
    requires known { start.section < 2 ^ 32 }
    requires inside { table.now.sh_offset + table.now.sh_size ≤ length b.now }
    ensures symbols { IfOk result (λ symbols.
        symbols.items ≡ spec.symbols_in start b.now strings table.now) }
    ensures few { IfOk result (λ symbols. 16 * length symbols.items ≤ length b.now) }
{
    let mut symbols = Vec::new(alloc);
    for i in 0..table.sh_size / Symbol::SIZE as u32 {
        symbols.push(Symbol::read(start, b, strings, table.sh_offset, i))?;
    }
    Ok(symbols)
}

/// The bytes of a section, which lie in the file.
fn bytes_in<'a>(b: &'a [u8], s: &Section) -> &'a [u8]
    requires { s.now.sh_offset + s.now.sh_size ≤ length b.now }
    ensures { result.now ≡ spec.bytes_in b.now s.now }
{
    &b[s.sh_offset as usize..s.sh_offset as usize + s.sh_size as usize]
}

/// The number of the first symbol that is wrong, beside these names and so many sections.
fn first_wrong(strings: &[u8], count: usize, symbols: &[Symbol]) -> Option<u32>
    ensures { result ≡ spec.first_wrong strings.now count symbols.now }
{
    let ended = ended_len(strings);
    symbols
        .iter()
        .find(|s| is_wrong(ended, count, s))
        .map(|s| s.number)
}

/// Whether a symbol's name does not end, its binding is not known, or its section is not there. Names end that begin before a
/// place.
fn is_wrong(ended: usize, count: usize, s: &Symbol) -> bool
    ensures { result ≡ is_wrong_within ended count s.now }
{
    s.st_name as usize >= ended
        || s.binding() > STB_WEAK
        || s.st_shndx < SHN_LORESERVE && s.st_shndx as usize >= count
}

/// The length up to the last 00: names that begin before it end.
fn ended_len(strings: &[u8]) -> usize
    ensures { EndsWithin strings.now result }
{
    let mut rest = strings;
    while let Some((byte, before)) = rest.split_last() {
        if *byte == 0 {
            return rest.len();
        }
        rest = before;
    }
    0
}

/// The number of the first common symbol.
fn first_common(symbols: &[Symbol]) -> Option<u32>
    ensures { result ≡ spec.first_common symbols.now }
{
    symbols.iter().find(|s| s.is_common()).map(|s| s.number)
}
