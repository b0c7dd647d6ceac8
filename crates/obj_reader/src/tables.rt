//! The sections, symbols and relocations of all objects.
ghost use Rattle.std.specs.Prelude.{◌≡◌, ℕ, ◌+◌, ◌*◌, ◌^◌, ◌<◌, ◌≤◌, ◌++◌, [], All, IfErr, IfOk, OnOk, None, length};
ghost use Rattle.obj_reader.specs.Fault.{IsAnswer};
ghost use Rattle.obj_reader.specs.Files.{files_of, IsShort};
ghost use Rattle.obj_reader.specs.Objects as spec;
ghost use Rattle.obj_reader.specs.Relocations.{relocations_of};
ghost use Rattle.obj_reader.specs.Sections.{sections_of};
ghost use Rattle.obj_reader.specs.Symbols.{symbols_of};

use crate::header::read_header;
use crate::obj_error::ObjError;
use crate::relocation::Relocation;
use crate::relocations::read_relocations;
use crate::section::Section;
use crate::sections::read_sections;
use crate::start::Start;
use crate::symbol::Symbol;
use crate::symbols::read_symbols;
use std::alloc::{AllocError, Global};

/// What the objects hold: their sections, symbols and relocations, each numbered through.
#[derive(Drop)]
pub struct Tables {
    /// All sections, also those that get no place.
    pub sections: Vec<Section>,
    /// The entries of the symbol tables.
    pub symbols: Vec<Symbol>,
    /// The relocations of the sections that get a place.
    pub relocations: Vec<Relocation>,
}

/// Reads the objects, with the checks that each is to pass by itself.
pub fn read_objects(alloc: Global, objects: &[Vec<u8>]) -> Result<Tables, ObjError>
    requires few { length objects.now ≤ 256 }
    requires short { All IsShort (files_of objects.now) }
    ensures refused { IfErr result (IsAnswer
        (spec.objects_fault_from spec.first_start (files_of objects.now))) }
    ensures passed { OnOk result (spec.objects_fault_from spec.first_start (files_of objects.now) ≡ None) }
    ensures sections { IfOk result (λ t. t.sections.items
        ≡ spec.sections_from spec.first_start (files_of objects.now)) }
    ensures symbols { IfOk result (λ t. t.symbols.items
        ≡ spec.symbols_from spec.first_start (files_of objects.now)) }
    ensures relocations { IfOk result (λ t. t.relocations.items
        ≡ spec.relocations_from spec.first_start (files_of objects.now)) }
{
    let mut tables = Tables {
        sections: Vec::new(alloc),
        symbols: Vec::new(alloc),
        relocations: Vec::new(alloc),
    };
    let mut start = Start {
        object: 0,
        section: 0,
        symbol: 0,
    };
    let mut rest = objects;
    while let Some((object, others)) = rest.split_first() {
        start = append_object(alloc, &mut tables, start, object.as_slice())?;
        rest = others;
    }
    Ok(tables)
}

/// Reads an object, with its checks, and gives where the next one begins.
#[tactic(auto, unfolding(crate::specs::Objects::object_fault, crate::specs::Objects::next_start))]
fn append_object(
    alloc: Global,
    tables: &mut Tables,
    start: Start,
    b: &[u8],
) -> Result<Start, ObjError>
    requires known_objects { start.object < 2 ^ 31 }
    requires known_sections { start.section < 2 ^ 32 }
    requires known_symbols { start.symbol < 2 ^ 32 }
    requires short { IsShort b.now }
    ensures refused { IfErr result (IsAnswer (spec.object_fault start b.now)) }
    ensures passed { OnOk result (spec.object_fault start b.now ≡ None) }
    ensures next { IfOk result (λ next. next ≡ spec.next_start start b.now) }
    ensures few_sections { IfOk result (λ next. next.section ≤ start.section + 65536) }
    ensures few_symbols { IfOk result (λ next. next.symbol ≤ start.symbol + 4194304) }
    ensures sections { OnOk result (tables.new.sections.items
        ≡ tables.old.sections.items ++ sections_of start b.now) }
    ensures symbols { OnOk result (tables.new.symbols.items
        ≡ tables.old.symbols.items ++ symbols_of start b.now) }
    ensures relocations { OnOk result (tables.new.relocations.items
        ≡ tables.old.relocations.items ++ relocations_of start b.now) }
{
    let object = read_object(alloc, start, b)?;
    let next = Start {
        object: start.object + 1,
        section: start.section + object.sections.len(),
        symbol: start.symbol + object.symbols.len(),
    };
    append_tables(tables, &object)?;
    Ok(next)
}

/// Appends what an object holds.
fn append_tables(tables: &mut Tables, object: &Tables) -> Result<(), AllocError>
    ensures sections { OnOk result (tables.new.sections.items
        ≡ tables.old.sections.items ++ object.now.sections.items) }
    ensures symbols { OnOk result (tables.new.symbols.items
        ≡ tables.old.symbols.items ++ object.now.symbols.items) }
    ensures relocations { OnOk result (tables.new.relocations.items
        ≡ tables.old.relocations.items ++ object.now.relocations.items) }
{
    tables.sections.extend_from_slice(&object.sections)?;
    tables.symbols.extend_from_slice(&object.symbols)?;
    tables.relocations.extend_from_slice(&object.relocations)?;
    Ok(())
}

/// Reads an object, with its checks.
#[tactic(auto, unfolding(crate::specs::Objects::object_fault))]
fn read_object(alloc: Global, start: Start, b: &[u8]) -> Result<Tables, ObjError>
    requires known_sections { start.section < 2 ^ 32 }
    requires known_symbols { start.symbol < 2 ^ 32 }
    requires short { IsShort b.now }
    ensures refused { IfErr result (IsAnswer (spec.object_fault start b.now)) }
    ensures passed { OnOk result (spec.object_fault start b.now ≡ None) }
    ensures few_sections { IfOk result (λ t. length t.sections.items < 65536) }
    ensures few_symbols { IfOk result (λ t. length t.symbols.items ≤ 4194304) }
    ensures sections { IfOk result (λ t. t.sections.items ≡ sections_of start b.now) }
    ensures symbols { IfOk result (λ t. t.symbols.items ≡ symbols_of start b.now) }
    ensures relocations { IfOk result (λ t. t.relocations.items ≡ relocations_of start b.now) }
{
    let table = read_header(start, b)?;
    let sections = read_sections(alloc, start, b, table)?;
    let symbols = read_symbols(alloc, start, b, sections.as_slice())?;
    let count = symbols.len();
    let relocations = read_relocations(alloc, start, b, sections.as_slice(), count)?;
    Ok(Tables {
        sections,
        symbols,
        relocations,
    })
}
