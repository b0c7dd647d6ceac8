//! The symbols of all objects, each with the number of its name (System V ABI, "Symbol Table").
ghost use Rattle.std.specs.Prelude.{◌≡◌, All, IfOk, OnOk, map};
ghost use Rattle.obj_reader.specs.Files.{files_of};
ghost use Rattle.obj_linker.specs.Naming.{AreNamed, symbols_in, IsStretch, shared_name};
ghost use Rattle.obj_linker.specs.Names.{name_of_symbol};
ghost use Rattle.obj_linker.specs.Texts.{AreApart, IsNumber, Keeps};

use crate::name_place::{name_of, place_of};
use crate::named_symbol::NamedSymbol;
use crate::reach::reach_of;
use crate::stretch::{Stretch, stretch_of};
use crate::texts::{Texts, number_of};
use indexmap::IndexSet;
use obj_reader::Symbol;
use std::alloc::{AllocError, Global};

/// The symbols of objects by the numbers of their names.
#[derive(Drop)]
pub struct NamedSymbols<'a> {
    pub objects: &'a [Vec<u8>],
    pub symbols: Vec<NamedSymbol>,
    pub texts: Texts,
    /// The number of the name of the entry.
    pub entry: usize,
}

/// Numbers the names of symbols, and that of the entry.
///
/// # Errors
/// Where there is no memory for them.
pub fn name_symbols<'a>(
    alloc: Global,
    objects: &'a [Vec<u8>],
    symbols: &[Symbol],
    entry: &[u8],
) -> Result<NamedSymbols<'a>, AllocError>
    ensures objects { IfOk result (λ named. named.objects.now ≡ objects.now) }
    ensures symbols { IfOk result (λ named. symbols_in named ≡ symbols.now) }
    ensures named { IfOk result AreNamed }
    ensures entry { IfOk result (λ named. IsNumber named.texts.keys named.entry entry.now) }
{
    let mut texts = IndexSet::new(alloc);
    let entry_number = number_of(&mut texts, entry)?;
    let mut stretch = Stretch::empty(alloc);
    let mut named = Vec::new(alloc);
    let mut rest = symbols;
    while let Some((s, later)) = rest.split_first() {
        let name = name_number(alloc, &mut texts, &mut stretch, objects, s, later)?;
        named.push(NamedSymbol { symbol: *s, name })?;
        rest = later;
    }
    Ok(NamedSymbols {
        objects,
        symbols: named,
        texts,
        entry: entry_number,
    })
}

/// The number of the name of a symbol before others, by a stretch of the last object that was read.
fn name_number(
    alloc: Global,
    texts: &mut Texts,
    stretch: &mut Stretch,
    objects: &[Vec<u8>],
    s: &Symbol,
    later: &[Symbol],
) -> Result<usize, AllocError>
    requires stretch { IsStretch (files_of objects.now) texts.old.keys stretch.old }
    requires apart { AreApart texts.old.keys }
    ensures number { IfOk result (λ n.
        IsNumber texts.new.keys n (shared_name (files_of objects.now) s.now)) }
    ensures stretch { OnOk result (IsStretch (files_of objects.now) texts.new.keys stretch.new) }
    ensures kept { OnOk result (Keeps texts.old.keys texts.new.keys) }
    ensures apart { OnOk result (AreApart texts.new.keys) }
{
    if s.is_local() {
        return Ok(0);
    }
    match stretch.number_at(s.object, place_of(s)) {
        Some(number) => Ok(number),
        None => read_number(alloc, texts, stretch, objects, s, later),
    }
}

/// The number of the name of a symbol before others, by a new stretch, where the names of those of its object are.
fn read_number(
    alloc: Global,
    texts: &mut Texts,
    stretch: &mut Stretch,
    objects: &[Vec<u8>],
    s: &Symbol,
    later: &[Symbol],
) -> Result<usize, AllocError>
    requires { AreApart texts.old.keys }
    ensures number { IfOk result (λ n.
        IsNumber texts.new.keys n (name_of_symbol (files_of objects.now) s.now)) }
    ensures stretch { OnOk result (IsStretch (files_of objects.now) texts.new.keys stretch.new) }
    ensures kept { OnOk result (Keeps texts.old.keys texts.new.keys) }
    ensures apart { OnOk result (AreApart texts.new.keys) }
{
    let read = stretch_of(alloc, texts, objects, s.object, reach_of(s, later))?;
    *stretch = read;
    match stretch.number_at(s.object, place_of(s)) {
        Some(number) => Ok(number),
        None => number_of(texts, name_of(objects, s)),
    }
}
