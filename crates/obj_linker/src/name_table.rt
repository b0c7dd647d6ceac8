//! What the symbols of all objects mean (System V ABI, "Symbol Table").
ghost use Rattle.std.specs.Prelude.{◌≡◌, ◌==◌, ℕ, [], IfErr, IfOk, OnOk, None, Some, false, if◌then◌else◌, map};
ghost use Rattle.obj_reader.specs.Fault.{IsAnswer};
ghost use Rattle.obj_linker.specs.Whole.{symbol_fault_of};
ghost use Rattle.obj_reader.specs.Files.{files_of};
ghost use Rattle.obj_linker.specs.Known.{again, known_in, known_with, meaning_by};
ghost use Rattle.obj_linker.specs.Names as spec;
ghost use Rattle.obj_linker.specs.Naming.{AreNamed, Knows, symbols_in};

use crate::meaning::Meaning;
use crate::named_symbol::NamedSymbol;
use crate::named_symbols::NamedSymbols;
use crate::names::Names;
use elf_definition::ObjFault;
use obj_reader::{ObjError, refusal};
use std::alloc::{AllocError, Global};

/// What is known of the names of all symbols that are not local.
///
/// # Errors
/// `Refused` with the first symbol that defines a name which another one before it defines, both globally; `NoMemory` where there
/// is no memory for the names.
pub fn read_names(alloc: Global, named: &NamedSymbols) -> Result<Names, ObjError>
    requires { AreNamed named.now }
    ensures refused { IfErr result (IsAnswer (symbol_fault_of 10
        (spec.first_repeated (files_of named.now.objects.now) [] (symbols_in named.now)))) }
    ensures passed { OnOk result
        (spec.first_repeated (files_of named.now.objects.now) [] (symbols_in named.now) ≡ None) }
    ensures known { IfOk result (Knows named.now) }
{
    let symbols = named.symbols.as_slice();
    let mut names = Names::new(alloc);
    for s in symbols {
        add_symbol(&mut names, s)?;
    }
    Ok(names)
}

/// Adds a symbol, if it is not local.
fn add_symbol(names: &mut Names, s: &NamedSymbol) -> Result<(), ObjError>
    ensures refused { IfErr result (IsAnswer (symbol_fault_of 10
        (if again names.old s.now then Some s.now.symbol else None))) }
    ensures passed { OnOk result (again names.old s.now ≡ false) }
    ensures known { OnOk result ((other : ℕ) →
        known_in names.new other ≡ known_with names.old s.now other) }
{
    let symbol = &s.symbol;
    if symbol.is_local() {
        return Ok(());
    }
    let known = names.get(s.name);
    if symbol.is_defined() && symbol.is_global() && known.global.is_some() {
        return Err(refusal(symbol.object, ObjFault::DUPLICATE, symbol.number));
    }
    names.set(s.name, known.with(symbol))?;
    Ok(())
}

/// What each symbol means, beside the names of them all.
///
/// # Errors
/// Where there is no memory for them.
pub fn meanings_of(
    alloc: Global,
    named: &NamedSymbols,
    names: &Names,
) -> Result<Vec<Meaning>, AllocError>
    requires named { AreNamed named.now }
    requires known { Knows named.now names.now }
    ensures { IfOk result (λ meanings. meanings.items
        ≡ map (spec.meaning_of (files_of named.now.objects.now) (symbols_in named.now))
        (symbols_in named.now)) }
{
    let symbols = named.symbols.as_slice();
    let mut meanings = Vec::new(alloc);
    for s in symbols {
        meanings.push(meaning_of(names, s))?;
    }
    Ok(meanings)
}

/// What a symbol means, beside the names of all symbols.
fn meaning_of(names: &Names, s: &NamedSymbol) -> Meaning
    ensures { result ≡ meaning_by names.now s.now }
{
    if s.symbol.number == 0 {
        return Meaning::Number(0);
    }
    if s.symbol.is_local() {
        return Meaning::of(&s.symbol);
    }
    names.get(s.name).meaning()
}
