//! Classes that are loaded by their names, and classes that are linked.
ghost use Rattle.std.specs.Prelude.{IfOk, All};
ghost use Rattle.class_names.specs.Kept.{IsClass};

use crate::reading::class_of;
use anyhow::{Context, Result, bail};
use class_sets::{Loaded, load_set};
use constant_pool::class_name_of;
use jvm_code::Class;
use jvm_definition::{Instruction, Kind, LinkedLine, LinkedMethod};
use jvm_link::{LinkError, Linked, link};
use nv_outside::{MemShelf, ShelfError};
use std::alloc::{AllocError, Global};
use std::fmt::Write;
use table_rows::{Files, count, long_count, rest, slot};

/// What loading the set of `Main` comes to, from files `NAME=FILE`, where a call of the shelf fails, counted from 1; 0: none: `set FAILS
/// FILES`.
pub fn set_row(alloc: Global, text: &mut String, files: &Files, row: &str) -> Result<()> {
    let mut shelf = MemShelf::new(alloc, [long_count(row, 1)].to_vec(alloc)?);
    for word in rest(row, 2).split(' ') {
        add_file(alloc, &mut shelf, files, word)?;
    }
    match load(alloc, &mut shelf) {
        Ok(loaded) => push_loaded(text, &loaded)?,
        Err(ShelfError::Failed) => text.push_str("failed")?,
        Err(ShelfError::NoMemory) => text.push_str("no memory")?,
    }
    Ok(())
}

fn add_file(alloc: Global, shelf: &mut MemShelf, files: &Files, word: &str) -> Result<()> {
    let (name, file) = word.split_once('=').unwrap_or((word, ""));
    shelf.add(name, files.get(alloc, file)?.as_slice())?;
    Ok(())
}

fn load(alloc: Global, shelf: &mut MemShelf) -> Result<Loaded, ShelfError> {
    load_set(alloc, shelf, "Main")
}

fn push_loaded(text: &mut String, loaded: &Loaded) -> Result<()> {
    match loaded {
        Loaded::NoFile => text.push_str("no file")?,
        Loaded::Faulty { class, fault } => write!(text, "class {class} {fault:?}")?,
        Loaded::Classes(classes) => push_names(text, classes.as_slice())?,
    }
    Ok(())
}

fn push_names(text: &mut String, classes: &[Class]) -> Result<()> {
    for class in classes {
        push_name(text, class)?;
    }
    Ok(())
}

fn push_name(text: &mut String, class: &Class) -> Result<()> {
    let name = class_name_of(class.pool.as_slice(), class.this_class).context("a class")?;
    for character in name {
        text.push(char::from(u8::try_from(*character)?))?;
    }
    text.push(' ')?;
    Ok(())
}

fn classes_of(alloc: Global, files: &Files, names: &str) -> Result<Vec<Class>>
    ensures { IfOk result (λ classes. All IsClass classes.items) }
{
    let mut classes = Vec::new(alloc);
    for name in names.split_whitespace() {
        classes.push(class_named(alloc, files, name)?)?;
    }
    Ok(classes)
}

fn class_named(alloc: Global, files: &Files, name: &str) -> Result<Class>
    ensures { IfOk result IsClass }
{
    let file = files.get(alloc, name)?;
    class_of(alloc, file.as_slice())
}

fn linked_of(alloc: Global, files: &Files, names: &str) -> Result<Linked> {
    linked(alloc, classes_of(alloc, files, names)?)
}

/// The program of classes.
pub fn linked(alloc: Global, classes: Vec<Class>) -> Result<Linked>
    requires { All IsClass classes.items }
{
    match link(alloc, classes) {
        Ok(linked) => Ok(linked),
        Err(LinkError::Refused(fault)) => bail!("{fault:?}"),
        Err(LinkError::NoMemory) => bail!("there is not enough memory"),
    }
}

/// Whether classes link that are so many times: `link TIMES FILES`.
pub fn link_row(alloc: Global, text: &mut String, files: &Files, row: &str) -> Result<()> {
    let named = rest(row, 2);
    let once = format!(in alloc; "{named} ")?;
    let all = once.as_str().repeat(alloc, count(row, 1) as usize)?;
    linked_of(alloc, files, all.as_str())?;
    text.push_str("linked")?;
    Ok(())
}

/// What classes are that link: their counts, and what each instruction of each method names.
pub fn linked_row(alloc: Global, text: &mut String, files: &Files, named: &str) -> Result<()> {
    let linked = linked_of(alloc, files, named)?;
    push_counts(text, &linked)?;
    for method in linked.methods.as_slice() {
        push_method(text, method)?;
    }
    Ok(())
}

fn push_counts(text: &mut String, linked: &Linked) -> Result<(), AllocError> {
    let (first, classes) = (linked.first, linked.classes.as_slice().len());
    write!(text, "first {first}, {classes} classes, ")?;
    let fields = linked.fields.as_slice().len();
    let methods = linked.methods.as_slice().len();
    write!(text, "{fields} fields, {methods} methods; ")
}

fn push_method(text: &mut String, method: &LinkedMethod) -> Result<(), AllocError> {
    for line in method.lines.as_slice() {
        push_named(text, line)?;
    }
    text.push_str("end; ")
}

fn push_named(text: &mut String, line: &LinkedLine) -> Result<(), AllocError> {
    match &line.instruction {
        Instruction::Get(field, Kind::Int) => write!(text, "gets int {field}, "),
        Instruction::Call(method) => write!(text, "calls {method}, "),
        _ => text.push_str("other, "),
    }
}

/// How many characters the text in a slot of a class has, and which: `characters CLASS SLOT FILES`.
pub fn characters_row(alloc: Global, text: &mut String, files: &Files, row: &str) -> Result<()> {
    let linked = linked_of(alloc, files, rest(row, 3))?;
    push_characters(text, &linked, slot(row, 1), slot(row, 2))?;
    Ok(())
}

fn push_characters(
    text: &mut String,
    linked: &Linked,
    class: u16,
    slot: u16,
) -> Result<(), AllocError> {
    let count = linked.characters_len(class, slot);
    write!(text, "{count}:")?;
    for i in 0..100 {
        match linked.character(class, slot, i) {
            Some(character) => write!(text, " {character}")?,
            None => break,
        }
    }
    Ok(())
}
