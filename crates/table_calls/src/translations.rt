//! Translations of programs.
use anyhow::{Context, Result};
use elf_image::{Image, image};
use elf_reader::read_elf;
use nv_translate::{
    Built, NamedFile, NoMemory, translate, translate_files, translate_files_metered,
    translate_metered,
};
use nv_values::{ClassName, MeterTurns, MethodBytes};
use std::alloc::Global;
use std::fmt::Write;
use table_rows::{Files, count, word};

/// How many pages a program has for its heap, and for its stack.
const PAGES: u32 = 4;

/// A program translated with its layout, and once more to its files alone, by the name `Main`: `translations FILE METHOD_BYTES [TURNS]`, where
/// TURNS are those of a meter. Shows how many files, spans and blocks there are, and whether the files are the same.
///
/// # Errors
/// A file is no program, a number is not lawful, or out of memory.
pub fn translations_row(alloc: Global, text: &mut String, files: &Files, row: &str) -> Result<()> {
    let file = files.get(alloc, word(row, 1))?;
    let name = ClassName::new(String::from_str(alloc, "Main")?).context("no name")?;
    let bytes = MethodBytes::new(count(row, 2)).context("no lawful bytes of a method")?;
    let meter = meter_of(row);
    let built = built_of(
        alloc,
        &image_of(alloc, file.as_slice())?,
        &name,
        bytes,
        meter,
    )?;
    let alone = files_of(
        alloc,
        image_of(alloc, file.as_slice())?,
        &name,
        bytes,
        meter,
    )?;
    push_translations(text, &built, alone.as_slice())
}

fn meter_of(row: &str) -> Option<MeterTurns> {
    match word(row, 3) {
        "" => None,
        _ => MeterTurns::new(count(row, 3)),
    }
}

fn image_of(alloc: Global, file: &[u8]) -> Result<Image> {
    let elf = read_elf(alloc, file)?;
    Ok(image(alloc, &elf, PAGES, PAGES)?)
}

fn built_of(
    alloc: Global,
    image: &Image,
    name: &ClassName,
    bytes: MethodBytes,
    meter: Option<MeterTurns>,
) -> Result<Built, NoMemory> {
    match meter {
        None => translate(alloc, image, name, bytes),
        Some(turns) => translate_metered(alloc, image, name, bytes, turns),
    }
}

fn files_of(
    alloc: Global,
    image: Image,
    name: &ClassName,
    bytes: MethodBytes,
    meter: Option<MeterTurns>,
) -> Result<Vec<NamedFile>, NoMemory> {
    match meter {
        None => translate_files(alloc, image, name, bytes),
        Some(turns) => translate_files_metered(alloc, image, name, bytes, turns),
    }
}

fn push_translations(text: &mut String, built: &Built, alone: &[NamedFile]) -> Result<()> {
    let (files, layout) = (built.files.as_slice(), &built.layout);
    let (spans, blocks) = (layout.spans.len(), layout.blocks.len());
    let says = if are_same(files, alone) {
        "the same files"
    } else {
        "other files"
    };
    let count = files.len();
    write!(
        text,
        "{count} files, {spans} spans, {blocks} blocks; {says}"
    )?;
    Ok(())
}

fn are_same(files: &[NamedFile], others: &[NamedFile]) -> bool {
    files.len() == others.len()
        && files
            .iter()
            .zip(others.iter())
            .all(|pair| is_same(pair.0, pair.1))
}

fn is_same(file: &NamedFile, other: &NamedFile) -> bool {
    file.name == other.name && file.bytes == other.bytes
}
