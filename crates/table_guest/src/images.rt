//! Images of programs.
use crate::numbers::push_found;
use anyhow::{Result, bail, ensure};
use elf_image::{Image, image};
use elf_reader::read_elf;
use std::alloc::{AllocError, Global};
use std::fmt::Write;
use table_rows::{Files, address, count, word};

/// What is asked of the image of a file with so many pages of heap and stack: `image FILE HEAP STACK ASKED`.
pub fn image_row(alloc: Global, text: &mut String, files: &Files, row: &str) -> Result<()> {
    let file = files.get(alloc, word(row, 1))?;
    let image = image_of(alloc, file.as_slice(), count(row, 2), count(row, 3))?;
    push_asked(text, &image, row)
}

fn image_of(alloc: Global, file: &[u8], heap: u32, stack: u32) -> Result<Image> {
    ensure!(
        heap <= 32_768 && 1 <= stack && stack <= 32_768,
        "no lawful pages"
    );
    let elf = read_elf(alloc, file)?;
    Ok(image(alloc, &elf, heap, stack)?)
}

fn push_asked(text: &mut String, image: &Image, row: &str) -> Result<()> {
    let place = address(row, 5);
    match word(row, 4) {
        "" => push_image(text, image)?,
        "word" => push_found(text, image.word(place))?,
        "byte" => push_found(text, image.byte(place).map(u32::from))?,
        "page" => push_access(text, image, place)?,
        "stored" => push_found(text, stored(image, place, count(row, 6)))?,
        _ => bail!("nothing such is asked of an image"),
    }
    Ok(())
}

fn stored(image: &Image, page: u32, place: u32) -> Option<u32> {
    let words = image.page(page).unwrap_or(&[]);
    words.get(place as usize).copied()
}

fn push_image(text: &mut String, image: &Image) -> Result<(), AllocError> {
    let (entry, mapped) = (image.entry(), image.mapped());
    write!(text, "entry {entry:08X}, {mapped} pages, ")?;
    let (heap, bytes) = (image.heap_start(), image.heap_bytes());
    let ranges = image.ranges().len();
    write!(text, "heap {heap:08X}+{bytes:X}, ranges {ranges}")
}

fn push_access(text: &mut String, image: &Image, page: u32) -> Result<(), AllocError> {
    let (readable, writable) = (image.readable(page), image.writable(page));
    write!(text, "readable {readable}, writable {writable}")
}
