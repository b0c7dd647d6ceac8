//! Objects of the folder.
use anyhow::{Context, Result, bail};
use nv_outside::Shelf;
use std::alloc::Global;
use table_rows::contents;

/// Reads an object of a word `NAME,CHANGE,..`: the file of that name with the changes.
///
/// # Errors
/// Where there is no such file, or a change is none.
pub fn object_of<H: Shelf>(alloc: Global, folder: &mut H, word: &str) -> Result<Vec<u8>> {
    let mut parts = word.split(',');
    let mut file = contents(alloc, folder, parts.next().context("no name")?)?;
    for part in parts {
        change(&mut file, part)?;
    }
    Ok(file)
}

/// Makes a change: `AT=HEX` puts bytes from an offset on, and `N` leaves the first bytes.
fn change(file: &mut Vec<u8>, change: &str) -> Result<()> {
    match change.split_once('=') {
        Some((at, digits)) => put(file.as_mut_slice(), at.parse::<usize>()?, digits),
        None => {
            file.truncate(change.parse::<usize>()?);
            Ok(())
        }
    }
}

/// Puts bytes from an offset on, two digits each.
fn put(file: &mut [u8], at: usize, digits: &str) -> Result<()> {
    let Some(place) = file.get_mut(at..) else {
        bail!("no byte {at}");
    };
    let Some(place) = place.get_mut(..digits.len() / 2) else {
        bail!("too many bytes at {at}");
    };
    hex::decode_to_slice(digits, place)?;
    Ok(())
}
