//! The calls on descriptors that touch neither the bytes of files nor the console.

ghost use Rattle.std.specs.Prelude.{◌≡◌, ◌≤◌, ◌<◌, ◌+ℤ◌, pos, IfSome};
ghost use Rattle.unix_definition.specs.System.{System, system_with_tables};
ghost use Rattle.unix_definition.specs.Asked.{value_only};
ghost use Rattle.unix_definition.specs.Calls.{close, dup, isatty, lseek, file_sought, seek_base, file_place, files_without};
ghost use Rattle.run_definition.specs.Words.{signed_of};
ghost use Rattle.unix_definition.specs.Opened.{without_unused};
ghost use Rattle.unix_definition.specs.declared.opened.Opened.{Opened};

use crate::errors::{BAD_DESCRIPTOR, INVALID, NO_SEEK, TOO_MANY_OPEN};
use nv_words::signed;
use unix_definition::{Description, Opened, Target};
use unix_files::Disk;

/// A further descriptor for what a descriptor stands for.
pub fn dup(disk: &Disk, opened: &mut Opened, fd: u32) -> i32
    ensures { (s : System) → dup (system_with_tables s disk.now opened.old) fd
        ≡ (value_only result, system_with_tables s disk.now opened.new) }
{
    let Some(d) = opened.number(fd) else {
        return BAD_DESCRIPTOR;
    };
    let Some(lowest) = opened.free_descriptor() else {
        return TOO_MANY_OPEN;
    };
    opened.set_descriptor(lowest, Some(d));
    lowest as i32
}

/// Whether a descriptor stands for the console.
pub fn isatty(disk: &Disk, opened: &Opened, fd: u32) -> i32
    ensures { (s : System) → isatty (system_with_tables s disk.now opened.now) fd
        ≡ (value_only result, system_with_tables s disk.now opened.now) }
{
    let Some((_, description)) = opened.at(fd) else {
        return BAD_DESCRIPTOR;
    };
    match description.target {
        Target::File(_) => 0,
        _ => 1,
    }
}

/// Takes a descriptor away, and what is used no longer.
pub fn close(disk: &mut Disk, opened: &mut Opened, fd: u32) -> i32
    ensures { (s : System) → close (system_with_tables s disk.old opened.old) fd
        ≡ (value_only result, system_with_tables s disk.new opened.new) }
{
    let Some(d) = opened.number(fd) else {
        return BAD_DESCRIPTOR;
    };
    opened.set_descriptor(fd as usize, None);
    let description = opened.description(d);
    opened.release(d);
    drop_file_of(disk, opened, description);
    0
}

/// Drops the file of a description that may be gone, if it has no name and is not open.
fn drop_file_of(disk: &mut Disk, opened: &Opened, description: Option<Description>)
    ensures { disk.new ≡ files_without disk.old opened.now description }
{
    if let Some(description) = description
        && let Target::File(n) = description.target
    {
        drop_unused(disk, opened, n);
    }
}

/// Drops a file that has no name and is not open.
pub fn drop_unused(disk: &mut Disk, opened: &Opened, n: usize)
    ensures { disk.new ≡ without_unused disk.old opened.now n }
{
    if !disk.is_named(n) && !opened.is_open(n) {
        disk.remove(n);
    }
}

/// Moves the place of an open file, and answers it.
pub fn lseek(disk: &Disk, opened: &mut Opened, fd: u32, offset: u32, whence: u32) -> i32
    ensures { (s : System) → lseek (system_with_tables s disk.now opened.old) fd offset whence
        ≡ (value_only result, system_with_tables s disk.now opened.new) }
{
    let Some((d, description)) = opened.at(fd) else {
        return BAD_DESCRIPTOR;
    };
    let Target::File(n) = description.target else {
        return NO_SEEK;
    };
    seek_file(disk, opened, (d, description), n, offset, whence)
}

fn seek_file(
    disk: &Disk,
    opened: &mut Opened,
    found: (usize, Description),
    n: usize,
    offset: u32,
    whence: u32,
) -> i32
    requires { found.0 < 64 }
    ensures { (s : System)
        → file_sought (system_with_tables s disk.now opened.old) found.0 found.1 n offset whence
        ≡ (value_only result, system_with_tables s disk.now opened.new) }
{
    if whence > 2 {
        return INVALID;
    }
    let (d, description) = found;
    match place_from(seek_base(disk, n, &description, whence), offset) {
        None => INVALID,
        Some(place) => {
            opened.set_description(d, Some(description.at(place)));
            place as i32
        }
    }
}

/// The place that lies a signed number of bytes from another one, where a file may have it.
fn place_from(base: u32, offset: u32) -> Option<u32>
    ensures value { result ≡ file_place (pos base +ℤ signed_of offset) }
    ensures small { IfSome result (λ place. place ≤ 0x7FFFFFFF) }
{
    let place = i64::from(base) + i64::from(signed(offset));
    if place < 0 || 0x7FFF_FFFF < place {
        return None;
    }
    Some(place as u32)
}

/// From where an offset counts: the start, the place, or the file's end.
fn seek_base(disk: &Disk, n: usize, description: &Description, whence: u32) -> u32
    ensures { result ≡ seek_base disk.now n description.now whence }
{
    match whence {
        0 => 0,
        1 => description.place,
        _ => disk.size(n),
    }
}
