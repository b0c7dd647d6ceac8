//! The calls on the bytes of files.

ghost use Rattle.std.specs.Prelude.{◌≡◌, ◌≤◌, ◌<◌, ◌+◌, ◌-◌, ◌^◌, IsTrue, IsSome, length, take, drop, nat_lt};
ghost use Rattle.std.specs.List.{list_all};
ghost use Rattle.run_definition.specs.Memory.{can_write, patched, bytes_from};
ghost use Rattle.run_definition.specs.Question.{asked_text_at, there};
ghost use Rattle.run_definition.specs.declared.text_place.TextPlace.TheVariants.{Counted};
ghost use Rattle.unix_definition.specs.Files.{blocks_for, node_at, bytes_at, with_bytes, written, resized};
ghost use Rattle.unix_definition.specs.System.{System, system_with_tables};
ghost use Rattle.unix_definition.specs.Asked.{value_only, bytes_of_text};
ghost use Rattle.unix_definition.specs.Calls.{ftruncate, file_resized, file_read, file_written, write_place};
ghost use Rattle.unix_system.specs.Serving.{Gives};

use crate::errors::{BAD_DESCRIPTOR, INVALID, NO_SPACE, TOO_LARGE};
use crate::guest::read_piece;
use nv_events::View;
use unix_definition::{Description, Opened, Target};
use unix_files::Disk;

/// Cuts an open file, or puts zeros after its bytes.
pub fn ftruncate(disk: &mut Disk, opened: &Opened, fd: u32, size: u32) -> i32
    ensures { (s : System) → ftruncate (system_with_tables s disk.old opened.now) fd size
        ≡ (value_only result, system_with_tables s disk.new opened.now) }
{
    let Some((_, description)) = opened.at(fd) else {
        return BAD_DESCRIPTOR;
    };
    if !description.may_write {
        return BAD_DESCRIPTOR;
    }
    match description.target {
        Target::File(n) => resize_file(disk, opened, n, size),
        _ => INVALID,
    }
}

fn resize_file(disk: &mut Disk, opened: &Opened, n: usize, size: u32) -> i32
    ensures { (s : System) → file_resized (system_with_tables s disk.old opened.now) n size
        ≡ (value_only result, system_with_tables s disk.new opened.now) }
{
    if size >= 0x8000_0000 {
        return INVALID;
    }
    if !disk.has_blocks(n, size) {
        return NO_SPACE;
    }
    disk.resize(n, size);
    0
}

/// Reads an open file from its place on, which moves past what was read.
pub fn read_file<M: View>(
    disk: &mut Disk,
    opened: &mut Opened,
    found: (usize, Description),
    n: usize,
    count: u32,
    place: u32,
    view: &mut M,
) -> i32
    requires within { found.0 < 64 }
    requires small { count < 0x80000000 }
    requires room { IsTrue (can_write (M.memory (M.content view.old)) place count) }
    ensures call { (s : System)
        → Gives M.put_at (M.content view.old) (M.content view.new) (there place count) result
        (system_with_tables s disk.new opened.new)
        (file_read (system_with_tables s disk.old opened.old) found.0 found.1
        (take count (drop found.1.place (bytes_at disk.old n)))) }
{
    let (d, description) = found;
    let from = description.place;
    let given = disk.size(n).saturating_sub(from).min(count);
    copy_out(disk, n, from, given, place, view);
    opened.set_description(d, Some(description.at(from + given)));
    given as i32
}

/// Writes bytes of the program's memory, all of which can be read, into an open file, at its place or its end.
pub fn write_file<M: View>(
    disk: &mut Disk,
    opened: &mut Opened,
    found: (usize, Description),
    n: usize,
    at: u32,
    count: u32,
    view: &M,
) -> i32
    requires within { found.0 < 64 }
    requires small { count < 0x80000000 }
    requires readable { IsSome (bytes_from (M.memory (M.content view.now)) at count) }
    ensures { (s : System)
        → file_written (system_with_tables s disk.old opened.old) found.0 found.1 n
        (bytes_of_text (asked_text_at (M.memory (M.content view.now)) (Counted at count)))
        (write_place disk.old n found.1)
        ≡ (value_only result, system_with_tables s disk.new opened.new) }
{
    let (d, description) = found;
    let start = write_place(disk, n, &description);
    let end = u64::from(start) + u64::from(count);
    if end > 0x7FFF_FFFF {
        return TOO_LARGE;
    }
    if !disk.has_blocks(n, size_after(disk.size(n), end as u32)) {
        return NO_SPACE;
    }
    if disk.has(n) {
        copy_in(disk, n, start, at, count, view);
    }
    opened.set_description(d, Some(description.at(end as u32)));
    count as i32
}

/// The bytes of a file that had `size` after a write that ends at `end`.
fn size_after(size: u32, end: u32) -> u32
    ensures { result ≡ end + (size - end) }
{
    if size < end { end } else { size }
}

/// Where a write of a file begins.
fn write_place(disk: &Disk, n: usize, description: &Description) -> u32
    ensures { result ≡ write_place disk.now n description.now }
{
    if description.appends {
        disk.size(n)
    } else {
        description.place
    }
}

/// Puts bytes of a file into the program's memory.
pub fn copy_out<M: View>(disk: &mut Disk, n: usize, from: u32, count: u32, place: u32, view: &mut M)
    requires there { 0 < count → from + count ≤ length (bytes_at disk.old n) }
    requires fits { from + count < 2 ^ 32 }
    requires room { IsTrue (can_write (M.memory (M.content view.old)) place count) }
    ensures bytes { M.content view.new
        ≡ patched M.put_at (M.content view.old) place
        (take count (drop from (bytes_at disk.old n))) }
    ensures small { IsTrue
        (list_all (λ x. nat_lt x 256) (take count (drop from (bytes_at disk.old n)))) }
    ensures same { disk.new ≡ disk.old }
{
    view.laws();
    for i in 0..count {
        let b = disk.byte(n, from + i);
        view.put(place + i, b);
    }
}

/// The bytes of a piece, which is read and written at once.
const PIECE: u32 = 4096;

/// Writes bytes of the program's memory into a file at a place.
pub fn copy_in<M: View>(disk: &mut Disk, n: usize, place: u32, at: u32, count: u32, view: &M)
    requires file { IsSome (node_at disk.old n) }
    requires readable { IsSome (bytes_from (M.memory (M.content view.now)) at count) }
    requires small { place + count ≤ 0x7FFFFFFF }
    requires room { blocks_for (place + count) ≤ blocks_for (length (bytes_at disk.old n))
        + disk.old.free }
    ensures { disk.new
        ≡ with_bytes disk.old n (written (bytes_at disk.old n) place
        (bytes_of_text (asked_text_at (M.memory (M.content view.now)) (Counted at count)))) }
{
    disk.write(n, place, &[]);
    let mut done = 0;
    while done < count {
        let size = (count - done).min(PIECE);
        let piece = read_piece(view, at, done, size);
        disk.write(n, place + done, piece.as_slice());
        done += size;
    }
}
