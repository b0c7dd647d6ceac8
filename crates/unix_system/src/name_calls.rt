//! The calls on names of files.

ghost use Rattle.std.specs.Prelude.{◌≡◌, ◌≤◌, ◌<◌, Some, pos, length};
ghost use Rattle.unix_definition.specs.Opened.{with_descriptor, with_description};
ghost use Rattle.unix_definition.specs.System.{System, system_with_tables};
ghost use Rattle.unix_definition.specs.Asked.{value_only, reads, writes, appends, has_open_flag};
ghost use Rattle.unix_definition.specs.Calls.{unlink, unlink_named, rename, rename_named, renamed, without_name, open_file, open_named, create_file, open_present, opened_as, description_for};
ghost use Rattle.unix_system.specs.Paths.{text_of, IsShort};
ghost use Rattle.unix_definition.specs.declared.opened.Opened.{Opened};

use crate::descriptor_calls::drop_unused;
use crate::errors::{INVALID, NO_ENTRY, NO_SPACE, PRESENT, TOO_MANY_OPEN};
use crate::path::Path;
use unix_definition::{Description, Opened, Target};
use unix_files::Disk;

/// Takes the name of a file away. The file stays while it is open.
pub fn unlink(disk: &mut Disk, opened: &Opened, path: &Path) -> i32
    requires { IsShort path.now }
    ensures { (s : System) → unlink (system_with_tables s disk.old opened.now) (text_of path.now)
        ≡ (value_only result, system_with_tables s disk.new opened.now) }
{
    match path.refusal() {
        Some(refusal) => refusal,
        None => unlink_named(disk, opened, path.name()),
    }
}

fn unlink_named(disk: &mut Disk, opened: &Opened, name: &[u8]) -> i32
    ensures { (s : System) → unlink_named (system_with_tables s disk.old opened.now) name.now
        ≡ (value_only result, system_with_tables s disk.new opened.now) }
{
    match disk.named(name) {
        None => NO_ENTRY,
        Some(n) => {
            take_name(disk, opened, n);
            0
        }
    }
}

fn take_name(disk: &mut Disk, opened: &Opened, n: usize)
    requires { n < 256 }
    ensures { disk.new ≡ without_name disk.old opened.now n }
{
    disk.unname(n);
    drop_unused(disk, opened, n);
}

/// Gives a file another name, which a present file of that name loses.
pub fn rename(disk: &mut Disk, opened: &Opened, old: &Path, new: &Path) -> i32
    requires old_short { IsShort old.now }
    requires new_short { IsShort new.now }
    ensures { (s : System)
        → rename (system_with_tables s disk.old opened.now) (text_of old.now) (text_of new.now)
        ≡ (value_only result, system_with_tables s disk.new opened.now) }
{
    if let Some(refusal) = old.refusal() {
        return refusal;
    }
    match new.refusal() {
        Some(refusal) => refusal,
        None => rename_named(disk, opened, old.name(), new.name()),
    }
}

fn rename_named(disk: &mut Disk, opened: &Opened, from: &[u8], to: &[u8]) -> i32
    requires { length to.now ≤ 255 }
    ensures { (s : System) → rename_named (system_with_tables s disk.old opened.now) from.now to.now
        ≡ (value_only result, system_with_tables s disk.new opened.now) }
{
    match disk.named(from) {
        None => NO_ENTRY,
        Some(n) => {
            rename_file(disk, opened, n, from, to);
            0
        }
    }
}

fn rename_file(disk: &mut Disk, opened: &Opened, n: usize, from: &[u8], to: &[u8])
    requires file { n < 256 }
    requires short { length to.now ≤ 255 }
    ensures { disk.new ≡ renamed disk.old opened.now n from.now to.now }
{
    if from == to {
        return;
    }
    if let Some(other) = disk.named(to) {
        take_name(disk, opened, other);
    }
    disk.set_name(n, to);
}

/// Opens a file, which is made where it is not there and that is wanted.
pub fn open(disk: &mut Disk, opened: &mut Opened, path: &Path, flags: u32) -> i32
    requires { IsShort path.now }
    ensures { (s : System) → open_file (system_with_tables s disk.old opened.old) (text_of path.now) flags
        ≡ (value_only result, system_with_tables s disk.new opened.new) }
{
    match path.refusal() {
        Some(refusal) => refusal,
        None => open_named(disk, opened, path.name(), flags),
    }
}

fn open_named(disk: &mut Disk, opened: &mut Opened, name: &[u8], flags: u32) -> i32
    requires { length name.now ≤ 255 }
    ensures { (s : System) → open_named (system_with_tables s disk.old opened.old) name.now flags
        ≡ (value_only result, system_with_tables s disk.new opened.new) }
{
    if flags % 4 == 3 {
        return INVALID;
    }
    match disk.named(name) {
        None => create(disk, opened, name, flags),
        Some(n) => open_present(disk, opened, n, flags),
    }
}

fn create(disk: &mut Disk, opened: &mut Opened, name: &[u8], flags: u32) -> i32
    requires { length name.now ≤ 255 }
    ensures { (s : System) → create_file (system_with_tables s disk.old opened.old) name.now flags
        ≡ (value_only result, system_with_tables s disk.new opened.new) }
{
    if !has_flag(flags, CREATE) {
        return NO_ENTRY;
    }
    let Some(free) = opened.free_places() else {
        return TOO_MANY_OPEN;
    };
    match disk.unused() {
        None => NO_SPACE,
        Some(n) => {
            disk.set_name(n, name);
            open_as(opened, free, description_for(n, flags))
        }
    }
}

fn open_present(disk: &mut Disk, opened: &mut Opened, n: usize, flags: u32) -> i32
    ensures { (s : System) → open_present (system_with_tables s disk.old opened.old) n flags
        ≡ (value_only result, system_with_tables s disk.new opened.new) }
{
    if has_flag(flags, CREATE) && has_flag(flags, EXCLUSIVE) {
        return PRESENT;
    }
    let Some(free) = opened.free_places() else {
        return TOO_MANY_OPEN;
    };
    if has_flag(flags, TRUNCATE) && may_write(flags) {
        disk.resize(n, 0);
    }
    open_as(opened, free, description_for(n, flags))
}

/// A free descriptor stands for a description.
fn open_as(opened: &mut Opened, free: (usize, usize), description: Description) -> i32
    requires { (free.0 < 64) × (free.1 < 64) }
    ensures opened { opened.new
        ≡ with_descriptor (with_description opened.old free.1 (Some description)) free.0
        (Some free.1) }
    ensures fd { result ≡ pos free.0 }
{
    let (fd, d) = free;
    opened.set_description(d, Some(description));
    opened.set_descriptor(fd, Some(d));
    fd as i32
}

const APPEND: u32 = 0x8;

const CREATE: u32 = 0x200;

const TRUNCATE: u32 = 0x400;

const EXCLUSIVE: u32 = 0x800;

fn has_flag(flags: u32, flag: u32) -> bool
    requires { 0 < flag }
    ensures { result ≡ has_open_flag flags flag }
{
    flags / flag % 2 == 1
}

fn may_read(flags: u32) -> bool
    ensures { result ≡ reads flags }
{
    flags % 4 == 0 || flags % 4 == 2
}

fn may_write(flags: u32) -> bool
    ensures { result ≡ writes flags }
{
    flags % 4 == 1 || flags % 4 == 2
}

/// A file as these flags open it, at its start.
fn description_for(n: usize, flags: u32) -> Description
    ensures { result ≡ description_for n flags }
{
    Description {
        target: Target::File(n),
        place: 0,
        may_read: may_read(flags),
        may_write: may_write(flags),
        appends: has_flag(flags, APPEND),
    }
}
