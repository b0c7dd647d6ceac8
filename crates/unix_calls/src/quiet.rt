//! The calls that read no input, write to no sink, and put nothing into the program's memory.

ghost use Rattle.std.specs.Prelude.{◌≡◌, ◌≢◌, ◌≤◌, ◌%◌, ◌^◌, pos};
ghost use Rattle.run_definition.specs.Question.{asked};
ghost use Rattle.unix_definition.specs.System.{System, system_with_tables};
ghost use Rattle.unix_definition.specs.Asked.{value_only};
ghost use Rattle.unix_definition.specs.Unix.{unix};
ghost use Rattle.unix_calls.specs.Held.{with_parts};

use crate::numbers::{
    CLOSE, DUP, FTRUNCATE, GETPID, ISATTY, LSEEK, OPEN, RENAME, SBRK, TIME, UNLINK,
};
use nv_events::{Call, View};
use unix_files::Disk;
use unix_system::descriptor_calls::{close, dup, isatty, lseek};
use unix_system::errors::NO_CALL;
use unix_system::file_calls::ftruncate;
use unix_system::heap_calls::sbrk;
use unix_system::{Heap, Opened, name_calls, read_path};

fn open<M: View>(disk: &mut Disk, opened: &mut Opened, call: &Call, view: &M) -> i32
    requires { call.now.number ≡ 2 }
    ensures { (s : System)
        → unix (system_with_tables s disk.old opened.old) (asked call.now (M.memory (M.content view.now)))
        ≡ (value_only result, system_with_tables s disk.new opened.new) }
{
    let path = read_path(view, call.a0);
    name_calls::open(disk, opened, &path, call.a1)
}

fn unlink<M: View>(disk: &mut Disk, opened: &Opened, call: &Call, view: &M) -> i32
    requires { call.now.number ≡ 9 }
    ensures { (s : System)
        → unix (system_with_tables s disk.old opened.now) (asked call.now (M.memory (M.content view.now)))
        ≡ (value_only result, system_with_tables s disk.new opened.now) }
{
    let path = read_path(view, call.a0);
    name_calls::unlink(disk, opened, &path)
}

fn rename<M: View>(disk: &mut Disk, opened: &Opened, call: &Call, view: &M) -> i32
    requires { call.now.number ≡ 14 }
    ensures { (s : System)
        → unix (system_with_tables s disk.old opened.now) (asked call.now (M.memory (M.content view.now)))
        ≡ (value_only result, system_with_tables s disk.new opened.now) }
{
    let old = read_path(view, call.a0);
    let new = read_path(view, call.a1);
    name_calls::rename(disk, opened, &old, &new)
}

/// A moment modulo 2^31.
fn time(moment: u64) -> i32
    ensures { result ≡ pos (moment % 2 ^ 31) }
{
    (moment % 0x8000_0000) as i32
}

/// Answers a call.
pub fn answer<M: View>(
    disk: &mut Disk,
    opened: &mut Opened,
    heap: &mut Heap,
    moment: u64,
    call: &Call,
    view: &M,
) -> i32
    requires within { (heap.old.program_break ≤ heap.old.end) × (heap.old.end ≤ 0x7FFFFFFF) }
    requires number { (call.now.number ≢ 0) × (call.now.number ≢ 4) × (call.now.number ≢ 5)
        × (call.now.number ≢ 8) }
    ensures call { (s : System)
        → unix (with_parts s disk.old opened.old heap.old moment)
        (asked call.now (M.memory (M.content view.now)))
        ≡ (value_only result, with_parts s disk.new opened.new heap.new moment) }
    ensures within { (heap.new.program_break ≤ heap.new.end) × (heap.new.end ≤ 0x7FFFFFFF) }
{
    match call.number {
        OPEN => open(disk, opened, call, view),
        CLOSE => close(disk, opened, call.a0),
        LSEEK => lseek(disk, opened, call.a0, call.a1, call.a2),
        SBRK => sbrk(heap, call.a0),
        UNLINK => unlink(disk, opened, call, view),
        DUP => dup(disk, opened, call.a0),
        FTRUNCATE => ftruncate(disk, opened, call.a0, call.a1),
        GETPID => 1,
        TIME => time(moment),
        RENAME => rename(disk, opened, call, view),
        ISATTY => isatty(disk, opened, call.a0),
        _ => NO_CALL,
    }
}
