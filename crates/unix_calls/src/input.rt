//! What a program reads from the console.

ghost use Rattle.std.specs.Prelude.{◌≡◌, ◌<◌, ℕ, Some, IfOk, OnErr, IsTrue, is_err, min, pos};
ghost use Rattle.nv_outside.specs.Faults.{CountsFailure};
ghost use Rattle.run_definition.specs.Memory.{can_write};
ghost use Rattle.run_definition.specs.Question.{room_at, there};
ghost use Rattle.unix_definition.specs.System.{System};
ghost use Rattle.unix_definition.specs.Calls.{read_target};
ghost use Rattle.unix_calls.specs.Access.{read_of};
ghost use Rattle.unix_calls.specs.Drawing.{ReadsLine, ReadsSome};
ghost use Rattle.unix_calls.specs.Reading.{inputs, ReadGives};

use crate::access::{Access, may_read};
use crate::read_ahead::ReadAhead;
use nv_events::{Call, View};
use nv_outside::{Failed, Source};
use unix_files::Disk;
use unix_system::errors::BAD_DESCRIPTOR;
use unix_system::file_calls::read_file;
use unix_system::{Description, Opened, Target};

/// The byte at the end of a line.
const NEWLINE: u8 = 0x0A;

/// Puts the first line of input into the program's memory, at most `count` bytes of it, and answers how many they are.
pub fn read_line<M: View, S: Source>(
    ahead: &mut ReadAhead,
    source: &mut S,
    place: u32,
    count: u32,
    view: &mut M,
) -> Result<u32, Failed>
    requires { IsTrue (can_write (M.memory (M.content view.old)) place count) }
    ensures ok { IfOk result (λ n. ReadsLine M.put_at (M.content view.old) (M.content view.new)
        place count ahead.old ahead.new (S.rest source.old) (S.rest source.new) n) }
    ensures err { OnErr result (ReadsSome M.put_at (M.content view.old) (M.content view.new)
        place count ahead.old ahead.new (S.rest source.old) (S.rest source.new)) }
    ensures count { CountsFailure (is_err result) (S.faults source.old) (S.faults source.new) }
{
    view.laws();
    for i in 0..count {
        match ahead.next(source)? {
            None => return Ok(i),
            Some(b) => {
                put_byte(view, place + i, b);
                if b == NEWLINE {
                    return Ok(i + 1);
                }
            }
        }
    }
    Ok(count)
}

/// Puts a byte where it may be written.
fn put_byte<M: View>(view: &mut M, at: u32, b: u8)
    requires { IsTrue ((M.memory (M.content view.old)).writable at) }
    ensures after { M.content view.new ≡ M.put_at (M.content view.old) at b }
    ensures small { b < 256 }
    ensures same_room { (x : ℕ) → (M.memory (M.content view.new)).writable x
        ≡ (M.memory (M.content view.old)).writable x }
{
    view.laws();
    view.put(at, b);
}

/// Reads the console, where the room is there: at most `most` bytes.
fn read_console<M: View, S: Source>(
    ahead: &mut ReadAhead,
    most: u32,
    call: &Call,
    view: &mut M,
    source: &mut S,
) -> Result<i32, Failed>
    requires few { call.now.a2 < 0x80000000 }
    requires room { IsTrue (can_write (M.memory (M.content view.old)) call.now.a1 call.now.a2) }
    ensures ok { IfOk result (λ v. (n : ℕ)
        × ReadsLine M.put_at (M.content view.old) (M.content view.new)
        call.now.a1 (min call.now.a2 most) ahead.old ahead.new (S.rest source.old)
        (S.rest source.new) n × (v ≡ pos n)) }
    ensures err { OnErr result (ReadsSome M.put_at (M.content view.old) (M.content view.new)
        call.now.a1 (min call.now.a2 most) ahead.old ahead.new (S.rest source.old)
        (S.rest source.new)) }
    ensures count { CountsFailure (is_err result) (S.faults source.old) (S.faults source.new) }
{
    let n = read_line(ahead, source, call.a1, call.a2.min(most), view)?;
    Ok(n as i32)
}

/// Reads what a description stands for, where the room is there.
fn read_from<M: View, S: Source>(
    disk: &mut Disk,
    opened: &mut Opened,
    ahead: &mut ReadAhead,
    most: u32,
    found: (usize, Description),
    call: &Call,
    view: &mut M,
    source: &mut S,
) -> Result<i32, Failed>
    requires within { found.0 < 64 }
    requires few { call.now.a2 < 0x80000000 }
    requires room { IsTrue (can_write (M.memory (M.content view.old)) call.now.a1 call.now.a2) }
    ensures served { ReadGives M.put_at (λ s.
        read_target s found.0 found.1 call.now.a2 found.1.target)
        (there call.now.a1 call.now.a2) (M.content view.old) (M.content view.new)
        (inputs most disk.old opened.old ahead.old (S.rest source.old))
        (inputs most disk.new opened.new ahead.new (S.rest source.new)) result }
    ensures count { CountsFailure (is_err result) (S.faults source.old) (S.faults source.new) }
{
    match found.1.target {
        Target::File(n) => Ok(read_file(disk, opened, found, n, call.a2, call.a1, view)),
        Target::Input => read_console(ahead, most, call, view, source),
        _ => Ok(BAD_DESCRIPTOR),
    }
}

/// Reads from a descriptor. Of input it reads at most `most` bytes.
pub fn read<M: View, S: Source>(
    disk: &mut Disk,
    opened: &mut Opened,
    ahead: &mut ReadAhead,
    most: u32,
    call: &Call,
    view: &mut M,
    source: &mut S,
) -> Result<i32, Failed>
    ensures served { ReadGives M.put_at (read_of (M.memory (M.content view.old)) call.now)
        (room_at (M.memory (M.content view.old)) (Some (call.now.a1, call.now.a2)))
        (M.content view.old) (M.content view.new)
        (inputs most disk.old opened.old ahead.old (S.rest source.old))
        (inputs most disk.new opened.new ahead.new (S.rest source.new)) result }
    ensures count { CountsFailure (is_err result) (S.faults source.old) (S.faults source.new) }
{
    match may_read(opened, call, view) {
        Access::Answered(value) => Ok(value),
        Access::Granted(d, description) => {
            let found = (d, description);
            read_from(disk, opened, ahead, most, found, call, view, source)
        }
    }
}
