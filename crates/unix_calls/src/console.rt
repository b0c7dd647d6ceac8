//! What a program writes to the console.

ghost use Rattle.std.specs.Prelude.{◌≡◌, ◌<◌, IfOk, OnOk, OnErr, IsSome, pos, length};
ghost use Rattle.nv_outside.specs.Seen.{FailsIn, Takes, output_seen};
ghost use Rattle.run_definition.specs.Memory.{bytes_from};
ghost use Rattle.run_definition.specs.Question.{asked_text_at};
ghost use Rattle.run_definition.specs.declared.text_place.TextPlace.TheVariants.{Counted};
ghost use Rattle.unix_definition.specs.Asked.{bytes_of_text};
ghost use Rattle.unix_definition.specs.Calls.{write_target};
ghost use Rattle.unix_calls.specs.Access.{write_of};
ghost use Rattle.unix_calls.specs.Reading.{outputs, WriteGives};

use crate::access::{Access, may_write};
use nv_events::{Call, View};
use nv_outside::{Failed, Sink, write_all};
use unix_files::Disk;
use unix_system::errors::BAD_DESCRIPTOR;
use unix_system::file_calls::write_file;
use unix_system::guest::read_piece;
use unix_system::{Description, Opened, Target};

/// The most bytes that are written at once.
const PIECE: u32 = 4096;

/// Writes bytes of the program's memory, all of which can be read, to a sink, in pieces. After a failure it has a front
/// part of them, but not all.
pub fn write_out<M: View, K: Sink>(
    sink: &mut K,
    at: u32,
    count: u32,
    view: &M,
) -> Result<(), Failed>
    requires { IsSome (bytes_from (M.memory (M.content view.now)) at count) }
    ensures ok { OnOk result (Takes (output_seen K.Sink sink.old) (output_seen K.Sink sink.new)
        (bytes_of_text (asked_text_at (M.memory (M.content view.now)) (Counted at count)))) }
    ensures err { OnErr result (FailsIn (output_seen K.Sink sink.old) (output_seen K.Sink sink.new)
        (bytes_of_text (asked_text_at (M.memory (M.content view.now)) (Counted at count)))) }
{
    let mut done = 0;
    while done < count {
        let size = (count - done).min(PIECE);
        let piece = read_piece(view, at, done, size);
        write_all(sink, piece.as_slice())?;
        done += size;
    }
    Ok(())
}

/// Writes the bytes of a call to a sink, if they can be read.
fn write_console<M: View, K: Sink>(sink: &mut K, call: &Call, view: &M) -> Result<i32, Failed>
    requires few { call.now.a2 < 0x80000000 }
    requires readable { IsSome
        (bytes_from (M.memory (M.content view.now)) call.now.a1 call.now.a2) }
    ensures value { IfOk result (λ v. v
        ≡ pos (length
        (bytes_of_text (asked_text_at (M.memory (M.content view.now))
        (Counted call.now.a1 call.now.a2))))) }
    ensures ok { OnOk result (Takes (output_seen K.Sink sink.old) (output_seen K.Sink sink.new)
        (bytes_of_text (asked_text_at (M.memory (M.content view.now))
        (Counted call.now.a1 call.now.a2)))) }
    ensures err { OnErr result (FailsIn (output_seen K.Sink sink.old) (output_seen K.Sink sink.new)
        (bytes_of_text (asked_text_at (M.memory (M.content view.now))
        (Counted call.now.a1 call.now.a2)))) }
{
    write_out(sink, call.a1, call.a2, view)?;
    Ok(call.a2 as i32)
}

/// Writes the bytes of a call to what a description stands for, if they can be read.
fn write_to<M: View, O: Sink, E: Sink>(
    disk: &mut Disk,
    opened: &mut Opened,
    found: (usize, Description),
    call: &Call,
    view: &M,
    out: &mut O,
    err: &mut E,
) -> Result<i32, Failed>
    requires within { found.0 < 64 }
    requires few { call.now.a2 < 0x80000000 }
    requires readable { IsSome
        (bytes_from (M.memory (M.content view.now)) call.now.a1 call.now.a2) }
    ensures served { WriteGives (λ s. write_target s found.0 found.1
        (bytes_of_text (asked_text_at (M.memory (M.content view.now))
        (Counted call.now.a1 call.now.a2))) found.1.target)
        (outputs disk.old opened.old (output_seen O.Sink out.old) (output_seen E.Sink err.old))
        (outputs disk.new opened.new (output_seen O.Sink out.new) (output_seen E.Sink err.new))
        result }
{
    match found.1.target {
        Target::File(n) => Ok(write_file(disk, opened, found, n, call.a1, call.a2, view)),
        Target::Input => Ok(BAD_DESCRIPTOR),
        Target::Output => write_console(out, call, view),
        Target::ErrorOutput => write_console(err, call, view),
    }
}

/// Writes to a descriptor.
pub fn write<M: View, O: Sink, E: Sink>(
    disk: &mut Disk,
    opened: &mut Opened,
    call: &Call,
    view: &M,
    out: &mut O,
    err: &mut E,
) -> Result<i32, Failed>
    ensures served { WriteGives (write_of (M.memory (M.content view.now)) call.now)
        (outputs disk.old opened.old (output_seen O.Sink out.old) (output_seen E.Sink err.old))
        (outputs disk.new opened.new (output_seen O.Sink out.new) (output_seen E.Sink err.new))
        result }
{
    match may_write(opened, call, view) {
        Access::Answered(value) => Ok(value),
        Access::Granted(d, description) => {
            write_to(disk, opened, (d, description), call, view, out, err)
        }
    }
}
