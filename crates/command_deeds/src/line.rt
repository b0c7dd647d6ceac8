ghost use Rattle.std.specs.Prelude.{◌+◌, ◌≤◌, length, map};
ghost use Rattle.command_deeds.specs.Line.{asm_line, fault_line, fault_pieces, image_line, pieces_joined, answer_line, number_line, numbers_line, stage_line, stage_lines, stages_of, tables_line};
ghost use Rattle.command_deeds.specs.World.{Writes, output_seen};

use crate::digits::{decimal, decimal_long, decimal_signed, hexadecimal};
use crate::done::Done;
use elf_definition::ImageFault;
use itoa::Buffer;
use mips_definition::AsmFault;
use nv_events::{Fault, Outcome};
use nv_outside::{Failed, Sink, write_all};

/// Writes the line of an answer, or its lines, where this name was asked for. Takes no memory.
pub fn write_line<E: Sink>(err: &mut E, name: &str, done: &Done) -> Result<(), Failed>
    ensures writes { Writes (output_seen E.Sink err.old) (output_seen E.Sink err.new)
        (answer_line name.now done.now) result }
{
    match *done {
        Done::Good | Done::Exited(_) | Done::WriteFault => Ok(()),
        Done::ReadFault => write_text(err, b"nested: read fault\n"),
        Done::ShelfFault => write_text(err, b"nested: shelf fault\n"),
        Done::NoMemory => write_text(err, b"nested: no memory\n"),
        Done::Usage(kind) => write_number(err, b"nested: usage ", u64::from(kind)),
        Done::ArgsTooLong(bytes) => write_number(err, b"nested: arguments ", bytes),
        Done::FilesTooLarge(blocks) => write_number(err, b"nested: files ", blocks),
        Done::AsmRefused(fault) => write_asm_fault(err, fault),
        Done::ObjRefused(fault) => {
            write_numbers(err, b"nested: object ", fault.object, fault.kind, fault.at)
        }
        Done::Spent => write_text(err, b"nested: spent\n"),
        Done::NoInput(_) => write_pieces(err, &[b"nested: no file ", name.as_bytes(), b"\n"]),
        Done::Faulted(fault) => write_fault(err, fault),
        Done::ElfRefused(fault) => {
            write_numbers(err, b"nested: elf ", fault.kind, fault.i, fault.j)
        }
        Done::ImageRefused(fault) => write_image_fault(err, fault),
        Done::ClassRefused { class, kind, at } => {
            write_numbers(err, b"nested: class ", class, kind, at)
        }
        Done::LinkRefused(fault) => {
            write_numbers(err, b"nested: link ", fault.kind, fault.class, fault.slot)
        }
        Done::VerifyRefused(fault) => {
            write_numbers(err, b"nested: verify ", fault.class, fault.method, fault.at)
        }
        Done::FrameRefused(fault) => {
            write_numbers(
                err,
                b"nested: frames ",
                fault.class,
                fault.method,
                fault.kind,
            )
        }
        Done::FramesTooLarge { class, bytes } => write_size(err, class, bytes),
        Done::Piped(stages) => write_stages(err, 0, &stages.stages),
        Done::Trapped(kind) => write_number(err, b"nested: trap ", u64::from(kind)),
    }
}

/// Writes the line of a fault of the guest.
fn write_fault<E: Sink>(err: &mut E, fault: Fault) -> Result<(), Failed>
    ensures writes { Writes (output_seen E.Sink err.old) (output_seen E.Sink err.new)
        (fault_line fault) result }
{
    write_fault_end(err, b"nested: fault ", fault)
}

/// Writes a text and a fault of the guest, as the end of a line.
fn write_fault_end<E: Sink>(err: &mut E, text: &[u8], fault: Fault) -> Result<(), Failed>
    ensures writes { Writes (output_seen E.Sink err.old) (output_seen E.Sink err.new)
        (pieces_joined (fault_pieces text.now fault)) result }
{
    let mut digits = Buffer::new();
    let kind = decimal(&mut digits, fault.kind);
    let pc = hexadecimal(fault.pc);
    let value = hexadecimal(fault.value);
    write_pieces(err, &[text, kind, b" pc ", &pc, b" value ", &value, b"\n"])
}

/// Writes a text and three numbers, as a line.
fn write_numbers<E: Sink>(
    err: &mut E,
    text: &[u8],
    first: u32,
    second: u32,
    third: u32,
) -> Result<(), Failed>
    ensures writes { Writes (output_seen E.Sink err.old) (output_seen E.Sink err.new)
        (numbers_line text.now first second third) result }
{
    let (mut firsts, mut seconds, mut thirds) = (Buffer::new(), Buffer::new(), Buffer::new());
    let a = decimal(&mut firsts, first);
    let b = decimal(&mut seconds, second);
    let c = decimal(&mut thirds, third);
    write_pieces(err, &[text, a, b" ", b, b" ", c, b"\n"])
}

/// Writes the line of a class that would be too large with its tables.
fn write_size<E: Sink>(err: &mut E, class: u32, bytes: u64) -> Result<(), Failed>
    ensures writes { Writes (output_seen E.Sink err.old) (output_seen E.Sink err.new)
        (tables_line class bytes) result }
{
    let (mut classes, mut sizes) = (Buffer::new(), Buffer::new());
    let class = decimal(&mut classes, class);
    let bytes = decimal_long(&mut sizes, bytes);
    write_pieces(err, &[b"nested: tables ", class, b" ", bytes, b"\n"])
}

/// Writes a line for each of these stages, of which the first has this number.
fn write_stages<E: Sink>(err: &mut E, number: u32, stages: &[Option<Outcome>]) -> Result<(), Failed>
    requires few { number + length stages.now ≤ 8 }
    ensures writes { Writes (output_seen E.Sink err.old) (output_seen E.Sink err.new)
        (stage_lines number (stages_of stages.now)) result }
{
    match stages.split_first() {
        Some((stage, later)) => match stage {
            Some(ended) => {
                write_stage(err, number, *ended)?;
                write_stages(err, number + 1, later)
            }
            None => Ok(()),
        },
        None => Ok(()),
    }
}

/// Writes the line of a stage that ended so.
fn write_stage<E: Sink>(err: &mut E, number: u32, ended: Outcome) -> Result<(), Failed>
    ensures writes { Writes (output_seen E.Sink err.old) (output_seen E.Sink err.new)
        (stage_line number ended) result }
{
    let (mut numbers, mut digits) = (Buffer::new(), Buffer::new());
    let stage = decimal(&mut numbers, number);
    match ended {
        Outcome::Exited(status) => {
            let status = decimal_signed(&mut digits, status);
            write_pieces(err, &[b"nested: stage ", stage, b" exited ", status, b"\n"])
        }
        Outcome::Faulted(fault) => write_stage_fault(err, number, fault),
        Outcome::Trapped(kind) => {
            let kind = decimal(&mut digits, kind);
            write_pieces(err, &[b"nested: stage ", stage, b" trap ", kind, b"\n"])
        }
        Outcome::Waiting | Outcome::Going => {
            write_pieces(err, &[b"nested: stage ", stage, b" spent\n"])
        }
    }
}

/// Writes the line of a stage that ended in this fault.
fn write_stage_fault<E: Sink>(err: &mut E, number: u32, fault: Fault) -> Result<(), Failed>
    ensures writes { Writes (output_seen E.Sink err.old) (output_seen E.Sink err.new)
        (stage_line number (Outcome.Faulted fault)) result }
{
    let mut numbers = Buffer::new();
    write_pieces(err, &[b"nested: stage ", decimal(&mut numbers, number)])?;
    write_fault_end(err, b" fault ", fault)
}

/// Writes the line of a check that the program's image failed.
fn write_image_fault<E: Sink>(err: &mut E, fault: ImageFault) -> Result<(), Failed>
    ensures writes { Writes (output_seen E.Sink err.old) (output_seen E.Sink err.new)
        (image_line fault) result }
{
    let (mut kinds, mut numbers) = (Buffer::new(), Buffer::new());
    let kind = decimal(&mut kinds, fault.kind);
    let number = decimal_long(&mut numbers, fault.number);
    let word = hexadecimal(fault.word);
    write_pieces(
        err,
        &[b"nested: image ", kind, b" ", number, b" ", &word, b"\n"],
    )
}

/// Writes the line of a faulty text.
fn write_asm_fault<E: Sink>(err: &mut E, fault: AsmFault) -> Result<(), Failed>
    ensures writes { Writes (output_seen E.Sink err.old) (output_seen E.Sink err.new)
        (asm_line fault) result }
{
    let (mut lines, mut kinds) = (Buffer::new(), Buffer::new());
    let line = decimal(&mut lines, fault.line);
    let kind = decimal(&mut kinds, fault.kind);
    write_pieces(err, &[b"nested: asm ", line, b" ", kind, b"\n"])
}

/// Writes a text and a number, as a line. Takes no memory.
pub fn write_number<E: Sink>(sink: &mut E, text: &[u8], number: u64) -> Result<(), Failed>
    ensures writes { Writes (output_seen E.Sink sink.old) (output_seen E.Sink sink.new)
        (number_line text.now number) result }
{
    let mut digits = Buffer::new();
    write_pieces(sink, &[text, decimal_long(&mut digits, number), b"\n"])
}

/// Writes a text. After a failure the sink has taken a front part of it.
pub fn write_text<E: Sink>(sink: &mut E, text: &[u8]) -> Result<(), Failed>
    ensures writes { Writes (output_seen E.Sink sink.old) (output_seen E.Sink sink.new)
        text.now result }
{
    write_all(sink, text)
}

/// Writes pieces one after the other. After a failure the sink has taken a front part of them.
pub fn write_pieces<E: Sink>(sink: &mut E, pieces: &[&[u8]]) -> Result<(), Failed>
    ensures writes { Writes (output_seen E.Sink sink.old) (output_seen E.Sink sink.new)
        (pieces_joined (map (λ p. p.now) pieces.now)) result }
{
    for piece in pieces {
        write_text(sink, piece)?;
    }
    Ok(())
}
