//! Warm code: that of pieces over local variables.
ghost use Rattle.std.specs.Prelude.{◌≡◌, ◌++◌, ◌<◌, ◌+◌, ◌*◌, ◌^◌, [], if◌then◌else◌, OnOk, length};
ghost use Rattle.word_emitter.specs.Pieces as emitted;

use crate::NoMemory;
use crate::registers::{has, needed, written};
use block_builder::unit_reads;
use delay_slots::Unit;
use emit_instructions::{Bank, append_steps, append_unit, fields, get_field, put_field};
use emit_steps::Step;
use jvm_definition::{Instruction, LocalKind};
use std::alloc::Global;

/// Appends the warm code of units that are done one after the other, the first at an address: the registers whose words they need are put
/// into local variables, the units are done over these, and the registers that were written are put back.
///
/// # Errors
/// Out of memory for the code.
pub fn append_warm(
    alloc: Global,
    units: &[Unit],
    at: u32,
    code: &mut Vec<Step>,
) -> Result<(), NoMemory>
    requires { at + 4 * length units.now < 2 ^ 32 }
    ensures { OnOk result (code.new.items ≡ code.old.items ++ emitted.warm_code units.now at) }
{
    append_fetches(units, code)?;
    append_body(alloc, units, at, code)?;
    append_put_backs(units, code)
}

// The units over the local variables of the registers that they read or write.
fn append_body(alloc: Global, units: &[Unit], at: u32, code: &mut Vec<Step>) -> Result<(), NoMemory>
    requires { at + 4 * length units.now < 2 ^ 32 }
    ensures { OnOk result (code.new.items ≡ code.old.items
        ++ emitted.units_code (emitted.bank_of units.now) units.now at) }
{
    let bank = bank_of(units);
    append_units(alloc, &bank, units, at, code)
}

// Registers whose words are needed are put into their local variables.
fn append_fetches(units: &[Unit], code: &mut Vec<Step>) -> Result<(), NoMemory>
    ensures { OnOk result (code.new.items ≡ code.old.items
        ++ emitted.for_registers (emitted.is_needed units.now) emitted.fetched) }
{
    let needed = needed(units);
    for r in 1..32 {
        append_fetched(has(needed, r), r, code)?;
    }
    Ok(())
}

// Registers that were written are put back.
fn append_put_backs(units: &[Unit], code: &mut Vec<Step>) -> Result<(), NoMemory>
    ensures { OnOk result (code.new.items ≡ code.old.items
        ++ emitted.for_registers (emitted.is_written units.now) emitted.put_back) }
{
    let written = written(units);
    for r in 1..32 {
        append_put_back(has(written, r), r, code)?;
    }
    Ok(())
}

/// The registers that the units read or write.
fn bank_of(units: &[Unit]) -> Bank
    ensures { result ≡ emitted.bank_of units.now }
{
    let mut reads = 0;
    for unit in units {
        reads |= unit_reads(unit);
    }
    Bank::keeping(reads | written(units))
}

fn append_units(
    alloc: Global,
    bank: &Bank,
    units: &[Unit],
    at: u32,
    code: &mut Vec<Step>,
) -> Result<(), NoMemory>
    requires { at + 4 * length units.now < 2 ^ 32 }
    ensures { OnOk result (code.new.items ≡ code.old.items
        ++ emitted.units_code bank.now units.now at) }
{
    let mut rest = units;
    let mut here = at;
    while let Some((unit, others)) = rest.split_first() {
        append_unit(alloc, bank, unit, here, code)?;
        here += 4;
        rest = others;
    }
    Ok(())
}

fn append_fetched(needed: bool, r: u8, code: &mut Vec<Step>) -> Result<(), NoMemory>
    requires { 0 < r }
    ensures { OnOk result (code.new.items ≡ code.old.items
        ++ (if needed then emitted.fetched r else [])) }
{
    if needed {
        append_steps(
            [
                get_field(fields::register_field(r)),
                Step::Does(Instruction::Store(LocalKind::Int, r)),
            ],
            code,
        )?;
    }
    Ok(())
}

fn append_put_back(written: bool, r: u8, code: &mut Vec<Step>) -> Result<(), NoMemory>
    requires { 0 < r }
    ensures { OnOk result (code.new.items ≡ code.old.items
        ++ (if written then emitted.put_back r else [])) }
{
    if written {
        append_steps(
            [
                Step::Does(Instruction::Load(LocalKind::Int, r)),
                put_field(fields::register_field(r)),
            ],
            code,
        )?;
    }
    Ok(())
}
