//! The two halves of addresses (MIPS psABI, "Relocation").
ghost use Rattle.std.specs.Prelude.{◌≡◌, ◌&&◌, ℕ, IfErr, IfOk, OnOk, None, Some, if◌then◌else◌, is_none};
ghost use Rattle.obj_reader.specs.Fault.{IsAnswer};
ghost use Rattle.obj_reader.specs.Relocations.{is_high};
ghost use Rattle.obj_linker.specs.Pairs as spec;
ghost use Rattle.obj_linker.specs.Whole.{relocation_fault_of};

use crate::lower_halves::LowerHalves;
use elf_definition::ObjFault;
use obj_reader::{ObjError, Relocation, refusal};
use std::alloc::{AllocError, Global};

/// For each relocation, if it is an `R_MIPS_HI16`, the offset of the `R_MIPS_LO16` that it goes with: the next one of its
/// section and symbol.
///
/// # Errors
/// `Refused` with the first `R_MIPS_HI16` that goes with none; `NoMemory` where there is no memory for the offsets.
pub fn lower_halves(alloc: Global, relocations: &[Relocation]) -> Result<Vec<Option<u32>>, ObjError>
    ensures refused { IfErr result (IsAnswer
        (relocation_fault_of 9 (spec.first_alone relocations.now))) }
    ensures passed { OnOk result (spec.first_alone relocations.now ≡ None) }
    ensures lows { IfOk result (λ lows. lows.items ≡ spec.lows relocations.now) }
{
    let Pairs { lows, alone } = paired(alloc, relocations)?;
    match alone {
        Some(r) => Err(refusal(r.object, ObjFault::HI_ALONE, r.r_offset)),
        None => Ok(lows),
    }
}

/// The offsets of the lower halves, and the first upper half that goes with none.
#[derive(Drop)]
struct Pairs {
    lows: Vec<Option<u32>>,
    alone: Option<Relocation>,
}

/// Goes over the relocations from the last to the first, with the lower halves that are after.
fn paired(alloc: Global, relocations: &[Relocation]) -> Result<Pairs, AllocError>
    ensures lows { IfOk result (λ p. p.lows.items ≡ spec.lows relocations.now) }
    ensures alone { IfOk result (λ p. p.alone ≡ spec.first_alone relocations.now) }
{
    let mut behind = LowerHalves::new(alloc);
    let mut lows = Vec::new(alloc);
    let mut alone = None;
    let mut rest = relocations;
    while let Some((r, before)) = rest.split_last() {
        let low = low_of(&behind, r);
        alone = first_alone(r, low, alone);
        lows.push(low)?;
        note_low(&mut behind, r)?;
        rest = before;
    }
    lows.reverse();
    Ok(Pairs { lows, alone })
}

/// The offset of the lower half that goes with a relocation, among those after it.
fn low_of(behind: &LowerHalves, r: &Relocation) -> Option<u32>
    ensures { result
        ≡ (if is_high r.now then spec.low_in behind.now r.now.section r.now.symbol else None) }
{
    if r.is_high() {
        behind.get(r.section, r.symbol)
    } else {
        None
    }
}

/// The relocation, if it is an upper half that goes with no lower half, otherwise the first such one after it.
fn first_alone(r: &Relocation, low: Option<u32>, later: Option<Relocation>) -> Option<Relocation>
    ensures { result ≡ (if is_high r.now && is_none low then Some r.now else later) }
{
    if r.is_high() && low.is_none() {
        Some(*r)
    } else {
        later
    }
}

/// Notes a lower half.
fn note_low(behind: &mut LowerHalves, r: &Relocation) -> Result<(), AllocError>
    ensures { OnOk result ((a b : ℕ) → spec.low_in behind.new a b
        ≡ (if spec.is_low_of a b r.now then Some r.now.r_offset else spec.low_in behind.old a b)) }
{
    if r.is_low() {
        behind.set(r.section, r.symbol, r.r_offset)?;
    }
    Ok(())
}
