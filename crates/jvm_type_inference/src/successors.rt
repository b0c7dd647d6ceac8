//! Where an instruction may go.
ghost use Rattle.std.specs.Prelude.{◌≡◌, ◌++◌, ◌∷◌, IfOk, OnOk, map};
ghost use Rattle.jvm_definition.specs.Program as program;
ghost use Rattle.jvm_type_inference.specs.Flow.{offsets_of};

use jvm_definition::{BranchName, Instruction, LinkedLine, Pair};
use std::alloc::{AllocError, Global};

/// The offsets to which an instruction may go. Where they are two at most they cost no memory.
#[derive(Drop)]
pub enum Successors {
    Nowhere,
    To([u32; 1]),
    ToEither([u32; 2]),
    ToAny(Vec<u32>),
}

impl Successors {
    /// The offsets.
    pub fn as_slice(&self) -> &[u32]
        ensures { result.now ≡ offsets_of self.now }
    {
        match self {
            Successors::Nowhere => &[],
            Successors::To(offset) => offset.as_slice(),
            Successors::ToEither(offsets) => offsets.as_slice(),
            Successors::ToAny(offsets) => offsets.as_slice(),
        }
    }
}

/// Where an instruction may go.
#[inline(always)]
pub fn successors_of(alloc: Global, line: &LinkedLine) -> Result<Successors, AllocError>
    ensures { IfOk result (λ s. offsets_of s ≡ program.successors line.now) }
{
    match &line.instruction {
        Instruction::Branch(BranchName::Goto, target) => Ok(Successors::To([*target])),
        Instruction::Branch(_, target) => Ok(Successors::ToEither([line.next, *target])),
        Instruction::TableSwitch(_) | Instruction::LookupSwitch(_) => {
            Ok(Successors::ToAny(targets_of(alloc, &line.instruction)?))
        }
        Instruction::Return(_) => Ok(Successors::Nowhere),
        _ => Ok(Successors::To([line.next])),
    }
}

/// Whether an instruction may go on to the next one.
pub fn falls_through(instruction: &Instruction) -> bool
    ensures { result ≡ program.falls_through instruction.now }
{
    match instruction {
        Instruction::Branch(name, _) => !matches!(name, BranchName::Goto),
        Instruction::TableSwitch(_) | Instruction::LookupSwitch(_) | Instruction::Return(_) => {
            false
        }
        _ => true,
    }
}

/// The offsets to which an instruction may go but for the next one.
pub fn targets_of(alloc: Global, instruction: &Instruction) -> Result<Vec<u32>, AllocError>
    ensures { IfOk result (λ v. v.items ≡ program.instruction_targets instruction.now) }
{
    let mut targets = Vec::new(alloc);
    append_targets(&mut targets, instruction)?;
    Ok(targets)
}

fn append_targets(targets: &mut Vec<u32>, instruction: &Instruction) -> Result<(), AllocError>
    ensures { OnOk result (targets.new.items ≡ targets.old.items
        ++ program.instruction_targets instruction.now) }
{
    match instruction {
        Instruction::Branch(_, target) => append(targets, *target, &[]),
        Instruction::TableSwitch(switch) => {
            let switch = switch.get();
            append(targets, switch.default, switch.targets.as_slice())
        }
        Instruction::LookupSwitch(switch) => {
            let switch = switch.get();
            append(targets, switch.default, &[])?;
            append_pairs(targets, switch.pairs.as_slice())
        }
        _ => Ok(()),
    }
}

fn append(targets: &mut Vec<u32>, first: u32, others: &[u32]) -> Result<(), AllocError>
    ensures { OnOk result (targets.new.items ≡ targets.old.items ++ first ∷ others.now) }
{
    targets.push(first)?;
    targets.extend_from_slice(others)
}

fn append_pairs(targets: &mut Vec<u32>, pairs: &[Pair]) -> Result<(), AllocError>
    ensures { OnOk result (targets.new.items ≡ targets.old.items ++ map (λ p. p.target) pairs.now) }
{
    let mut rest = pairs;
    while let Some((pair, others)) = rest.split_first() {
        targets.push(pair.target)?;
        rest = others;
    }
    Ok(())
}
