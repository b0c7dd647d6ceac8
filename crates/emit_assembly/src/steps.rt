//! Steps.
ghost use Rattle.std.specs.Prelude.{◌≡◌, [], ◌∷◌, All, length, IfOk, OnOk, IsTrue, Err};
ghost use Rattle.constant_pool.specs.declared.error.PoolError.TheVariants.{Full};
ghost use Rattle.emit_steps.specs.declared.step.Step.TheVariants.{Does};
ghost use Rattle.emit_assembly.specs.Assembling.{has_operation, pushed_by, Extends, Adds};
ghost use Rattle.emit_assembly.specs.Operations.{AddsConstants, Has, IsOperation, IsStepOperation, LacksSlots, has_operation_at};

use crate::constants::push;
use crate::instructions::operation_of;
use crate::references::References;
use constant_pool::{NoMemory, Pool, PoolError};
use emit_steps::Step;
use jvm_code::Op;
use jvm_definition::{Instruction, Kept, Sequence, TableSwitch};
use std::alloc::Global;

/// The operation of the i-th step, where the offset after each step is known.
pub fn step_operation(
    alloc: Global,
    step: &Step,
    i: usize,
    ends: &[u32],
    references: &References,
    pool: &mut Pool,
) -> Result<Op, PoolError>
    requires { IsTrue (has_operation_at references.now (length ends.now) i step.now) }
    ensures op { IfOk result (IsStepOperation references.now pool.new ends.now i step.now) }
    ensures kept { Extends pool.old pool.new }
    ensures added { Adds (step.now ∷ []) pool.old pool.new }
    ensures has { OnOk result (All (Has pool.new) (pushed_by step.now)) }
    ensures adds { AddsConstants pool.old pool.new (pushed_by step.now) }
    ensures full { result ≡ Err Full → LacksSlots pool.old (pushed_by step.now) }
{
    match step {
        Step::Does(instruction) => instruction_operation(instruction, references, pool),
        Step::Skips(name, k) => Ok(Op::Branch(*name, ends[i + *k as usize])),
        Step::Leaves(target) => Ok(Op::GotoW(*target)),
        Step::Selects(switch) => {
            let Ok(switch) = copy_of(alloc, switch) else {
                return Err(PoolError::NoMemory);
            };
            let Ok(switch) = Kept::new(alloc, switch) else {
                return Err(PoolError::NoMemory);
            };
            Ok(Op::TableSwitch(switch))
        }
    }
}

fn instruction_operation(
    instruction: &Instruction,
    references: &References,
    pool: &mut Pool,
) -> Result<Op, PoolError>
    requires { IsTrue (has_operation references.now instruction.now) }
    ensures op { IfOk result (IsOperation references.now pool.new instruction.now) }
    ensures kept { Extends pool.old pool.new }
    ensures added { Adds (Does instruction.now ∷ []) pool.old pool.new }
    ensures has { OnOk result (All (Has pool.new) (pushed_by (Does instruction.now))) }
    ensures adds { AddsConstants pool.old pool.new (pushed_by (Does instruction.now)) }
    ensures full { result ≡ Err Full → LacksSlots pool.old (pushed_by (Does instruction.now)) }
{
    match instruction {
        Instruction::Push(constant) => push(*constant, pool),
        _ => Ok(operation_of(instruction, references)),
    }
}

fn copy_of(alloc: Global, switch: &TableSwitch) -> Result<TableSwitch, NoMemory>
    ensures { IfOk result (λ copy. copy ≡ switch.now) }
{
    let targets = Vec::from_slice(alloc, switch.targets.as_slice())?;
    Ok(TableSwitch {
        default: switch.default,
        low: switch.low,
        targets: Sequence::new(targets),
    })
}
