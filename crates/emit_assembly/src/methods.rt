//! The code of a method as bytes.
ghost use Rattle.std.specs.Prelude.{◌≡◌, ◌+◌, ◌<◌, ◌≤◌, length, IfOk, IsTrue, None, Err};
ghost use Rattle.constant_pool.specs.declared.error.PoolError.TheVariants.{Full};
ghost use Rattle.class_definition.specs.Code.{code_fault};
ghost use Rattle.jvm_code.specs.Writing.{AreLaid, AreCode};
ghost use Rattle.class_definition.specs.Linking as linking;
ghost use Rattle.emit_steps.specs.Widths as widths;
ghost use Rattle.emit_assembly.specs.Assembling.{can_be_assembled, is_method, slots_of, Extends, Adds, AreLinked, lines_at, lines_size};

use crate::assembly::assemble;
use crate::references::References;
use constant_pool::{NoMemory, Pool, PoolError};
use emit_steps::Step;
use jvm_code::{Line, Op, encode_ops, size};
use std::alloc::Global;

/// The bytes of the code of a method, with its constants in the pool of the class in which it is to be.
///
/// The code can be assembled, as for [`assemble`](crate::assemble). It has a step, all steps together have at most 65,535 bytes, and each
/// target is a step of its own.
///
/// The bytes have no fault. What is read of them is linked to the lines of the code in each class with this pool, or with one that goes
/// on after it, where that class knows what the code names.
///
/// # Errors
///
/// Full and NoMemory, as for [`assemble`](crate::assemble), and with the same pool.
pub fn method_code(
    alloc: Global,
    code: &[Step],
    references: &References,
    pool: &mut Pool,
) -> Result<Vec<u8>, PoolError>
    requires can { IsTrue (can_be_assembled references.now code.now) }
    requires method { IsTrue (is_method code.now) }

    ensures lines { IfOk result (λ bytes.
        AreLinked references.now pool.new code.now (linking.lines_of_code bytes.items)) }
    ensures size { IfOk result (λ bytes. length bytes.items ≡ widths.size code.now) }
    ensures sound { IfOk result (λ bytes. code_fault bytes.items ≡ None) }

    ensures kept { Extends pool.old pool.new }
    ensures added { Adds code.now pool.old pool.new }
    ensures few { length pool.new ≤ length pool.old + slots_of code.now }
    ensures full { result ≡ Err Full → 65534 < length pool.old + slots_of code.now }
{
    let ops = assemble(alloc, code, references, pool)?;
    match bytes_of(alloc, ops) {
        Ok(bytes) => Ok(bytes),
        Err(_) => Err(PoolError::NoMemory),
    }
}

// The bytes of operations that stand one after the other.
fn bytes_of(alloc: Global, ops: Vec<Op>) -> Result<Vec<u8>, NoMemory>
    requires { AreCode (lines_at 0 ops.items) }
    ensures lines { IfOk result (λ bytes. linking.lines_of_code bytes.items ≡ lines_at 0 ops.items) }
    ensures size { IfOk result (λ bytes. length bytes.items ≡ lines_size (lines_at 0 ops.items)) }
    ensures sound { IfOk result (λ bytes. code_fault bytes.items ≡ None) }
{
    let lines = lines_of(alloc, ops)?;
    encode_ops(alloc, &lines)
}

fn lines_of(alloc: Global, ops: Vec<Op>) -> Result<Vec<Line>, NoMemory>
    requires { AreLaid 0 (lines_at 0 ops.items) }
    ensures { IfOk result (λ lines. lines.items ≡ lines_at 0 ops.items) }
{
    let mut lines = Vec::with_capacity(alloc, ops.len())?;
    let mut at = 0;
    for op in ops {
        let next = at + size(&op, at);
        lines.push(Line { at, op })?;
        at = next;
    }
    Ok(lines)
}
