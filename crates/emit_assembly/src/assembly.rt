//! Whole code.
ghost use Rattle.std.specs.Prelude.{◌≡◌, ◌+◌, ◌<◌, ◌≤◌, length, map, IfOk, IsTrue, Err};
ghost use Rattle.constant_pool.specs.declared.error.PoolError.TheVariants.{Full};
ghost use Rattle.jvm_code.specs.Writing.{AreCode};
ghost use Rattle.emit_steps.specs.Widths.{width, size};
ghost use Rattle.emit_assembly.specs.Assembling.{can_be_assembled, slots_of, Extends, Adds, AreLinked, lines_at, line_size, lines_size, is_method};

use crate::ends::ends_of;
use crate::references::References;
use crate::steps::step_operation;
use constant_pool::{Pool, PoolError};
use emit_steps::Step;
use jvm_code::Op;
use std::alloc::Global;

/// The operations of code, one for each step, with its constants in the pool of the class in which it is to be.
///
/// Each instruction has a form in a class file: it is no branch, no switch and not `Wrong`, its field or method has a slot in
/// `references`, and an increment adds a number from -128 to 127. A branch goes to the code's end at most, less than 2^15 bytes from its
/// own offset. A step that is a switch has a target and no key above the greatest `i32`, and is at an offset that leaves 3 modulo 4.
/// All steps together have less than 2^32 bytes.
///
/// Each operation is as long as its step, and in a class with this pool, or with one that goes on after it, they are linked to the
/// lines of the code, where that class knows what the code names. The bytes of the code of a method are made by
/// [`method_code`](crate::method_code).
///
/// # Errors
///
/// Full, only if fewer slots are left than the constants of the code take. NoMemory. After either, constants of the code may be
/// in the pool after what was there.
pub fn assemble(
    alloc: Global,
    code: &[Step],
    references: &References,
    pool: &mut Pool,
) -> Result<Vec<Op>, PoolError>
    requires { IsTrue (can_be_assembled references.now code.now) }

    ensures lines { IfOk result (λ ops.
        AreLinked references.now pool.new code.now (lines_at 0 ops.items)) }
    ensures widths { IfOk result (λ ops. map line_size (lines_at 0 ops.items)
        ≡ map width code.now) }
    ensures size { IfOk result (λ ops. lines_size (lines_at 0 ops.items) ≡ size code.now) }
    ensures method { IfOk result (λ ops. IsTrue (is_method code.now)
        → AreCode (lines_at 0 ops.items)) }

    ensures kept { Extends pool.old pool.new }
    ensures added { Adds code.now pool.old pool.new }
    ensures few { length pool.new ≤ length pool.old + slots_of code.now }
    ensures full { result ≡ Err Full → 65534 < length pool.old + slots_of code.now }
{
    let Ok(ends) = ends_of(alloc, code) else {
        return Err(PoolError::NoMemory);
    };
    let Ok(mut ops) = Vec::with_capacity(alloc, code.len()) else {
        return Err(PoolError::NoMemory);
    };
    for (i, step) in code.iter().enumerate() {
        let op = step_operation(alloc, step, i, &ends, references, pool)?;
        ops.push(op)?;
    }
    Ok(ops)
}
