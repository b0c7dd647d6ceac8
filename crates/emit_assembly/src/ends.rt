//! Where steps end.
ghost use Rattle.std.specs.Prelude.{◌≡◌, ℕ, suc, ◌<◌, ◌^◌, length, slice_index, IfOk};
ghost use Rattle.emit_steps.specs.Widths.{bytes_before, size};

use constant_pool::NoMemory;
use emit_steps::{Step, width};
use std::alloc::Global;

/// The offset after each step, from the code's start.
pub fn ends_of(alloc: Global, code: &[Step]) -> Result<Vec<u32>, NoMemory>
    requires { size code.now < 2 ^ 32 }
    ensures len { IfOk result (λ ends. length ends.items ≡ length code.now) }
    ensures ends { IfOk result (λ ends. (k : ℕ) → k < length code.now
        → slice_index ends.items k ≡ bytes_before code.now (suc k)) }
{
    let mut ends = Vec::with_capacity(alloc, code.len())?;
    let mut end = 0;
    for step in code {
        end += width(step);
        ends.push(end)?;
    }
    Ok(ends)
}
