//! Code that is laid down part by part.
ghost use Rattle.std.specs.Prelude.{◌≡◌, ◌+◌, ◌≤◌, ◌<◌, ◌++◌, [], IfNone, IfOk, IfSome, OnOk, Err};
ghost use Rattle.emit_steps.specs.Widths.{size};
ghost use Rattle.emit_spans.specs.declared.span_error.SpanError.TheVariants.{TooLong};

use crate::NoMemory;
use crate::span_error::SpanError;
use emit_steps::{Step, code_size};
use std::alloc::Global;

/// The most bytes that the code of a method has.
pub const MOST_BYTES: u32 = 65_535;

/// Steps that are laid down, and the offset after them.
#[derive(Drop)]
pub struct Laid {
    pub steps: Vec<Step>,
    pub end: u32,
}

impl Laid {
    /// No steps at an offset, with room for so many.
    pub fn at(alloc: Global, end: u32, room: usize) -> Result<Laid, NoMemory>
        ensures steps { IfOk result (λ laid. laid.steps.items ≡ []) }
        ensures end { IfOk result (λ laid. laid.end ≡ end) }
    {
        Ok(Laid {
            steps: Vec::with_capacity(alloc, room)?,
            end,
        })
    }

    /// Lays steps down after the others, as far as a method goes.
    pub fn lay(&mut self, mut part: Vec<Step>) -> Result<(), SpanError>
        requires { self.old.end ≤ 65535 }
        ensures steps { OnOk result (self.new.steps.items ≡ self.old.steps.items ++ part.items) }
        ensures end { OnOk result (self.new.end ≡ self.old.end + size part.items) }
        ensures small { OnOk result (self.new.end ≤ 65535) }
        ensures too_long { result ≡ Err TooLong → 65535 < self.old.end + size part.items }
    {
        let Some(end) = end_of(&part, self.end) else {
            return Err(SpanError::TooLong);
        };
        self.steps.append(&mut part)?;
        self.end = end;
        Ok(())
    }
}

/// The offset after code at an offset, as far as a method goes.
fn end_of(code: &[Step], at: u32) -> Option<u32>
    requires { at ≤ 65535 }
    ensures end { IfSome result (λ end. end ≡ at + size code.now) }
    ensures small { IfSome result (λ end. end ≤ 65535) }
    ensures too_long { IfNone result (65535 < at + size code.now) }
{
    let end = at.checked_add(code_size(code)?)?;
    if end <= MOST_BYTES { Some(end) } else { None }
}
