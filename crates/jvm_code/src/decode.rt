//! Code from bytes, with what is wrong.
ghost use Rattle.std.specs.Prelude.{◌≡◌, ◌≤◌, List, None, IfOk, OnOk, IfErr, length};
ghost use Rattle.class_definition.specs.declared.line.Line.{Line};
ghost use Rattle.jvm_code.specs.Answer.{refusal_of, IsAnswer};
ghost use Rattle.class_definition.specs.Code as format;
ghost use Rattle.jvm_code.specs.Writing.{AreCode};

use crate::code_error::CodeError;
use crate::code_reading::lines_of;
use crate::marks::{marks_of, target_fault};
use class_definition::{CodeFault, Line};
use class_format::{Failure, Miss};
use std::alloc::Global;

/// The greatest number of bytes in the code of a method.
const MAX_CODE: usize = 65_535;

const LENGTH: u32 = 5;

/// The lines of code, of which [`encode_ops`](crate::encode_ops) makes it again.
///
/// # Errors
///
/// Refused, exactly with the first instruction at fault. NoMemory.
pub fn decode_ops(alloc: Global, code: &[u8]) -> Result<Vec<Line>, CodeError>
    ensures refused { IfErr result (IsAnswer (format.code_fault code.now)) }
    ensures accepted { OnOk result (format.code_fault code.now ≡ None) }
    ensures lines { IfOk result (λ lines. format.Lines code.now lines.items) }
    ensures only_lines { IfOk result (λ lines. (others : List Line) → format.Lines code.now others
        → others ≡ lines.items) }
    ensures code { IfOk result (λ lines. AreCode lines.items) }
{
    if is_bad_length(code.len()) {
        return Err(CodeError::Refused(CodeFault {
            at: 0,
            kind: LENGTH,
        }));
    }
    match lines_of(alloc, code) {
        Ok(lines) => with_targets(alloc, code.len(), lines),
        Err(failure) => Err(refusal(code.len(), failure)),
    }
}

fn is_bad_length(length: usize) -> bool
    ensures { result ≡ format.is_bad_length length }
{
    length == 0 || MAX_CODE < length
}

fn refusal(size: usize, failure: Failure) -> CodeError
    requires { size ≤ 65535 }
    ensures { result ≡ refusal_of size failure }
{
    match failure {
        Failure::Missed(Miss { kind, left }) => CodeError::Refused(CodeFault {
            at: size.saturating_sub(left) as u32,
            kind,
        }),
        Failure::NoMemory => CodeError::NoMemory,
    }
}

// These lines of a code of so many bytes, where their targets are lines.
fn with_targets(alloc: Global, size: usize, lines: Vec<Line>) -> Result<Vec<Line>, CodeError>
    ensures refused { IfErr result (IsAnswer (format.line_target_fault lines.items lines.items)) }
    ensures accepted { IfOk result (λ kept. (kept.items ≡ lines.items)
        × (format.line_target_fault lines.items lines.items ≡ None)) }
{
    match marks_of(alloc, size, &lines) {
        Err(_) => Err(CodeError::NoMemory),
        Ok(marks) => match target_fault(&marks, &lines) {
            Some(fault) => Err(CodeError::Refused(fault)),
            None => Ok(lines),
        },
    }
}
