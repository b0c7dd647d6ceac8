//! The attribute with a method's code, from bytes (JVM Specification, 4.7.3).
ghost use Rattle.std.specs.Prelude.{◌≡◌, ◌&&◌, ◌==◌, ◌+◌, ◌≤◌, IfOk};
ghost use Rattle.class_format.specs.Gives.{Gives};
ghost use Rattle.class_definition.specs.Code.{is_bad_length};
ghost use Rattle.class_definition.specs.Members as format;
ghost use Rattle.class_definition.specs.Tables as framed;

use class_format::{ClassFault, Failure, Miss, exact_half_of, half_of, missed, raw_of, word_of};
use jvm_code::{CodeError, decode_ops};
use std::alloc::Global;

/// What an attribute with code begins with.
#[derive(Clone, Copy)]
pub struct CodeHead {
    /// How many bytes of the attribute follow this number.
    pub length: u32,
    /// `max_stack`.
    pub stack: u16,
    /// `max_locals`.
    pub locals: u16,
    /// How many bytes the code has.
    pub code_length: u32,
}

/// The attribute: what it begins with, and the code.
#[tactic(auto, unfolding(class_definition::specs::Members::code_attribute))]
pub fn code_attribute_of(alloc: Global, bytes: &[u8]) -> Result<((CodeHead, &[u8]), &[u8]), Failure>
    ensures { Gives
        (λ x. (
          ((x.0.0.length, (x.0.0.stack, (x.0.0.locals, x.0.0.code_length))), x.0.1.now),
          x.1.now,
        )) result (format.code_attribute.read bytes.now) }
{
    let (head, rest) = code_head_of(bytes)?;
    let (code, rest) = code_of(alloc, head.code_length as usize, rest)?;
    let rest = no_attributes(rest)?;
    let rest = no_attributes(rest)?;
    Ok(((head, code), rest))
}

fn code_head_of(bytes: &[u8]) -> Result<(CodeHead, &[u8]), Failure>
    ensures { Gives (λ x. ((x.0.length, (x.0.stack, (x.0.locals, x.0.code_length))), x.1.now))
        result (format.code_head.read bytes.now) }
{
    let (head, rest) = code_numbers_of(bytes)?;
    if head.length != head.code_length + 12 {
        return Err(missed(ClassFault::ATTRIBUTE, bytes));
    }
    Ok((head, rest))
}

/// What the attribute begins with, whatever its length is.
pub fn code_numbers_of(bytes: &[u8]) -> Result<(CodeHead, &[u8]), Failure>
    ensures numbers { Gives (λ x. (
      (x.0.length, (x.0.stack, (x.0.locals, x.0.code_length))),
      x.1.now,
    )) result (framed.code_numbers.read bytes.now) }
    ensures short { IfOk result (λ x. x.0.code_length ≤ 65535) }
{
    let (length, rest) = word_of(ClassFault::CUT, bytes)?;
    let (stack, rest) = half_of(ClassFault::CUT, rest)?;
    let (locals, rest) = half_of(ClassFault::CUT, rest)?;
    let (code_length, rest) = code_length_of(rest)?;
    Ok((
        CodeHead {
            length,
            stack,
            locals,
            code_length,
        },
        rest,
    ))
}

fn code_length_of(bytes: &[u8]) -> Result<(u32, &[u8]), Failure>
    ensures length { Gives (λ x. (x.0, x.1.now)) result (format.code_length.read bytes.now) }
    ensures short { IfOk result (λ x. x.0 ≤ 65535) }
{
    let (length, rest) = word_of(ClassFault::CUT, bytes)?;
    if length == 0 || 65_535 < length {
        return Err(missed(ClassFault::CODE, bytes));
    }
    Ok((length, rest))
}

/// So many bytes of sound code.
pub fn code_of(alloc: Global, length: usize, bytes: &[u8]) -> Result<(&[u8], &[u8]), Failure>
    ensures { Gives (λ x. (x.0.now, x.1.now)) result ((format.code_bytes length).read bytes.now) }
{
    let (code, rest) = raw_of(ClassFault::CUT, bytes, length)?;
    match decode_ops(alloc, code) {
        Ok(_) => Ok((code, rest)),
        Err(CodeError::Refused(fault)) => Err(Failure::Missed(Miss {
            kind: ClassFault::CODE,
            left: bytes.len().saturating_sub(fault.at as usize),
        })),
        Err(CodeError::NoMemory) => Err(Failure::NoMemory),
    }
}

/// What follows the number of attributes, or of exception handlers, which is 0.
pub fn no_attributes(bytes: &[u8]) -> Result<&[u8], Failure>
    ensures { Gives (λ x. (tt, x.now)) result ((format.attributes 0).read bytes.now) }
{
    exact_half_of(ClassFault::CUT, ClassFault::ATTRIBUTE, 0, bytes)
}
