//! A class file from its bytes.
ghost use Rattle.std.specs.Prelude.{◌≡◌, None, IfOk, OnOk, IfErr, length};
ghost use Rattle.class_format.specs.Gives.{Gives};
ghost use Rattle.class_definition.specs.Kinds.{trailing};
ghost use Rattle.class_definition.specs.Format.{whole};
ghost use Rattle.constant_pool.specs.Answer.{IsAnswer, refusal_of};
ghost use Rattle.class_definition.specs.declared.class.Class.{Class};
ghost use Rattle.class_definition.specs.ClassFile as format;

use crate::parts::class_of;
use class_format::{ClassFault, Failure, fault_of, missed};
use constant_pool::ReadError;
use jvm_code::Class;
use std::alloc::Global;

/// The class that bytes spell.
///
/// # Errors
///
/// Refused, exactly with the first field at fault. NoMemory.
pub fn read_class(alloc: Global, b: &[u8]) -> Result<Class, ReadError>
    ensures refused { IfErr result (IsAnswer (format.class_fault b.now)) }
    ensures accepted { OnOk result (format.class_fault b.now ≡ None) }
    ensures spelled { IfOk result (λ c. format.Spells b.now c) }
    ensures found { (c : Class) → format.Spells b.now c → (format.class_fault b.now ≡ None)
        × IfOk result (λ d. d ≡ c) }
{
    match whole_class_of(alloc, b) {
        Ok(class) => Ok(class),
        Err(failure) => Err(refusal(b.len(), failure)),
    }
}

// The class of all the bytes.
fn whole_class_of(alloc: Global, bytes: &[u8]) -> Result<Class, Failure>
    ensures { Gives (λ c. c) result (whole format.class trailing bytes.now) }
{
    let (class, rest) = class_of(alloc, bytes)?;
    if !rest.is_empty() {
        return Err(missed(ClassFault::TRAILING, rest));
    }
    Ok(class)
}

/// A failure of reading so many bytes, as the answer.
pub fn refusal(size: usize, failure: Failure) -> ReadError
    ensures { result ≡ refusal_of 0 size failure }
{
    match failure {
        Failure::Missed(miss) => ReadError::Refused(fault_of(0, size, miss)),
        Failure::NoMemory => ReadError::NoMemory,
    }
}
