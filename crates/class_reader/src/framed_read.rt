//! A class file of version 51.0 from its bytes.
ghost use Rattle.std.specs.Prelude.{◌≡◌, None, IfOk, OnOk, IfErr};
ghost use Rattle.class_format.specs.Gives.{Gives};
ghost use Rattle.class_definition.specs.Kinds.{trailing};
ghost use Rattle.class_definition.specs.Format.{whole};
ghost use Rattle.constant_pool.specs.Answer.{IsAnswer};
ghost use Rattle.class_definition.specs.declared.framed_class.FramedClass.{FramedClass};
ghost use Rattle.class_definition.specs.FramedClassFile as format;

use crate::framed_parts::framed_class_of;
use crate::read::refusal;
use class_definition::FramedClass;
use class_format::{ClassFault, Failure, missed};
use constant_pool::ReadError;
use std::alloc::Global;

/// The class of version 51.0 that bytes spell, with the tables of its methods (JVM Specification, Java SE 7 edition, 4).
///
/// # Errors
///
/// Refused, exactly with the first field at fault. NoMemory.
pub fn read_class_51(alloc: Global, b: &[u8]) -> Result<FramedClass, ReadError>
    ensures refused { IfErr result (IsAnswer (format.class_fault b.now)) }
    ensures accepted { OnOk result (format.class_fault b.now ≡ None) }
    ensures spelled { IfOk result (λ c. format.SpellsFramed b.now c) }
    ensures found { (c : FramedClass) → format.SpellsFramed b.now c
        → (format.class_fault b.now ≡ None) × IfOk result (λ d. d ≡ c) }
{
    match whole_class_of(alloc, b) {
        Ok(class) => Ok(class),
        Err(failure) => Err(refusal(b.len(), failure)),
    }
}

// The class of all the bytes.
fn whole_class_of(alloc: Global, bytes: &[u8]) -> Result<FramedClass, Failure>
    ensures { Gives (λ c. c) result (whole format.framed_class trailing bytes.now) }
{
    let (class, rest) = framed_class_of(alloc, bytes)?;
    if !rest.is_empty() {
        return Err(missed(ClassFault::TRAILING, rest));
    }
    Ok(class)
}
