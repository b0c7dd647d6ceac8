//! The class that bytes spell, of either version.
ghost use Rattle.std.specs.Prelude.{◌≡◌, IfOk};
ghost use Rattle.class_sets.specs.NamedSets.{named_class_in, plain_class_in, framed_class_in};
ghost use Rattle.class_sets.specs.NamedKept.{IsKept, IsPlain, IsFramed};

use crate::version::Version;
use class_definition::FramedClass;
use class_format::ClassFault;
use class_reader::{ReadError, read_class, read_class_51};
use jvm_definition::Sequence;
use std::alloc::{AllocError, Global};

/// The class that bytes spell, with its tables, or the first rule that they break.
pub fn class_of(
    alloc: Global,
    version: Version,
    bytes: &[u8],
) -> Result<Result<FramedClass, ClassFault>, AllocError>
    ensures is { IfOk result (λ read. read ≡ named_class_in version bytes.now) }
    ensures kept { IfOk result (λ read. IfOk read (IsKept version)) }
{
    match version {
        Version::V48 => plain_class_of(alloc, bytes),
        Version::V51 => framed_class_of(alloc, bytes),
    }
}

fn plain_class_of(
    alloc: Global,
    bytes: &[u8],
) -> Result<Result<FramedClass, ClassFault>, AllocError>
    ensures is { IfOk result (λ read. read ≡ plain_class_in bytes.now) }
    ensures kept { IfOk result (λ read. IfOk read IsPlain) }
{
    match read_class(alloc, bytes) {
        Ok(class) => Ok(Ok(FramedClass {
            class,
            tables: Sequence::new(Vec::new(alloc)),
        })),
        Err(ReadError::Refused(fault)) => Ok(Err(fault)),
        Err(ReadError::NoMemory) => Err(AllocError),
    }
}

fn framed_class_of(
    alloc: Global,
    bytes: &[u8],
) -> Result<Result<FramedClass, ClassFault>, AllocError>
    ensures is { IfOk result (λ read. read ≡ framed_class_in bytes.now) }
    ensures kept { IfOk result (λ read. IfOk read IsFramed) }
{
    match read_class_51(alloc, bytes) {
        Ok(class) => Ok(Ok(class)),
        Err(ReadError::Refused(fault)) => Ok(Err(fault)),
        Err(ReadError::NoMemory) => Err(AllocError),
    }
}
