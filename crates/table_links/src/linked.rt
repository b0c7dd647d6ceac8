//! What comes of linking objects.
use elf_definition::ObjFault;
use md5::{Digest, Md5};
use obj_linker::{ObjError, first_too_large, link_objects};
use std::alloc::{AllocError, Global};
use std::fmt::Write;

/// What came of a link.
#[derive(Drop)]
pub enum Answer {
    /// The file of a program.
    Program(Vec<u8>),
    /// The objects are refused.
    Refused(ObjFault),
    /// There was no memory.
    NoMemory,
    /// There are more objects, or longer ones, than may be linked.
    TooMuch,
}

impl Answer {
    /// Links objects.
    pub fn of(alloc: Global, objects: &[Vec<u8>], entry: &str) -> Answer {
        if objects.len() > 256 || first_too_large(objects).is_some() {
            return Answer::TooMuch;
        }
        match link_objects(alloc, objects, entry) {
            Ok(file) => Answer::Program(file),
            Err(ObjError::Refused(fault)) => Answer::Refused(fault),
            Err(ObjError::NoMemory) => Answer::NoMemory,
        }
    }

    /// Puts the answer into a text: of a program its length and its digest.
    pub fn push_to(&self, alloc: Global, text: &mut String) -> Result<(), AllocError> {
        match self {
            Answer::Program(file) => push_digest(alloc, text, file.as_slice()),
            Answer::Refused(fault) => push_fault(text, fault),
            Answer::NoMemory => text.push_str("no memory"),
            Answer::TooMuch => text.push_str("too much"),
        }
    }
}

fn push_digest(alloc: Global, text: &mut String, file: &[u8]) -> Result<(), AllocError> {
    let length = file.len();
    let digest = Md5::digest(file);
    let digits = hex::encode(alloc, digest.as_slice())?;
    write!(text, "program {length} {digits}")
}

fn push_fault(text: &mut String, fault: &ObjFault) -> Result<(), AllocError> {
    let (object, kind, at) = (fault.object, fault.kind, fault.at);
    write!(text, "object {object} {kind} {at}")
}
