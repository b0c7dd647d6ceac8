//! One check of an object: its fault, if it fails.
ghost use Rattle.std.specs.Prelude.{◌≡◌, IfErr, OnOk, None, true};
ghost use Rattle.obj_reader.specs.Fault.{IsAnswer, object_fails, object_fails_at};

use crate::obj_error::ObjError;
use elf_definition::ObjFault;

/// An error where a check fails, at a place.
pub fn refuse_when(object: u32, kind: u32, at: u32, failed: bool) -> Result<(), ObjError>
    ensures refused { IfErr result (IsAnswer (object_fails object kind at failed)) }
    ensures passed { OnOk result (object_fails object kind at failed ≡ None) }
{
    if failed {
        return Err(ObjError::Refused(ObjFault { object, kind, at }));
    }
    Ok(())
}

/// An error where a check names the first place at which it fails.
pub fn refuse_at(object: u32, kind: u32, place: Option<u32>) -> Result<(), ObjError>
    ensures refused { IfErr result (IsAnswer (object_fails_at object kind place)) }
    ensures passed { OnOk result (place ≡ None) }
{
    match place {
        Some(at) => Err(ObjError::Refused(ObjFault { object, kind, at })),
        None => Ok(()),
    }
}

/// The refusal of a check, at a place.
pub fn refusal(object: u32, kind: u32, at: u32) -> ObjError
    ensures { IsAnswer (object_fails object kind at true) result }
{
    ObjError::Refused(ObjFault { object, kind, at })
}
