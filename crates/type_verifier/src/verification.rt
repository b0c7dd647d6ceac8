//! Whether all methods of linked classes are typed (JVM Specification, 4.10).
ghost use Rattle.std.specs.Prelude.{◌≡◌, ◌<◌, IfOk, IfErr, length};
ghost use Rattle.class_definition.specs.Linking.{linked_methods, program_of};
ghost use Rattle.jvm_type_inference.specs.Actions.{program_over};
ghost use Rattle.type_verifier.specs.Soundness.{NeverStuck};
ghost use Rattle.type_verifier.specs.Refusal.{IsRefusal, IsFirstFault, IsFault, IsPlace};

use crate::verified::Verified;
use crate::verify_error::VerifyError;
use class_definition::VerifyFault;
use jvm_code::Class;
use jvm_definition::LinkedMethod;
use jvm_link::Linked;
use jvm_type_inference::check_method;
use std::alloc::{AllocError, Global};

/// Linked classes, verified; or the first method that has no typing, with the least offset up to which it has none.
/// No run of classes that are verified comes to a step that no rule gives.
pub fn verify(alloc: Global, linked: Linked) -> Result<Verified, VerifyError>
    ensures verified { IfOk result (λ v. v.linked ≡ linked) }
    ensures refused { IfErr result (IsRefusal linked.classes) }
    ensures sound { IfOk result (λ v. NeverStuck (program_of v.linked.classes)) }
{
    match first_fault(alloc, linked.methods.as_slice()) {
        Ok(None) => Ok(Verified { linked }),
        Ok(Some((number, at))) => Err(refusal(linked.classes.as_slice(), number, at)),
        Err(_) => Err(VerifyError::NoMemory),
    }
}

// The number of the first method that has no typing, with its offset at fault.
fn first_fault(alloc: Global, methods: &[LinkedMethod]) -> Result<Option<(usize, u32)>, AllocError>
    ensures { IfOk result (IsFirstFault (program_over methods.now) (length methods.now)) }
{
    for number in 0..methods.len() {
        if let Some(at) = check_method(alloc, methods, number)? {
            return Ok(Some((number, at)));
        }
    }
    Ok(None)
}

// A method by its number among those of all classes.
fn refusal(classes: &[Class], number: usize, at: u32) -> VerifyError
    requires { number < length (linked_methods classes.now) }
    ensures { IsPlace classes.now number at result }
{
    let mut method = number;
    let mut rest = classes;
    while let Some((c, others)) = rest.split_first() {
        let count = c.methods.as_slice().len();
        if method < count {
            return fault(classes.len() - rest.len(), method, at);
        }
        method -= count;
        rest = others;
    }
    unreachable!()
}

fn fault(class: usize, method: usize, at: u32) -> VerifyError
    ensures { IsFault class method at result }
{
    match (u32::try_from(class), u32::try_from(method)) {
        (Ok(class), Ok(method)) => VerifyError::Refused(VerifyFault { class, method, at }),
        _ => VerifyError::NoMemory,
    }
}
