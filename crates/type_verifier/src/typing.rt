//! The least typing of a method that was verified (JVM Specification, 4.10.2.2).
ghost use Rattle.std.specs.Prelude.{◌≡◌, ◌+◌, ◌<◌, ◌≤◌, ◌^◌, IfOk, length};
ghost use Rattle.type_verifier.specs.Refusal.{methods_before};
ghost use Rattle.type_verifier.specs.Typings.{HasMethod, IsListedOf, IsTypingOf, AreListed};

use crate::method_typing::MethodTyping;
use crate::verified::Verified;
use jvm_code::Class;
use jvm_link::{Linked, NoMemory};
use jvm_type_inference::{Frame, Inferred, infer};
use std::alloc::Global;

impl Verified {
    /// The frames of a method's least typing, below those of each other one, with their offsets, which rise: exactly those that
    /// are reached from 0. A class and its method are numbered from 0.
    pub fn typing(
        &self,
        alloc: Global,
        class: u32,
        method: u32,
    ) -> Result<Vec<(u32, Frame)>, NoMemory>
        requires { HasMethod self.now.linked.classes class method }
        ensures { IfOk result (λ v. IsListedOf self.now.linked.classes class method v.items) }
    {
        match typing_of(alloc, &self.linked, class, method)? {
            MethodTyping::Listed(listed) => Ok(listed),
            MethodTyping::Fails(_at) => unreachable!(),
        }
    }
}

/// What is inferred of a method of classes that link. A class and its method are numbered from 0.
pub fn typing_of(
    alloc: Global,
    linked: &Linked,
    class: u32,
    method: u32,
) -> Result<MethodTyping, NoMemory>
    requires { HasMethod linked.now.classes class method }
    ensures { IfOk result (IsTypingOf linked.now.classes class method) }
{
    let methods = linked.methods.as_slice();
    let classes = linked.classes.as_slice();
    let number = number_of(classes, class, method, methods.len());
    match infer(alloc, methods, number)? {
        Inferred::Typed(frames) => {
            let listed = listing(alloc, frames.into_vec())?;
            Ok(MethodTyping::Listed(listed))
        }
        Inferred::Fails(at) => Ok(MethodTyping::Fails(at)),
    }
}

// The number of a class's method among those of all classes.
fn number_of(classes: &[Class], class: u32, method: u32, count: usize) -> usize
    requires { methods_before classes.now class + method < count }
    ensures { result ≡ methods_before classes.now class + method }
{
    let mut number = method as usize;
    let mut before = class;
    let mut rest = classes;
    while let Some((c, others)) = rest.split_first() {
        if before == 0 {
            return number;
        }
        number += c.methods.as_slice().len();
        before -= 1;
        rest = others;
    }
    number
}

// The frames that are there, with their offsets.
fn listing(alloc: Global, frames: Vec<Option<Frame>>) -> Result<Vec<(u32, Frame)>, NoMemory>
    requires { length frames.items ≤ 2 ^ 32 }
    ensures { IfOk result (λ v. AreListed frames.items v.items) }
{
    let mut listed = Vec::new(alloc);
    let mut rest = frames;
    while let Some(slot) = rest.pop() {
        if let Some(frame) = slot {
            listed.push((rest.len() as u32, frame))?;
        }
    }
    listed.reverse();
    Ok(listed)
}
