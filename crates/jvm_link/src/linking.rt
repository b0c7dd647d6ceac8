//! Linking classes (JVM Specification, 5.4.3).
ghost use Rattle.std.specs.Prelude.{◌≡◌, ◌≤◌, length, IfOk, IfErr, OnOk, All, None};
ghost use Rattle.jvm_definition.specs.Typing.{IsLinked};
ghost use Rattle.class_names.specs.Kept.{IsClass};
ghost use Rattle.class_names.specs.Answer.{IsAnswer};
ghost use Rattle.class_definition.specs.LinkFault.{link_fault};
ghost use Rattle.class_names.specs.Keys.{classes_in};
ghost use Rattle.class_definition.specs.Linking as linking;
ghost use Rattle.jvm_code.specs.Order.{IsInOrder};
ghost use Rattle.jvm_link.specs.Meant.{IsMeant};

use crate::fields::field_kinds;
use crate::linked::Linked;
use crate::methods::linked_methods;
use crate::run::first_method;
use class_names::{LinkError, LinkFault, Names, Numbered, references_fault, twice_fault};
use jvm_code::Class;
use jvm_definition::{Kind, LinkedMethod, Sequence};
use std::alloc::Global;

/// The greatest number of classes.
const CLASSES: usize = 1024;

/// Links classes that were read, or made to the rules of the format: finds what each name in them means. The time is near linear
/// in their pools and code: each text is looked at once, and references are found by the numbers of their texts.
///
/// # Errors
///
/// Refused, exactly with the first fault. NoMemory.
pub fn link(alloc: Global, classes: Vec<Class, Global>) -> Result<Linked, LinkError>
    requires kept { All IsClass classes.items }
    ensures linked { IfOk result (λ linked. linked.classes ≡ classes.items) }
    ensures refused { IfErr result (IsAnswer (link_fault classes.items)) }
    ensures well_linked { IfOk result (λ linked. IsLinked (linking.program_of linked.classes)) }
{
    if classes.len() > CLASSES {
        return Err(LinkError::Refused(LinkFault {
            kind: LinkFault::TOO_MANY,
            class: 1024,
            slot: 0,
        }));
    }
    let program = program_of(alloc, classes.as_slice())?;
    Ok(Linked {
        classes: Sequence::new(classes),
        fields: program.fields,
        methods: program.methods,
        first: program.first,
    })
}

// What classes are linked to.
#[derive(Drop)]
struct LinkedProgram {
    fields: Sequence<Kind>,
    methods: Sequence<LinkedMethod>,
    first: u32,
}

fn program_of(alloc: Global, classes: &[Class]) -> Result<LinkedProgram, LinkError>
    requires kept { All IsClass classes.now }
    requires few { length classes.now ≤ 1024 }
    ensures refused { IfErr result (IsAnswer (link_fault classes.now)) }
    ensures faultless { OnOk result (link_fault classes.now ≡ None) }
    ensures fields { IfOk result (λ program. program.fields ≡ linking.field_kinds classes.now) }
    ensures methods { IfOk result (λ program. program.methods
        ≡ linking.linked_methods classes.now) }
    ensures laid { IfOk result (λ program. All IsInOrder program.methods) }
    ensures first { IfOk result (λ program. program.first ≡ linking.first_method classes.now) }
{
    let names = names_of(alloc, classes)?;
    program_by(alloc, &names, classes)
}

// What classes are linked to, whose names mean something.
fn program_by(alloc: Global, names: &Names, classes: &[Class]) -> Result<LinkedProgram, LinkError>
    requires kept { All IsClass classes.now }
    requires few { length classes.now ≤ 1024 }
    requires meant { IsMeant classes.now }
    requires names { classes_in names.now.numbered.classes.items ≡ classes.now }
    ensures refused { IfErr result (IsAnswer (link_fault classes.now)) }
    ensures faultless { OnOk result (link_fault classes.now ≡ None) }
    ensures fields { IfOk result (λ program. program.fields ≡ linking.field_kinds classes.now) }
    ensures methods { IfOk result (λ program. program.methods
        ≡ linking.linked_methods classes.now) }
    ensures laid { IfOk result (λ program. All IsInOrder program.methods) }
    ensures first { IfOk result (λ program. program.first ≡ linking.first_method classes.now) }
{
    let first = first_of(classes)?;
    let methods = linked_methods(alloc, names)?;
    let fields = field_kinds(alloc, classes)?;
    Ok(LinkedProgram {
        fields: Sequence::new(fields),
        methods: Sequence::new(methods),
        first,
    })
}

// The names of classes of which none stands twice and all mean something.
fn names_of<'a>(alloc: Global, classes: &'a [Class]) -> Result<Names<'a>, LinkError>
    requires kept { All IsClass classes.now }
    requires few { length classes.now ≤ 1024 }
    ensures refused { IfErr result (IsAnswer (link_fault classes.now)) }
    ensures classes { IfOk result (λ names. classes_in names.numbered.classes.items ≡ classes.now) }
    ensures meant { OnOk result (IsMeant classes.now) }
{
    let numbered = Numbered::new(alloc, classes)?;
    if let Some(fault) = twice_fault(alloc, &numbered)? {
        return Err(LinkError::Refused(fault));
    }
    let names = Names::new(alloc, numbered)?;
    match references_fault(&names) {
        Some(fault) => Err(LinkError::Refused(fault)),
        None => Ok(names),
    }
}

// The number of the first method.
fn first_of(classes: &[Class]) -> Result<u32, LinkError>
    requires kept { All IsClass classes.now }
    requires few { length classes.now ≤ 1024 }
    requires meant { IsMeant classes.now }
    ensures refused { IfErr result (IsAnswer (link_fault classes.now)) }
    ensures faultless { OnOk result (link_fault classes.now ≡ None) }
    ensures first { IfOk result (λ first. first ≡ linking.first_method classes.now) }
{
    match first_method(classes) {
        Some(first) => Ok(first),
        None => Err(LinkError::Refused(LinkFault {
            kind: LinkFault::NO_RUN,
            class: 0,
            slot: 0,
        })),
    }
}
