//! From the files of a translation to classes that may be run.
ghost use Rattle.std.specs.Prelude.{◌≡◌, ◌++◌, ◌∷◌, [], All, IfOk, List, OnOk, false};
ghost use Rattle.jvm_definition.specs.Step.{loaded_program};
ghost use Rattle.jvm_definition.specs.Typing.{AllTyped};
ghost use Rattle.class_definition.specs.declared.class.Class.{Class};
ghost use Rattle.class_names.specs.Kept.{IsClass};
ghost use Rattle.class_definition.specs.Linking as linking;
ghost use Rattle.jvm_machine.specs.Machine.{has_ended, state_of};
ghost use Rattle.command_translate.specs.Classes.{HoldAccepted, SpellClasses};

use class_reader::{ReadError, read_class};
use jvm_code::Class;
use jvm_link::{LinkError, Linked, link};
use jvm_machine::Jvm;
use nv_translate::NamedFile;
use nv_values::RegionWords;
use std::alloc::{AllocError, Global};

/// The class machine with the classes that the files of a translation spell, in a region of so many words. That their methods are typed is
/// proved of all translations, so no time is spent on verifying them.
pub fn machine_of(alloc: Global, words: RegionWords, files: &[NamedFile]) -> Result<Jvm, AllocError>
    requires { HoldAccepted files.now }
    ensures state { (classes : List Class) → SpellClasses files.now classes
        → IfOk result (λ jvm. state_of jvm
        ≡ loaded_program (linking.program_of classes) words) }
    ensures going { IfOk result (λ jvm. has_ended jvm ≡ false) }
{
    let linked = linked_files(alloc, files)?;
    let jvm = Jvm::load_typed(alloc, linked, words)?;
    Ok(jvm)
}

/// The classes that files spell, linked.
fn linked_files(alloc: Global, files: &[NamedFile]) -> Result<Linked, AllocError>
    requires { HoldAccepted files.now }
    ensures spelled { IfOk result (λ linked. SpellClasses files.now linked.classes) }
    ensures typed { IfOk result (λ linked. AllTyped (linking.program_of linked.classes)) }
{
    let classes = read_files(alloc, files)?;
    let linked = linked_classes(alloc, classes)?;
    Ok(linked)
}

/// Links classes that are accepted.
fn linked_classes(alloc: Global, classes: Vec<Class>) -> Result<Linked, AllocError>
    requires kept { All IsClass classes.items }
    requires accepted { linking.Accepted classes.items }
    ensures { IfOk result (λ linked. linked.classes ≡ classes.items) }
{
    match link(alloc, classes) {
        Ok(linked) => Ok(linked),
        Err(LinkError::NoMemory) => Err(AllocError),
        Err(LinkError::Refused(_)) => unreachable!(),
    }
}

/// The classes that files spell.
fn read_files(alloc: Global, files: &[NamedFile]) -> Result<Vec<Class>, AllocError>
    requires { HoldAccepted files.now }
    ensures { IfOk result (λ classes. SpellClasses files.now classes.items) }
{
    let mut classes = Vec::new(alloc);
    for file in files {
        match read_class(alloc, file.bytes.as_slice()) {
            Ok(class) => push(&mut classes, class)?,
            Err(ReadError::Refused(_)) => unreachable!(),
            Err(ReadError::NoMemory) => return Err(AllocError),
        }
    }
    Ok(classes)
}

fn push(classes: &mut Vec<Class>, class: Class) -> Result<(), AllocError>
    ensures { OnOk result (classes.new.items ≡ classes.old.items ++ class ∷ []) }
{
    classes.push(class)?;
    Ok(())
}
