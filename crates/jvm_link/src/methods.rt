//! Methods with their code.
ghost use Rattle.std.specs.Prelude.{◌≡◌, ◌≤◌, ◌<◌, ◌++◌, ◌+◌, map, IfOk, OnOk, None, length, All};
ghost use Rattle.class_definition.specs.Code.{code_fault};
ghost use Rattle.jvm_code.specs.Writing.{AreLaid};
ghost use Rattle.class_definition.specs.Sizes.{size_at};
ghost use Rattle.class_names.specs.Keys.{IsNumbered, classes_in};
ghost use Rattle.class_definition.specs.Linking as linking;
ghost use Rattle.jvm_code.specs.Order.{AreInOrder, IsInOrder};
ghost use Rattle.jvm_link.specs.Parameters.{entry_parameters};

use crate::instructions::linked_instruction;
use crate::kinds::gives_int;
use crate::parameters::{parameters_at, slot_parameters};
use class_names::{Names, NoMemory, NumberedClass, text_of};
use jvm_code::{Line, Method, decode_ops, size};
use jvm_definition::{Kind, LinkedLine, LinkedMethod, Sequence};
use std::alloc::{AllocError, Global};

/// The methods of all classes, class by class.
pub fn linked_methods(alloc: Global, names: &Names) -> Result<Vec<LinkedMethod>, NoMemory>
    requires { length names.now.numbered.classes.items ≤ 1024 }
    ensures methods { IfOk result (λ methods. methods.items
        ≡ linking.linked_methods (classes_in names.now.numbered.classes.items)) }
    ensures laid { IfOk result (λ methods. All IsInOrder methods.items) }
{
    let mut methods = Vec::new(alloc);
    for (number, class) in names.numbered.classes.iter().enumerate() {
        push_methods(alloc, &mut methods, names, number as u16, class)?;
    }
    Ok(methods)
}

// Adds the methods of a class with a number.
fn push_methods(
    alloc: Global,
    methods: &mut Vec<LinkedMethod>,
    names: &Names,
    number: u16,
    class: &NumberedClass,
) -> Result<(), NoMemory>
    requires numbered { IsNumbered names.now.numbered.texts.keys class.now }
    requires laid { All IsInOrder methods.old.items }
    ensures methods { OnOk result (methods.new.items ≡ methods.old.items
        ++ map (linking.linked_method (classes_in names.now.numbered.classes.items)
        number class.now.class.now) class.now.class.now.methods) }
    ensures laid { OnOk result (All IsInOrder methods.new.items) }
{
    let parameters = slot_parameters(alloc, class.class.pool.as_slice())?;
    let parameters = parameters.as_slice();
    for method in class.class.methods.as_slice() {
        let linked = linked_method(alloc, names, number, class, parameters, method)?;
        methods.push(linked)?;
    }
    Ok(())
}

// A method of a class of which the text in each slot names these parameters.
#[tactic(auto, unfolding(class_definition::specs::Linking::linked_method), using(crate::proofs::ParameterLemmas::parameters_are))]
fn linked_method(
    alloc: Global,
    names: &Names,
    number: u16,
    class: &NumberedClass,
    parameters: &[Sequence<Kind>],
    method: &Method,
) -> Result<LinkedMethod, NoMemory>
    requires numbered { IsNumbered names.now.numbered.texts.keys class.now }
    requires parameters { parameters.now ≡ map entry_parameters class.now.class.now.pool }
    requires sound { code_fault method.now.code ≡ None }
    ensures method { IfOk result (λ linked. linked
        ≡ linking.linked_method (classes_in names.now.numbered.classes.items)
        number class.now.class.now method.now) }
    ensures laid { IfOk result IsInOrder }
{
    let gives_int = gives_int(text_of(class.class, method.desc));
    let parameters = parameters_at(alloc, parameters, method.desc)?;
    let code = lines_of(alloc, method.code.as_slice())?;
    let lines = linked_lines(alloc, names, number, class, gives_int, code)?;
    Ok(LinkedMethod {
        parameters: Sequence::new(parameters),
        gives_int,
        stack: method.stack,
        locals: method.locals,
        lines: Sequence::new(lines),
    })
}

// The lines of code without a fault.
fn lines_of(alloc: Global, code: &[u8]) -> Result<Vec<Line>, NoMemory>
    requires { code_fault code.now ≡ None }
    ensures lines { IfOk result (λ lines. lines.items ≡ linking.lines_of_code code.now) }
    ensures laid { IfOk result (λ lines. AreLaid 0 lines.items) }
{
    match decode_ops(alloc, code) {
        Ok(lines) => Ok(lines),
        Err(_) => Err(AllocError),
    }
}

fn linked_lines(
    alloc: Global,
    names: &Names,
    number: u16,
    class: &NumberedClass,
    gives: bool,
    lines: Vec<Line>,
) -> Result<Vec<LinkedLine>, NoMemory>
    requires numbered { IsNumbered names.now.numbered.texts.keys class.now }
    requires laid { AreLaid 0 lines.items }
    ensures lines { IfOk result (λ linked. linked.items
        ≡ map (linking.linked_line (classes_in names.now.numbered.classes.items)
        number class.now.class.now gives) lines.items) }
    ensures laid { IfOk result (λ linked. AreInOrder linked.items) }
{
    let mut linked = Vec::with_capacity(alloc, lines.len())?;
    for line in lines {
        linked.push(linked_line(names, number, class, gives, line))?;
    }
    Ok(linked)
}

fn linked_line(
    names: &Names,
    number: u16,
    class: &NumberedClass,
    gives: bool,
    line: Line,
) -> LinkedLine
    requires numbered { IsNumbered names.now.numbered.texts.keys class.now }
    requires within { line.at + size_at line.at line.op ≤ 65535 }
    ensures { result ≡ linking.linked_line (classes_in names.now.numbered.classes.items)
        number class.now.class.now gives line }
{
    let next = line.at + size(&line.op, line.at);
    LinkedLine {
        at: line.at,
        next,
        instruction: linked_instruction(names, number, class, gives, line.op),
    }
}
