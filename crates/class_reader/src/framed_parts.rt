//! The parts of a class of version 51.0 from bytes.
ghost use Rattle.std.specs.Prelude.{◌≡◌, IfOk, map};
ghost use Rattle.class_format.specs.Gives.{Gives};
ghost use Rattle.class_definition.specs.FramedClassFile as format;
ghost use Rattle.class_definition.specs.Tables.{table_slot};

use crate::code_reading::no_attributes;
use crate::framed_member_reading::framed_methods_of;
use crate::member_reading::fields_of;
use crate::parts::{MAGIC, MINOR, class_slots_of};
use class_definition_laws::{FramedClass, table_slot_of};
use class_format::{ClassFault, Failure, exact_half_of, exact_word_of};
use constant_pool::{Slots, entries_of};
use jvm_code::{Class, Member, Method};
use jvm_definition::Sequence;
use std::alloc::{AllocError, Global};

const MAJOR: u16 = 51;

/// The class at the front, and what follows it.
#[tactic(auto, unfolding(class_definition::specs::FramedClassFile::framed_class))]
pub fn framed_class_of(alloc: Global, bytes: &[u8]) -> Result<(FramedClass, &[u8]), Failure>
    ensures { Gives (λ x. (x.0, x.1.now)) result (format.framed_class.read bytes.now) }
{
    let rest = behind_preamble(bytes)?;
    let (pool, rest) = entries_of(alloc, rest)?;
    let ((this_class, super_class), rest) = class_slots_of(&pool, rest)?;
    let ((fields, methods), rest) = framed_members_of(alloc, &pool, rest)?;
    let (methods, tables) = apart(alloc, methods)?;
    let class = Class {
        pool: Sequence::new(pool.into_entries()),
        this_class,
        super_class,
        fields: Sequence::new(fields),
        methods: Sequence::new(methods),
    };
    let tables = Sequence::new(tables);
    Ok((FramedClass { class, tables }, rest))
}

#[tactic(auto, unfolding(class_definition::specs::FramedClassFile::framed_preamble))]
fn behind_preamble(bytes: &[u8]) -> Result<&[u8], Failure>
    ensures { Gives (λ x. (tt, x.now)) result (format.framed_preamble.read bytes.now) }
{
    let rest = exact_word_of(ClassFault::CUT, ClassFault::MAGIC, MAGIC, bytes)?;
    let rest = exact_half_of(ClassFault::CUT, ClassFault::VERSION, MINOR, rest)?;
    exact_half_of(ClassFault::CUT, ClassFault::VERSION, MAJOR, rest)
}

#[tactic(auto, unfolding(class_definition::specs::FramedClassFile::members_with_tables))]
fn framed_members_of<'a>(
    alloc: Global,
    pool: &Slots,
    bytes: &'a [u8],
) -> Result<((Vec<Member>, Vec<(Method, Sequence<u8>)>), &'a [u8]), Failure>
    ensures { Gives (λ x. ((x.0.0.items, x.0.1.items), x.1.now)) result
        ((format.members_with_tables pool.now).read bytes.now) }
{
    let (fields, rest) = fields_of(alloc, pool, bytes)?;
    let table_name = table_slot_of(pool.as_slice());
    let (methods, rest) = framed_methods_of(alloc, pool, table_name, rest)?;
    let rest = no_attributes(rest)?;
    Ok(((fields, methods), rest))
}

// The methods, and their tables.
fn apart(
    alloc: Global,
    framed: Vec<(Method, Sequence<u8>)>,
) -> Result<(Vec<Method>, Vec<Sequence<u8>>), AllocError>
    ensures methods { IfOk result (λ x. x.0.items ≡ map format.method_without_table framed.items) }
    ensures tables { IfOk result (λ x. x.1.items ≡ map format.table_of framed.items) }
{
    let mut methods = Vec::new(alloc);
    let mut tables = Vec::new(alloc);
    let mut rest = framed;
    while let Some((method, table)) = rest.pop() {
        methods.push(method)?;
        tables.push(table)?;
    }
    methods.reverse();
    tables.reverse();
    Ok((methods, tables))
}
