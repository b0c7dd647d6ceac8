//! The parts of a class from bytes.
ghost use Rattle.std.specs.Prelude.{◌≡◌};
ghost use Rattle.class_format.specs.Gives.{Gives};
ghost use Rattle.class_definition.specs.ClassFile as format;

use crate::code_reading::no_attributes;
use crate::member_reading::{fields_of, methods_of};
use crate::slots::{super_of, this_of};
use class_format::{ClassFault, Failure, exact_half_of, exact_word_of};
use constant_pool::{Slots, entries_of};
use jvm_code::{Class, Member, Method};
use jvm_definition::Sequence;
use std::alloc::Global;

/// CAFEBABE.
pub const MAGIC: u32 = 0xCAFE_BABE;

pub const MINOR: u16 = 0;

const MAJOR: u16 = 48;

/// Public, final and super.
const FLAGS: u16 = 0x31;

/// The class at the front, and what follows it.
#[tactic(auto, unfolding(class_definition::specs::ClassFile::class))]
pub fn class_of(alloc: Global, bytes: &[u8]) -> Result<(Class, &[u8]), Failure>
    ensures { Gives (λ x. (x.0, x.1.now)) result (format.class.read bytes.now) }
{
    let rest = behind_preamble(bytes)?;
    let (pool, rest) = entries_of(alloc, rest)?;
    let ((this_class, super_class), rest) = class_slots_of(&pool, rest)?;
    let ((fields, methods), rest) = members_of(alloc, &pool, rest)?;
    Ok((
        Class {
            pool: Sequence::new(pool.into_entries()),
            this_class,
            super_class,
            fields: Sequence::new(fields),
            methods: Sequence::new(methods),
        },
        rest,
    ))
}

#[tactic(auto, unfolding(class_definition::specs::ClassFile::preamble))]
fn behind_preamble(bytes: &[u8]) -> Result<&[u8], Failure>
    ensures { Gives (λ x. (tt, x.now)) result (format.preamble.read bytes.now) }
{
    let rest = exact_word_of(ClassFault::CUT, ClassFault::MAGIC, MAGIC, bytes)?;
    let rest = exact_half_of(ClassFault::CUT, ClassFault::VERSION, MINOR, rest)?;
    exact_half_of(ClassFault::CUT, ClassFault::VERSION, MAJOR, rest)
}

/// The slots of the class and of the one above it, between the flags and the number of interfaces.
#[tactic(auto, unfolding(class_definition::specs::ClassFile::class_slots))]
pub fn class_slots_of<'a>(pool: &Slots, bytes: &'a [u8]) -> Result<((u16, u16), &'a [u8]), Failure>
    ensures { Gives (λ x. (x.0, x.1.now)) result ((format.class_slots pool.now).read bytes.now) }
{
    let rest = exact_half_of(ClassFault::CUT, ClassFault::FLAGS, FLAGS, bytes)?;
    let (this_class, rest) = this_of(pool, rest)?;
    let (super_class, rest) = super_of(pool, rest)?;
    let rest = exact_half_of(ClassFault::CUT, ClassFault::FLAGS, 0, rest)?;
    Ok(((this_class, super_class), rest))
}

#[tactic(auto, unfolding(class_definition::specs::ClassFile::members))]
fn members_of<'a>(
    alloc: Global,
    pool: &Slots,
    bytes: &'a [u8],
) -> Result<((Vec<Member>, Vec<Method>), &'a [u8]), Failure>
    ensures { Gives (λ x. ((x.0.0.items, x.0.1.items), x.1.now)) result
        ((format.members pool.now).read bytes.now) }
{
    let (fields, rest) = fields_of(alloc, pool, bytes)?;
    let (methods, rest) = methods_of(alloc, pool, rest)?;
    let rest = no_attributes(rest)?;
    Ok(((fields, methods), rest))
}
