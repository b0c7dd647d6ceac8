//! What code names: classes, fields and methods (JVM Specification, 4.4.1, 4.4.2 and 4.4.6).
ghost use Rattle.std.specs.Prelude.{◌≡◌, true, false, Some, None, [], ◌∷◌, ◌++◌, IfOk, OnOk, Err};
ghost use Rattle.class_definition.specs.PoolChecks.{pair_fault};
ghost use Rattle.constant_pool.specs.declared.error.PoolError.TheVariants as pools;
ghost use Rattle.emit_classes.specs.declared.error.BuildError.TheVariants.{Full, Unlawful};
ghost use Rattle.emit_classes.specs.Named.{IsClassAt, IsPairAt, IsMemberAt};
ghost use Rattle.emit_classes.specs.Lawful.{names_class, member_entry, is_member};
ghost use Rattle.emit_classes.specs.Built.{Grows, LacksRoom};
ghost use Rattle.emit_classes.specs.Mentioned.{Mentions, MentionsOf, OfClass, member_mention, mentioned};

use crate::ascii::characters_of;
use crate::error::BuildError;
use crate::member_kind::MemberKind;
use crate::sound_pool::SoundPool;
use constant_pool::{Entry, PoolError, is_array_name, is_class_name};
use std::alloc::Global;

/// The slot of a class.
pub fn class_slot(alloc: Global, pool: &mut SoundPool, name: &str) -> Result<u16, BuildError>
    ensures there { IfOk result (λ slot. IsClassAt pool.new slot name.now) }
    ensures grown { Grows pool.old pool.new 2 }
    ensures mentions { OnOk result
        (Mentions pool.new (mentioned pool.old ++ OfClass name.now ∷ [])) }
    ensures full { result ≡ Err Full → LacksRoom pool.old 2 (name.now ∷ []) }
    ensures unlawful { result ≡ Err Unlawful → names_class name.now ≡ false }
{
    let name = characters_of(alloc, name)?;
    if !names_class(&name) {
        return Err(BuildError::Unlawful);
    }
    Ok(add_class(pool, name)?)
}

fn names_class(name: &[u16]) -> bool
    ensures { result ≡ names_class name.now }
{
    is_class_name(name) || is_array_name(name)
}

/// The slot of a class.
pub fn add_class(pool: &mut SoundPool, name: Vec<u16>) -> Result<u16, PoolError>
    requires { names_class name.items ≡ true }
    ensures there { IfOk result (λ slot. IsClassAt pool.new slot name.items) }
    ensures grown { Grows pool.old pool.new 2 }
    ensures mentions { OnOk result (Mentions pool.new (mentioned pool.old
        ++ OfClass name.items ∷ [])) }
    ensures full { result ≡ Err pools.Full → LacksRoom pool.old 2 (name.items ∷ []) }
{
    let text = pool.add_text(name)?;
    pool.add(Entry::ClassName(text))
}

// The slot of a name and a descriptor.
fn add_pair(pool: &mut SoundPool, name: Vec<u16>, descriptor: Vec<u16>) -> Result<u16, PoolError>
    requires { pair_fault (Some name.items) (Some descriptor.items) ≡ None }
    ensures there { IfOk result (λ slot. IsPairAt pool.new slot name.items descriptor.items) }
    ensures grown { Grows pool.old pool.new 3 }
    ensures mentions { OnOk result (Mentions pool.new (mentioned pool.old)) }
    ensures full { result ≡ Err pools.Full
        → LacksRoom pool.old 3 (name.items ∷ descriptor.items ∷ []) }
{
    let name = pool.add_text(name)?;
    let descriptor = pool.add_text(descriptor)?;
    pool.add(Entry::NameAnd(name, descriptor))
}

/// The slot of a field or method of the class in a slot.
pub fn member_slot(
    alloc: Global,
    pool: &mut SoundPool,
    kind: MemberKind,
    class: u16,
    name: &str,
    descriptor: &str,
) -> Result<u16, BuildError>
    ensures there { IfOk result (λ slot.
        IsMemberAt (member_entry kind) pool.new slot class name.now descriptor.now) }
    ensures grown { Grows pool.old pool.new 4 }
    ensures mentions { OnOk result (MentionsOf pool.old pool.new class
        (λ owner. member_mention kind owner name.now descriptor.now ∷ [])) }
    ensures full { result ≡ Err Full → LacksRoom pool.old 4 (name.now ∷ descriptor.now ∷ []) }
    ensures unlawful { result ≡ Err Unlawful → is_member kind pool.old class name.now descriptor.now
        ≡ false }
{
    let name = characters_of(alloc, name)?;
    let descriptor = characters_of(alloc, descriptor)?;
    if !pool.has_class(class) || !kind.has(&name, &descriptor) {
        return Err(BuildError::Unlawful);
    }
    Ok(add_member(pool, kind, class, name, descriptor)?)
}

fn add_member(
    pool: &mut SoundPool,
    kind: MemberKind,
    class: u16,
    name: Vec<u16>,
    descriptor: Vec<u16>,
) -> Result<u16, PoolError>
    requires { is_member kind pool.old class name.items descriptor.items ≡ true }
    ensures there { IfOk result (λ slot.
        IsMemberAt (member_entry kind) pool.new slot class name.items descriptor.items) }
    ensures grown { Grows pool.old pool.new 4 }
    ensures mentions { OnOk result (MentionsOf pool.old pool.new class
        (λ owner. member_mention kind owner name.items descriptor.items ∷ [])) }
    ensures full { result ≡ Err pools.Full
        → LacksRoom pool.old 4 (name.items ∷ descriptor.items ∷ []) }
{
    let pair = add_pair(pool, name, descriptor)?;
    pool.add(kind.entry(class, pair))
}
