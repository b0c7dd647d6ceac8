//! The names and descriptors of a class's own members.
ghost use Rattle.std.specs.Prelude.{◌≡◌, ◌&&◌, true, false, [], ◌∷◌, IfOk, OnOk, Err};
ghost use Rattle.class_definition.specs.NameGrammar.{is_member_name, is_field_descriptor};
ghost use Rattle.constant_pool.specs.declared.error.PoolError.TheVariants as pools;
ghost use Rattle.class_definition.specs.Named.{is_own_descriptor};
ghost use Rattle.emit_classes.specs.declared.error.BuildError.TheVariants.{Full, Unlawful};
ghost use Rattle.emit_classes.specs.Built.{IsNamed, Grows, LacksRoom};
ghost use Rattle.emit_classes.specs.Mentioned.{Mentions, mentioned};

use crate::ascii::characters_of;
use crate::error::BuildError;
use crate::sound_pool::SoundPool;
use constant_pool::{PoolError, is_field_descriptor, is_member_name, is_own_descriptor};
use jvm_code::Member;
use std::alloc::Global;

/// The slots of a field's name and descriptor.
pub fn field_slots(
    alloc: Global,
    pool: &mut SoundPool,
    name: &str,
    descriptor: &str,
) -> Result<Member, BuildError>
    ensures there { IfOk result (λ slots. IsNamed pool.new slots name.now descriptor.now) }
    ensures lawful { OnOk result ((is_member_name name.now && is_field_descriptor descriptor.now)
        ≡ true) }
    ensures grown { Grows pool.old pool.new 2 }
    ensures mentions { OnOk result (Mentions pool.new (mentioned pool.old)) }
    ensures full { result ≡ Err Full → LacksRoom pool.old 2 (name.now ∷ descriptor.now ∷ []) }
    ensures unlawful { result ≡ Err Unlawful
        → (is_member_name name.now && is_field_descriptor descriptor.now) ≡ false }
{
    let name = characters_of(alloc, name)?;
    let descriptor = characters_of(alloc, descriptor)?;
    if !is_member_name(&name) || !is_field_descriptor(&descriptor) {
        return Err(BuildError::Unlawful);
    }
    Ok(slots_of(pool, name, descriptor)?)
}

/// The slots of the name and descriptor of a method of the class itself.
pub fn method_slots(
    alloc: Global,
    pool: &mut SoundPool,
    name: &str,
    descriptor: &str,
) -> Result<Member, BuildError>
    ensures there { IfOk result (λ slots. IsNamed pool.new slots name.now descriptor.now) }
    ensures lawful { OnOk result ((is_member_name name.now && is_own_descriptor descriptor.now)
        ≡ true) }
    ensures grown { Grows pool.old pool.new 2 }
    ensures mentions { OnOk result (Mentions pool.new (mentioned pool.old)) }
    ensures full { result ≡ Err Full → LacksRoom pool.old 2 (name.now ∷ descriptor.now ∷ []) }
    ensures unlawful { result ≡ Err Unlawful
        → (is_member_name name.now && is_own_descriptor descriptor.now) ≡ false }
{
    let name = characters_of(alloc, name)?;
    let descriptor = characters_of(alloc, descriptor)?;
    if !is_member_name(&name) || !is_own_descriptor(&descriptor) {
        return Err(BuildError::Unlawful);
    }
    Ok(slots_of(pool, name, descriptor)?)
}

fn slots_of(pool: &mut SoundPool, name: Vec<u16>, descriptor: Vec<u16>) -> Result<Member, PoolError>
    ensures there { IfOk result (λ slots. IsNamed pool.new slots name.items descriptor.items) }
    ensures grown { Grows pool.old pool.new 2 }
    ensures mentions { OnOk result (Mentions pool.new (mentioned pool.old)) }
    ensures full { result ≡ Err pools.Full
        → LacksRoom pool.old 2 (name.items ∷ descriptor.items ∷ []) }
{
    let name = pool.add_text(name)?;
    let desc = pool.add_text(descriptor)?;
    Ok(Member { name, desc })
}
