//! What is in the pool of every class.
ghost use Rattle.std.specs.Prelude.{◌≡◌, ◌≢◌, ◌+◌, ◌<◌, true, false, codes, [], ◌∷◌, ◌++◌, length, IfOk, OnOk, Err};
ghost use Rattle.class_definition.specs.NameGrammar.{is_class_file_name};
ghost use Rattle.emit_classes.specs.declared.error.BuildError.TheVariants.{Full, Unlawful};
ghost use Rattle.emit_classes.specs.Named.{IsTextAt, IsClassAt};
ghost use Rattle.emit_classes.specs.Built.{Grows, LacksRoom};
ghost use Rattle.emit_classes.specs.Mentioned.{Mentions, OfClass, mentioned};

use crate::ascii::characters_of;
use crate::error::BuildError;
use crate::references::add_class;
use crate::sound_pool::SoundPool;
use constant_pool::is_class_name;
use std::alloc::Global;

/// The slot of the class itself, which is no array.
pub fn own_slot(alloc: Global, pool: &mut SoundPool, name: &str) -> Result<u16, BuildError>
    ensures there { IfOk result (λ slot. IsClassAt pool.new slot name.now) }
    ensures lawful { OnOk result (is_class_file_name name.now ≡ true) }
    ensures grown { Grows pool.old pool.new 2 }
    ensures mentions { OnOk result
        (Mentions pool.new (mentioned pool.old ++ OfClass name.now ∷ [])) }
    ensures full { result ≡ Err Full → LacksRoom pool.old 2 (name.now ∷ []) }
    ensures unlawful { result ≡ Err Unlawful → is_class_file_name name.now ≡ false }
{
    let name = characters_of(alloc, name)?;
    if !is_class_name(&name) {
        return Err(BuildError::Unlawful);
    }
    Ok(add_class(pool, name)?)
}

/// The slot of the class above it.
pub fn object_slot(alloc: Global, pool: &mut SoundPool) -> Result<u16, BuildError>
    ensures there { IfOk result (λ slot. IsClassAt pool.new slot (codes "java/lang/Object")) }
    ensures grown { Grows pool.old pool.new 2 }
    ensures mentions { OnOk result (Mentions pool.new (mentioned pool.old
        ++ OfClass (codes "java/lang/Object") ∷ [])) }
    ensures full { result ≡ Err Full → 65534 < length pool.old + 2 }
    ensures lawful { result ≢ Err Unlawful }
{
    let name = characters_of(alloc, "java/lang/Object")?;
    Ok(add_class(pool, name)?)
}

/// The slot of the name of the attribute with a method's code (JVM Specification, 4.7.3).
pub fn code_slot(alloc: Global, pool: &mut SoundPool) -> Result<u16, BuildError>
    ensures there { IfOk result (λ slot. IsTextAt pool.new slot (codes "Code")) }
    ensures grown { Grows pool.old pool.new 1 }
    ensures mentions { OnOk result (Mentions pool.new (mentioned pool.old)) }
    ensures full { result ≡ Err Full → 65534 < length pool.old + 1 }
    ensures lawful { result ≢ Err Unlawful }
{
    let name = characters_of(alloc, "Code")?;
    Ok(pool.add_text(name)?)
}
