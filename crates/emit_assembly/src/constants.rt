//! Instructions that push constants (JVM Specification, 2.11.2).
ghost use Rattle.std.specs.Prelude.{◌≡◌, ℕ, pos, negsuc, ◌+◌, ◌<◌, ◌≤◌, true, false, IsTrue, List, [], ◌∷◌, length, IfOk, OnOk, Err};
ghost use Rattle.std.specs.List.{list_all};
ghost use Rattle.run_definition.specs.Words.{unsigned_of};
ghost use Rattle.jvm_definition.specs.declared.instruction.Instruction.TheVariants.{Push};
ghost use Rattle.constant_pool.specs.Slots.{IsAt, IsMissing, is_rest, slots_of_entry};
ghost use Rattle.constant_pool.specs.declared.error.PoolError.TheVariants.{Full};
ghost use Rattle.class_definition.specs.Linking.{iconst_word};
ghost use Rattle.emit_steps.specs.declared.step.Step.{Step};
ghost use Rattle.emit_steps.specs.declared.step.Step.TheVariants.{Does};
ghost use Rattle.emit_steps.specs.Widths.{lies_from};
ghost use Rattle.emit_assembly.specs.declared.references.References.{References};
ghost use Rattle.emit_assembly.specs.Assembling.{Extends, Adds, can_stand, is_constant_of};
ghost use Rattle.emit_assembly.specs.Operations.{AddsConstants, Has, IsOperation, IsInSlot, LacksSlots};

use constant_pool::{Entry, Pool, PoolError};
use emit_steps::lies_from;
use jvm_code::{Iconst, Op, PoolName};
use jvm_definition::Constant;
use nv_words::signed;

/// The operation that pushes a constant, which is added to the pool where no shorter form holds it.
pub fn push(constant: Constant, pool: &mut Pool) -> Result<Op, PoolError>
    ensures op { IfOk result (λ op. (r : References) → IsOperation r pool.new (Push constant) op) }
    ensures kept { Extends pool.old pool.new }
    ensures added { Adds (Does (Push constant) ∷ []) pool.old pool.new }
    ensures has { OnOk result (Has pool.new constant) }
    ensures adds { AddsConstants pool.old pool.new (constant ∷ []) }
    ensures full { result ≡ Err Full → LacksSlots pool.old (constant ∷ []) }
{
    match constant {
        Constant::Null => Ok(Op::AconstNull),
        Constant::Int(word) => push_int(word, pool),
        Constant::Long(bits) => in_slot(PoolName::Ldc2W, Entry::Long(bits.cast_signed()), pool),
        Constant::Text(_, text) => in_slot(PoolName::LdcW, Entry::Text(text), pool),
    }
}

fn push_int(word: u32, pool: &mut Pool) -> Result<Op, PoolError>
    ensures op { IfOk result (λ op. (r : References)
        → IsOperation r pool.new (Push (Constant.Int word)) op) }
    ensures kept { Extends pool.old pool.new }
    ensures added { Adds (Does (Push (Constant.Int word)) ∷ []) pool.old pool.new }
    ensures has { OnOk result (Has pool.new (Constant.Int word)) }
    ensures adds { AddsConstants pool.old pool.new ((Constant.Int word) ∷ []) }
    ensures full { result ≡ Err Full → LacksSlots pool.old ((Constant.Int word) ∷ []) }
{
    let n = signed(word);
    if lies_from(-1, 5, n) {
        Ok(Op::Iconst(iconst(n)))
    } else if lies_from(-128, 127, n) {
        Ok(Op::Bipush(n as i8))
    } else if lies_from(-32_768, 32_767, n) {
        Ok(Op::Sipush(n as i16))
    } else {
        in_slot(PoolName::LdcW, Entry::Integer(n), pool)
    }
}

fn iconst(n: i32) -> Iconst
    requires { IsTrue (lies_from (negsuc 0) (pos 5) n) }
    ensures { iconst_word result ≡ unsigned_of n }
{
    match n {
        -1 => Iconst::M1,
        0 => Iconst::Zero,
        1 => Iconst::One,
        2 => Iconst::Two,
        3 => Iconst::Three,
        4 => Iconst::Four,
        _ => Iconst::Five,
    }
}

// An instruction with the slot of an entry.
fn in_slot(name: PoolName, entry: Entry, pool: &mut Pool) -> Result<Op, PoolError>
    requires rest { is_rest entry ≡ false }
    requires stands { can_stand (slots_of_entry entry) ≡ true }
    ensures op { IfOk result (IsInSlot pool.new name entry) }
    ensures kept { Extends pool.old pool.new }
    ensures added { (code : List Step)
        → IsTrue (list_all (is_constant_of code) (slots_of_entry entry))
        → Adds code pool.old pool.new }
    ensures same { (slot : ℕ) → IsAt pool.old slot entry → pool.new ≡ pool.old }
    ensures few { length pool.new ≤ length pool.old + length (slots_of_entry entry) }
    ensures lacks { result ≡ Err Full → IsMissing pool.old entry }
    ensures full { result ≡ Err Full → 65534 < length pool.old + length (slots_of_entry entry) }
{
    let slot = pool.add(entry)?;
    Ok(Op::Pool(name, slot))
}
