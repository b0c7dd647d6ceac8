//! Loads and stores of local variables.
ghost use Rattle.std.specs.Prelude.{◌≡◌, ℕ, true};
ghost use Rattle.class_definition.specs.Instructions.{operands_fit};
ghost use Rattle.emit_assembly.specs.Operations.{load_name, store_name, local_operation};

use jvm_code::{LocalName, Op, ShortIndex};
use jvm_definition::LocalKind;

/// The load of a local variable.
pub fn load(kind: LocalKind, i: u8) -> Op
    ensures value { result ≡ local_operation (load_name kind) i }
    ensures fits { (at : ℕ) → operands_fit at result ≡ true }
{
    match kind {
        LocalKind::Int => local(LocalName::Iload, i),
        LocalKind::Reference => local(LocalName::Aload, i),
    }
}

/// The store to a local variable.
pub fn store(kind: LocalKind, i: u8) -> Op
    ensures value { result ≡ local_operation (store_name kind) i }
    ensures fits { (at : ℕ) → operands_fit at result ≡ true }
{
    match kind {
        LocalKind::Int => local(LocalName::Istore, i),
        LocalKind::Reference => local(LocalName::Astore, i),
    }
}

// The first four local variables are named by the opcode.
fn local(name: LocalName, i: u8) -> Op
    ensures value { result ≡ local_operation name i }
    ensures fits { (at : ℕ) → operands_fit at result ≡ true }
{
    if i == 0 {
        Op::ShortLocal(name, ShortIndex::Zero)
    } else if i == 1 {
        Op::ShortLocal(name, ShortIndex::One)
    } else if i == 2 {
        Op::ShortLocal(name, ShortIndex::Two)
    } else if i == 3 {
        Op::ShortLocal(name, ShortIndex::Three)
    } else {
        Op::Local(name, i)
    }
}
