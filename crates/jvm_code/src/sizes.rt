//! How long instructions are.
ghost use Rattle.std.specs.Prelude.{◌≡◌, true, length};
ghost use Rattle.class_definition.specs.Instructions.{instruction};
ghost use Rattle.class_definition.specs.Sizes.{size_at};
ghost use Rattle.jvm_code.specs.Writing as format;

use crate::switch_reading::pad_of;
use class_definition::Op;

/// The number of bytes of an instruction that is at `at`, an offset from the code's start. A switch has at most 16,384
/// targets but for its default. It takes no memory.
#[tactic(auto, using(crate::proofs::SizeLemmas::size_is))]
pub fn size(op: &Op, at: u32) -> u32
    requires { format.HasFewTargets op.now }
    ensures value { result ≡ size_at at op.now }
    ensures spelled { (instruction at).fits op.now ≡ true
        → length ((instruction at).spell op.now) ≡ result }
{
    match op {
        Op::Bipush(_) | Op::Ldc(_) | Op::Local(_, _) | Op::Newarray => 2,
        Op::Sipush(_) | Op::Pool(_, _) | Op::Iinc(_, _) | Op::Branch(_, _) => 3,
        Op::GotoW(_) => 5,
        Op::TableSwitch(switch) => {
            13 + pad_of(at) as u32 + 4 * switch.get().targets.as_slice().len() as u32
        }
        Op::LookupSwitch(switch) => {
            9 + pad_of(at) as u32 + 8 * switch.get().pairs.as_slice().len() as u32
        }
        _ => 1,
    }
}
