//! Branches and returns (JVM Specification, 2.11.7 and 2.11.8).
ghost use Rattle.std.specs.Prelude.{◌≡◌, ℕ, List, [], ◌∷◌, Bool, IsTrue, length};
ghost use Rattle.jvm_definition.specs.declared.instruction.Instruction.TheVariants as instructions;
ghost use Rattle.jvm_definition.specs.declared.value.Value.TheVariants.{Int as int};
ghost use Rattle.jvm_definition.specs.Values.{is_int};
ghost use Rattle.jvm_definition.specs.Effect.{InstructionEffect, is_reference, as_nullness};
ghost use Rattle.jvm_activations.specs.Stack.{on_top};
ghost use Rattle.jvm_activations.specs.Forms.{Chooses, Gives, branch_operands, return_operands};

use crate::operands::Operands;
use jvm_definition::{BranchName, ReturnName, Value};
use nv_words::signed;

impl Operands {
    /// `ifeq` to `ifnonnull`: whether the branch is taken.
    #[inline]
    pub fn branch(&mut self, name: BranchName) -> bool
        requires { IsTrue (on_top (branch_operands name) self.old.items) }
        ensures chooses { (target : ℕ)
            → Chooses (instructions.Branch name target) self.old.items result self.new.items }
        ensures limit { self.new.limit ≡ self.old.limit }
    {
        match name {
            BranchName::Ifeq => signed(self.pop_int()) == 0,
            BranchName::Ifne => signed(self.pop_int()) != 0,
            BranchName::Iflt => signed(self.pop_int()) < 0,
            BranchName::Ifge => signed(self.pop_int()) >= 0,
            BranchName::Ifgt => signed(self.pop_int()) > 0,
            BranchName::Ifle => signed(self.pop_int()) <= 0,
            BranchName::Goto => true,
            BranchName::Ifnull => is_null(self.pop()),
            BranchName::Ifnonnull => !is_null(self.pop()),
            BranchName::IfIcmpeq => {
                let (a, b) = self.pop_ints();
                signed(a) == signed(b)
            }
            BranchName::IfIcmpne => {
                let (a, b) = self.pop_ints();
                signed(a) != signed(b)
            }
            BranchName::IfIcmplt => {
                let (a, b) = self.pop_ints();
                signed(a) < signed(b)
            }
            BranchName::IfIcmpge => {
                let (a, b) = self.pop_ints();
                signed(a) >= signed(b)
            }
            BranchName::IfIcmpgt => {
                let (a, b) = self.pop_ints();
                signed(a) > signed(b)
            }
            BranchName::IfIcmple => {
                let (a, b) = self.pop_ints();
                signed(a) <= signed(b)
            }
        }
    }

    /// `ireturn` and `return`: the value that is given, if there is one.
    #[inline]
    pub fn returned(&mut self, name: ReturnName) -> Option<Value>
        requires { IsTrue (on_top (return_operands name) self.old.items) }
        ensures gives { Gives (instructions.Return name) self.old.items result }
        ensures limit { self.new.limit ≡ self.old.limit }
    {
        match name {
            ReturnName::Ireturn => Some(Value::Int(self.pop_int())),
            ReturnName::Return => None,
        }
    }

    // The uppermost two operands, which are ints, the upper one last.
    #[inline]
    fn pop_ints(&mut self) -> (u32, u32)
        requires { IsTrue (on_top (is_int ∷ is_int ∷ []) self.old.items) }
        ensures popped { self.old.items ≡ int result.1 ∷ int result.0 ∷ self.new.items }
        ensures limit { self.new.limit ≡ self.old.limit }
    {
        let b = self.pop_int();
        (self.pop_int(), b)
    }
}

#[inline]
fn is_null(v: Value) -> bool
    requires { IsTrue (is_reference v) }
    ensures { (f : Bool → InstructionEffect) → as_nullness v f ≡ f result }
{
    matches!(v, Value::Null)
}
