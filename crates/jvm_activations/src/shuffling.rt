//! Instructions that move operands (JVM Specification, 2.11.6).
ghost use Rattle.std.specs.Prelude.{◌≡◌, ◌<◌, ◌≤◌, length, Some, IsSomeAnd};
ghost use Rattle.jvm_definition.specs.declared.instruction.Instruction.TheVariants as instructions;
ghost use Rattle.jvm_definition.specs.Values as values;
ghost use Rattle.jvm_definition.specs.Shuffles.{forms_of, shuffled};
ghost use Rattle.jvm_activations.specs.Forms.{Does};

use crate::operands::Operands;
use jvm_definition::{StackName, Value};

impl Operands {
    /// `pop` to `swap`.
    #[inline]
    pub fn shuffle(&mut self, name: StackName)
        requires { IsSomeAnd (shuffled values.is_long_value (forms_of name) self.old.items)
            (λ items. length items ≤ self.old.limit) }
        ensures does { Does (instructions.Stack name) self.old.items self.new.items }
        ensures limit { self.new.limit ≡ self.old.limit }
    {
        match name {
            StackName::Pop => {
                self.pop();
            }
            StackName::Pop2 => self.pop_two(),
            StackName::Dup => {
                let v = self.peek(0);
                self.push(v);
            }
            StackName::DupX1 => self.dup_below_one(),
            StackName::DupX2 => self.dup_below_two(),
            StackName::Dup2 => self.dup_two(),
            StackName::Swap => self.swap(),
        }
    }

    #[inline]
    fn pop_two(&mut self)
        requires { IsSomeAnd (shuffled values.is_long_value (forms_of StackName.Pop2) self.old.items)
            (λ items. length items ≤ self.old.limit) }
        ensures shuffled { shuffled values.is_long_value (forms_of StackName.Pop2) self.old.items
            ≡ Some self.new.items }
        ensures limit { self.new.limit ≡ self.old.limit }
    {
        if !is_long(self.pop()) {
            self.pop();
        }
    }

    #[inline]
    fn dup_below_one(&mut self)
        requires { IsSomeAnd (shuffled values.is_long_value (forms_of StackName.DupX1) self.old.items)
            (λ items. length items ≤ self.old.limit) }
        ensures shuffled { shuffled values.is_long_value (forms_of StackName.DupX1) self.old.items
            ≡ Some self.new.items }
        ensures limit { self.new.limit ≡ self.old.limit }
    {
        let a = self.pop();
        let b = self.pop();
        self.push(a);
        self.push(b);
        self.push(a);
    }

    #[inline]
    fn dup_below_two(&mut self)
        requires { IsSomeAnd (shuffled values.is_long_value (forms_of StackName.DupX2) self.old.items)
            (λ items. length items ≤ self.old.limit) }
        ensures shuffled { shuffled values.is_long_value (forms_of StackName.DupX2) self.old.items
            ≡ Some self.new.items }
        ensures limit { self.new.limit ≡ self.old.limit }
    {
        let a = self.pop();
        let b = self.pop();
        if is_long(b) {
            self.push(a);
        } else {
            let c = self.pop();
            self.push(a);
            self.push(c);
        }
        self.push(b);
        self.push(a);
    }

    #[inline]
    fn dup_two(&mut self)
        requires { IsSomeAnd (shuffled values.is_long_value (forms_of StackName.Dup2) self.old.items)
            (λ items. length items ≤ self.old.limit) }
        ensures shuffled { shuffled values.is_long_value (forms_of StackName.Dup2) self.old.items
            ≡ Some self.new.items }
        ensures limit { self.new.limit ≡ self.old.limit }
    {
        let a = self.pop();
        if is_long(a) {
            self.push(a);
            self.push(a);
        } else {
            let b = self.pop();
            self.push(b);
            self.push(a);
            self.push(b);
            self.push(a);
        }
    }

    #[inline]
    fn swap(&mut self)
        requires { IsSomeAnd (shuffled values.is_long_value (forms_of StackName.Swap) self.old.items)
            (λ items. length items ≤ self.old.limit) }
        ensures shuffled { shuffled values.is_long_value (forms_of StackName.Swap) self.old.items
            ≡ Some self.new.items }
        ensures limit { self.new.limit ≡ self.old.limit }
    {
        let a = self.pop();
        let b = self.pop();
        self.push(a);
        self.push(b);
    }
}

#[inline]
fn is_long(v: Value) -> bool
    ensures { result ≡ values.is_long_value v }
{
    matches!(v, Value::Long(_))
}
