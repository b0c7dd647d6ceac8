//! Arithmetic and conversions (JVM Specification, 2.11.3 and 2.11.4), and constants.
ghost use Rattle.std.specs.Prelude.{◌≡◌, ◌<◌, List, [], ◌∷◌, length, IsTrue, OnOk, OnErr, IfErr};
ghost use Rattle.jvm_definition.specs.declared.instruction.Instruction.TheVariants as instructions;
ghost use Rattle.jvm_definition.specs.declared.value.Value.TheVariants.{Int as int, Long as long};
ghost use Rattle.jvm_definition.specs.Values.{is_int, is_long_value};
ghost use Rattle.jvm_definition.specs.Effect.{constant_value};
ghost use Rattle.jvm_activations.specs.Stack.{on_top};
ghost use Rattle.jvm_activations.specs.Trap.{trap_kind};
ghost use Rattle.jvm_activations.specs.Forms.{Does, Traps, converted};

use crate::int_words::{byte_of, int_quotient, int_result, int_shifted, short_of};
use crate::long_words::{long_of, long_order, long_quotient, long_result, long_shifted, low_word};
use crate::operands::Operands;
use crate::trap::Trap;
use jvm_definition::{
    Constant, Conversion, IntArithmetic, IntDivision, IntShift, LongArithmetic, LongDivision,
    LongShift, Value,
};

impl Operands {
    /// The uppermost operand, which is an int.
    #[inline]
    pub fn pop_int(&mut self) -> u32
        requires { IsTrue (on_top (is_int ∷ []) self.old.items) }
        ensures popped { self.old.items ≡ int result ∷ self.new.items }
        ensures limit { self.new.limit ≡ self.old.limit }
        ensures room { length self.new.items < self.new.limit }
    {
        match self.pop() {
            Value::Int(n) => n,
            _ => unreachable!(),
        }
    }

    /// The uppermost operand, which is a long.
    #[inline]
    pub fn pop_long(&mut self) -> u64
        requires { IsTrue (on_top (is_long_value ∷ []) self.old.items) }
        ensures popped { self.old.items ≡ long result ∷ self.new.items }
        ensures limit { self.new.limit ≡ self.old.limit }
        ensures room { length self.new.items < self.new.limit }
    {
        match self.pop() {
            Value::Long(n) => n,
            _ => unreachable!(),
        }
    }

    /// A constant.
    #[inline]
    pub fn push_constant(&mut self, constant: Constant)
        requires { length self.old.items < self.old.limit }
        ensures does { Does (instructions.Push constant) self.old.items self.new.items }
        ensures limit { self.new.limit ≡ self.old.limit }
    {
        self.push(value_of(constant));
    }

    /// `iadd` to `ixor`.
    #[inline]
    pub fn int_arithmetic(&mut self, name: IntArithmetic)
        requires { IsTrue (on_top (is_int ∷ is_int ∷ []) self.old.items) }
        ensures does { Does (instructions.IntArithmetic name) self.old.items self.new.items }
        ensures limit { self.new.limit ≡ self.old.limit }
    {
        let b = self.pop_int();
        let a = self.pop_int();
        self.push(Value::Int(int_result(name, a, b)));
    }

    /// `idiv` and `irem`; with a divisor of 0 a trap, and the operands are as they were.
    #[inline]
    pub fn int_division(&mut self, name: IntDivision) -> Result<(), Trap>
        requires { IsTrue (on_top (is_int ∷ is_int ∷ []) self.old.items) }
        ensures ok { OnOk result
            (Does (instructions.IntDivision name) self.old.items self.new.items) }
        ensures err { IfErr result (λ trap.
            Traps (instructions.IntDivision name) self.old.items (trap_kind trap)) }
        ensures unchanged { OnErr result (self.new ≡ self.old) }
        ensures limit { self.new.limit ≡ self.old.limit }
    {
        let b = self.pop_int();
        if b == 0 {
            self.push(Value::Int(b));
            return Err(Trap::Divisor);
        }
        let a = self.pop_int();
        self.push(Value::Int(int_quotient(name, a, b)));
        Ok(())
    }

    /// `ishl`, `ishr` and `iushr`.
    #[inline]
    pub fn int_shift(&mut self, name: IntShift)
        requires { IsTrue (on_top (is_int ∷ is_int ∷ []) self.old.items) }
        ensures does { Does (instructions.IntShift name) self.old.items self.new.items }
        ensures limit { self.new.limit ≡ self.old.limit }
    {
        let n = self.pop_int();
        let a = self.pop_int();
        self.push(Value::Int(int_shifted(name, a, n)));
    }

    /// `ladd`, `lmul` and `land`.
    #[inline]
    pub fn long_arithmetic(&mut self, name: LongArithmetic)
        requires { IsTrue (on_top (is_long_value ∷ is_long_value ∷ []) self.old.items) }
        ensures does { Does (instructions.LongArithmetic name) self.old.items self.new.items }
        ensures limit { self.new.limit ≡ self.old.limit }
    {
        let b = self.pop_long();
        let a = self.pop_long();
        self.push(Value::Long(long_result(name, a, b)));
    }

    /// `ldiv` and `lrem`; with a divisor of 0 a trap, and the operands are as they were.
    #[inline]
    pub fn long_division(&mut self, name: LongDivision) -> Result<(), Trap>
        requires { IsTrue (on_top (is_long_value ∷ is_long_value ∷ []) self.old.items) }
        ensures ok { OnOk result
            (Does (instructions.LongDivision name) self.old.items self.new.items) }
        ensures err { IfErr result (λ trap.
            Traps (instructions.LongDivision name) self.old.items (trap_kind trap)) }
        ensures unchanged { OnErr result (self.new ≡ self.old) }
        ensures limit { self.new.limit ≡ self.old.limit }
    {
        let b = self.pop_long();
        if b == 0 {
            self.push(Value::Long(b));
            return Err(Trap::Divisor);
        }
        let a = self.pop_long();
        self.push(Value::Long(long_quotient(name, a, b)));
        Ok(())
    }

    /// `lshl`, `lshr` and `lushr`, by an int.
    #[inline]
    pub fn long_shift(&mut self, name: LongShift)
        requires { IsTrue (on_top (is_int ∷ is_long_value ∷ []) self.old.items) }
        ensures does { Does (instructions.LongShift name) self.old.items self.new.items }
        ensures limit { self.new.limit ≡ self.old.limit }
    {
        let n = self.pop_int();
        let a = self.pop_long();
        self.push(Value::Long(long_shifted(name, a, n)));
    }

    /// `lcmp`.
    #[inline]
    pub fn long_compare(&mut self)
        requires { IsTrue (on_top (is_long_value ∷ is_long_value ∷ []) self.old.items) }
        ensures does { Does instructions.LongCompare self.old.items self.new.items }
        ensures limit { self.new.limit ≡ self.old.limit }
    {
        let b = self.pop_long();
        let a = self.pop_long();
        self.push(Value::Int(long_order(a, b)));
    }

    /// `i2l` to `i2s`.
    #[inline]
    pub fn convert(&mut self, name: Conversion)
        requires { IsTrue (on_top (converted name ∷ []) self.old.items) }
        ensures does { Does (instructions.Convert name) self.old.items self.new.items }
        ensures limit { self.new.limit ≡ self.old.limit }
    {
        let v = match name {
            Conversion::I2l => Value::Long(long_of(self.pop_int())),
            Conversion::L2i => Value::Int(low_word(self.pop_long())),
            Conversion::I2b => Value::Int(byte_of(self.pop_int())),
            Conversion::I2c => Value::Int(self.pop_int() % 0x1_0000),
            Conversion::I2s => Value::Int(short_of(self.pop_int())),
        };
        self.push(v);
    }
}

#[inline]
fn value_of(constant: Constant) -> Value
    ensures { result ≡ constant_value constant }
{
    match constant {
        Constant::Null => Value::Null,
        Constant::Int(n) => Value::Int(n),
        Constant::Long(n) => Value::Long(n),
        Constant::Text(class, slot) => Value::Text(class, slot),
    }
}
