//! Constants, arithmetic, conversions, shuffles and local variables (JVM Specification, 2.11.2 to 2.11.6).
ghost use Rattle.std.specs.Prelude.{◌≡◌, ◌<◌, ◌≤◌, ◌∷◌, [], length, slice_index_or, IsTrue, IsSomeAnd, OnOk, OnErr, IfErr};
ghost use Rattle.jvm_definition.specs.declared.instruction.Instruction.TheVariants as instructions;
ghost use Rattle.jvm_definition.specs.declared.value.Value.TheVariants.{Unset as unset};
ghost use Rattle.jvm_definition.specs.Values.{is_int, is_long_value};
ghost use Rattle.jvm_definition.specs.Shuffles.{forms_of, shuffled};
ghost use Rattle.jvm_definition.specs.Program.{Program};
ghost use Rattle.jvm_definition.specs.Effect.{moves_value};
ghost use Rattle.jvm_activations.specs.Stack.{on_top};
ghost use Rattle.jvm_activations.specs.Forms.{converted};
ghost use Rattle.jvm_activations.specs.Variables.{numbered};
ghost use Rattle.jvm_instructions.specs.Workings.{Keeps};
ghost use Rattle.jvm_instructions.specs.Executes.{Does, Traps};

use crate::working::Working;
use jvm_activations::Trap;
use jvm_definition::{
    Constant, Conversion, IntArithmetic, IntDivision, IntShift, LocalKind, LongArithmetic,
    LongDivision, LongShift, StackName,
};

impl Working {
    /// A constant.
    #[inline(always)]
    pub(crate) fn push_constant(&mut self, constant: Constant)
        requires { length self.old.frames.current.operands.items
            < self.old.frames.current.operands.limit }
        ensures does { (program : Program)
            → Does program (instructions.Push constant) self.old self.new }
        ensures keeps { Keeps self.old self.new }
    {
        self.frames.current.operands.push_constant(constant);
    }

    /// `pop` to `swap`.
    #[inline]
    pub(crate) fn shuffle(&mut self, name: StackName)
        requires { IsSomeAnd (shuffled is_long_value (forms_of name)
            self.old.frames.current.operands.items)
            (λ items. length items ≤ self.old.frames.current.operands.limit) }
        ensures does { (program : Program)
            → Does program (instructions.Stack name) self.old self.new }
        ensures keeps { Keeps self.old self.new }
    {
        self.frames.current.operands.shuffle(name);
    }

    /// `iadd` to `ixor`.
    #[inline(always)]
    pub(crate) fn int_arithmetic(&mut self, name: IntArithmetic)
        requires { IsTrue (on_top (is_int ∷ is_int ∷ []) self.old.frames.current.operands.items) }
        ensures does { (program : Program)
            → Does program (instructions.IntArithmetic name) self.old self.new }
        ensures keeps { Keeps self.old self.new }
    {
        self.frames.current.operands.int_arithmetic(name);
    }

    /// `idiv` and `irem`.
    #[inline]
    pub(crate) fn int_division(&mut self, name: IntDivision) -> Result<(), Trap>
        requires { IsTrue (on_top (is_int ∷ is_int ∷ []) self.old.frames.current.operands.items) }
        ensures ok { OnOk result ((program : Program)
            → Does program (instructions.IntDivision name) self.old self.new) }
        ensures err { IfErr result (λ trap. (program : Program)
            → Traps program (instructions.IntDivision name) self.old trap) }
        ensures unchanged { OnErr result (self.new ≡ self.old) }
        ensures keeps { Keeps self.old self.new }
    {
        self.frames.current.operands.int_division(name)
    }

    /// `ishl`, `ishr` and `iushr`.
    #[inline(always)]
    pub(crate) fn int_shift(&mut self, name: IntShift)
        requires { IsTrue (on_top (is_int ∷ is_int ∷ []) self.old.frames.current.operands.items) }
        ensures does { (program : Program)
            → Does program (instructions.IntShift name) self.old self.new }
        ensures keeps { Keeps self.old self.new }
    {
        self.frames.current.operands.int_shift(name);
    }

    /// `ladd`, `lmul` and `land`.
    #[inline]
    pub(crate) fn long_arithmetic(&mut self, name: LongArithmetic)
        requires { IsTrue (on_top (is_long_value ∷ is_long_value ∷ []) self.old.frames.current.operands.items) }
        ensures does { (program : Program)
            → Does program (instructions.LongArithmetic name) self.old self.new }
        ensures keeps { Keeps self.old self.new }
    {
        self.frames.current.operands.long_arithmetic(name);
    }

    /// `ldiv` and `lrem`.
    #[inline]
    pub(crate) fn long_division(&mut self, name: LongDivision) -> Result<(), Trap>
        requires { IsTrue (on_top (is_long_value ∷ is_long_value ∷ []) self.old.frames.current.operands.items) }
        ensures ok { OnOk result ((program : Program)
            → Does program (instructions.LongDivision name) self.old self.new) }
        ensures err { IfErr result (λ trap. (program : Program)
            → Traps program (instructions.LongDivision name) self.old trap) }
        ensures unchanged { OnErr result (self.new ≡ self.old) }
        ensures keeps { Keeps self.old self.new }
    {
        self.frames.current.operands.long_division(name)
    }

    /// `lshl`, `lshr` and `lushr`.
    #[inline]
    pub(crate) fn long_shift(&mut self, name: LongShift)
        requires { IsTrue (on_top (is_int ∷ is_long_value ∷ []) self.old.frames.current.operands.items) }
        ensures does { (program : Program)
            → Does program (instructions.LongShift name) self.old self.new }
        ensures keeps { Keeps self.old self.new }
    {
        self.frames.current.operands.long_shift(name);
    }

    /// `lcmp`.
    #[inline]
    pub(crate) fn long_compare(&mut self)
        requires { IsTrue (on_top (is_long_value ∷ is_long_value ∷ []) self.old.frames.current.operands.items) }
        ensures does { (program : Program)
            → Does program instructions.LongCompare self.old self.new }
        ensures keeps { Keeps self.old self.new }
    {
        self.frames.current.operands.long_compare();
    }

    /// `i2l` to `i2s`.
    #[inline(always)]
    pub(crate) fn convert(&mut self, name: Conversion)
        requires { IsTrue (on_top (converted name ∷ []) self.old.frames.current.operands.items) }
        ensures does { (program : Program)
            → Does program (instructions.Convert name) self.old self.new }
        ensures keeps { Keeps self.old self.new }
    {
        self.frames.current.operands.convert(name);
    }

    /// `iload` and `aload`.
    #[inline]
    pub(crate) fn load(&mut self, kind: LocalKind, i: u8)
        requires local { i < length self.old.frames.current.locals.items }
        requires kind { IsTrue (moves_value kind (numbered self.old.frames.current.locals.items i)) }
        requires room { length self.old.frames.current.operands.items
            < self.old.frames.current.operands.limit }
        ensures does { (program : Program)
            → Does program (instructions.Load kind i) self.old self.new }
        ensures keeps { Keeps self.old self.new }
    {
        self.frames.current.load(i);
    }

    /// `istore` and `astore`.
    #[inline]
    pub(crate) fn store(&mut self, kind: LocalKind, i: u8)
        requires local { i < length self.old.frames.current.locals.items }
        requires operand { IsTrue
            (on_top (moves_value kind ∷ []) self.old.frames.current.operands.items) }
        ensures does { (program : Program)
            → Does program (instructions.Store kind i) self.old self.new }
        ensures keeps { Keeps self.old self.new }
    {
        self.frames.current.store(i);
    }

    /// `iinc`.
    #[inline]
    pub(crate) fn increment(&mut self, i: u8, by: u32)
        requires local { i < length self.old.frames.current.locals.items }
        requires int { IsTrue (is_int (numbered self.old.frames.current.locals.items i)) }
        ensures does { (program : Program)
            → Does program (instructions.Increment i by) self.old self.new }
        ensures keeps { Keeps self.old self.new }
    {
        self.frames.current.increment(i, by);
    }
}
