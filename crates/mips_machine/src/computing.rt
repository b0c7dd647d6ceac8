//! The instructions that compute. Of the register that the result goes to it may be known that it is another than register 0.
ghost use Rattle.std.specs.Prelude.{◌≡◌, ℕ, ◌<◌, ◌*◌, ◌^◌, true};
ghost use Rattle.mips_definition.specs.State.{register, with_register};
ghost use Rattle.mips_definition.specs.Effect.{goes_on};
ghost use Rattle.mips_definition.specs.Arithmetic as manual;
ghost use Rattle.mips_definition.specs.Step.{result_effect, move_from_effect, move_to_effect};
ghost use Rattle.mips_machine.specs.Moving.{Steady};
ghost use Rattle.mips_machine.specs.Processor.{processor_state, effect_of, Stays};

use crate::executed::Executed;
use crate::processor::Processor;
use mips_decode::fault_kinds::OVERFLOW;
use mips_decode::{
    ArithmeticImmediateName, ArithmeticName, HiLo, LogicalImmediateName, ProductName, ShiftName,
    VariableShiftName,
};

impl Processor {
    /// ADD to SLTU.
    #[inline(always)]
    pub(crate) fn arithmetic<const OTHER: bool>(
        &mut self,
        name: ArithmeticName,
        rs: u8,
        rt: u8,
        rd: u8,
        word: u32,
    ) -> Executed
        requires rs { rs < 32 }
        requires rt { rt < 32 }
        requires rd { rd < 32 }
        requires other { OTHER ≡ true → 0 < rd }
        ensures effect { effect_of result (processor_state self.new)
            ≡ result_effect (processor_state self.old) word rd
            (manual.arithmetic_result name (register (processor_state self.old) rs)
            (register (processor_state self.old) rt)) }
        ensures stays { Stays result (processor_state self.old) (processor_state self.new) }
        ensures steady { Steady self.old self.new }
    {
        let computed = mips_arithmetic::arithmetic(name, self.register(rs), self.register(rt));
        self.take::<OTHER>(rd, computed, word)
    }

    /// ADDI to SLTIU.
    #[inline(always)]
    pub(crate) fn arithmetic_immediate<const OTHER: bool>(
        &mut self,
        name: ArithmeticImmediateName,
        rs: u8,
        rt: u8,
        imm: u16,
        word: u32,
    ) -> Executed
        requires rs { rs < 32 }
        requires rt { rt < 32 }
        requires other { OTHER ≡ true → 0 < rt }
        ensures effect { effect_of result (processor_state self.new)
            ≡ result_effect (processor_state self.old) word rt
            (manual.arithmetic_immediate_result name (register (processor_state self.old) rs)
            imm) }
        ensures stays { Stays result (processor_state self.old) (processor_state self.new) }
        ensures steady { Steady self.old self.new }
    {
        let computed = mips_arithmetic::arithmetic_immediate(name, self.register(rs), imm);
        self.take::<OTHER>(rt, computed, word)
    }

    /// ANDI, ORI, XORI.
    #[inline(always)]
    pub(crate) fn logical_immediate<const OTHER: bool>(
        &mut self,
        name: LogicalImmediateName,
        rs: u8,
        rt: u8,
        imm: u16,
    ) -> Executed
        requires rs { rs < 32 }
        requires rt { rt < 32 }
        requires other { OTHER ≡ true → 0 < rt }
        ensures effect { effect_of result (processor_state self.new)
            ≡ goes_on (with_register (processor_state self.old) rt
            (manual.logical_immediate_result name (register (processor_state self.old) rs) imm)) }
        ensures stays { Stays result (processor_state self.old) (processor_state self.new) }
        ensures steady { Steady self.old self.new }
    {
        let computed = mips_arithmetic::logical_immediate(name, self.register(rs), imm);
        self.set_register::<OTHER>(rt, computed);
        Executed::On
    }

    /// LUI.
    #[inline(always)]
    pub(crate) fn load_upper<const OTHER: bool>(&mut self, rt: u8, imm: u16) -> Executed
        requires rt { rt < 32 }
        requires other { OTHER ≡ true → 0 < rt }
        ensures effect { effect_of result (processor_state self.new)
            ≡ goes_on (with_register (processor_state self.old) rt (imm * 2 ^ 16)) }
        ensures stays { Stays result (processor_state self.old) (processor_state self.new) }
        ensures steady { Steady self.old self.new }
    {
        self.set_register::<OTHER>(rt, u32::from(imm) << 16);
        Executed::On
    }

    /// SLL, SRL, SRA.
    #[inline(always)]
    pub(crate) fn shift<const OTHER: bool>(
        &mut self,
        name: ShiftName,
        rt: u8,
        rd: u8,
        sa: u8,
    ) -> Executed
        requires rt { rt < 32 }
        requires rd { rd < 32 }
        requires sa { sa < 32 }
        requires other { OTHER ≡ true → 0 < rd }
        ensures effect { effect_of result (processor_state self.new)
            ≡ goes_on (with_register (processor_state self.old) rd
            (manual.shifted name (register (processor_state self.old) rt) sa)) }
        ensures stays { Stays result (processor_state self.old) (processor_state self.new) }
        ensures steady { Steady self.old self.new }
    {
        let computed = mips_arithmetic::shift(name, self.register(rt), u32::from(sa));
        self.set_register::<OTHER>(rd, computed);
        Executed::On
    }

    /// SLLV, SRLV, SRAV.
    #[inline(always)]
    pub(crate) fn variable_shift<const OTHER: bool>(
        &mut self,
        name: VariableShiftName,
        rs: u8,
        rt: u8,
        rd: u8,
    ) -> Executed
        requires rs { rs < 32 }
        requires rt { rt < 32 }
        requires rd { rd < 32 }
        requires other { OTHER ≡ true → 0 < rd }
        ensures effect { effect_of result (processor_state self.new)
            ≡ goes_on (with_register (processor_state self.old) rd
            (manual.variable_shifted name (register (processor_state self.old) rt)
            (register (processor_state self.old) rs))) }
        ensures stays { Stays result (processor_state self.old) (processor_state self.new) }
        ensures steady { Steady self.old self.new }
    {
        let computed = mips_arithmetic::variable_shift(name, self.register(rt), self.register(rs));
        self.set_register::<OTHER>(rd, computed);
        Executed::On
    }

    /// MULT to DIVU.
    #[inline(always)]
    #[tactic(auto, unfolding(crate::specs::Processor::processor_state))]
    pub(crate) fn product(&mut self, name: ProductName, rs: u8, rt: u8) -> Executed
        requires rs { rs < 32 }
        requires rt { rt < 32 }
        ensures effect { effect_of result (processor_state self.new)
            ≡ goes_on (record (processor_state self.old) {
              hi = manual.product_hi name (register (processor_state self.old) rs)
                  (register (processor_state self.old) rt);
              lo =
                  manual.product_lo name (register (processor_state self.old) rs)
                  (register (processor_state self.old) rt);
            }) }
        ensures stays { Stays result (processor_state self.old) (processor_state self.new) }
        ensures steady { Steady self.old self.new }
    {
        let (hi, lo) = mips_arithmetic::product(name, self.register(rs), self.register(rt));
        self.hi = hi;
        self.lo = lo;
        Executed::On
    }

    /// MFHI, MFLO.
    #[inline(always)]
    #[tactic(auto, unfolding(crate::specs::Processor::processor_state))]
    pub(crate) fn move_from<const OTHER: bool>(&mut self, name: HiLo, rd: u8) -> Executed
        requires rd { rd < 32 }
        requires other { OTHER ≡ true → 0 < rd }
        ensures effect { effect_of result (processor_state self.new)
            ≡ move_from_effect name (processor_state self.old) rd }
        ensures stays { Stays result (processor_state self.old) (processor_state self.new) }
        ensures steady { Steady self.old self.new }
    {
        match name {
            HiLo::Hi => self.set_register::<OTHER>(rd, self.hi),
            HiLo::Lo => self.set_register::<OTHER>(rd, self.lo),
        }
        Executed::On
    }

    /// MTHI, MTLO.
    #[inline(always)]
    #[tactic(auto, unfolding(crate::specs::Processor::processor_state))]
    pub(crate) fn move_to(&mut self, name: HiLo, rs: u8) -> Executed
        requires { rs < 32 }
        ensures effect { effect_of result (processor_state self.new)
            ≡ move_to_effect name (processor_state self.old) rs }
        ensures stays { Stays result (processor_state self.old) (processor_state self.new) }
    {
        let w = self.register(rs);
        match name {
            HiLo::Hi => self.hi = w,
            HiLo::Lo => self.lo = w,
        }
        Executed::On
    }

    /// A result goes to a register, and want of one is an overflow.
    #[inline(always)]
    fn take<const OTHER: bool>(&mut self, r: u8, computed: Option<u32>, word: u32) -> Executed
        requires r { r < 32 }
        requires other { OTHER ≡ true → 0 < r }
        ensures effect { effect_of result (processor_state self.new)
            ≡ result_effect (processor_state self.old) word r computed }
        ensures stays { Stays result (processor_state self.old) (processor_state self.new) }
        ensures steady { Steady self.old self.new }
    {
        match computed {
            Some(w) => {
                self.set_register::<OTHER>(r, w);
                Executed::On
            }
            None => Executed::Fault {
                kind: OVERFLOW,
                value: word,
            },
        }
    }
}
