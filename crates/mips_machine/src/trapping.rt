//! Traps: they fault where a comparison holds.
ghost use Rattle.std.specs.Prelude.{◌≡◌, ◌<◌};
ghost use Rattle.mips_definition.specs.Traps as manual;
ghost use Rattle.mips_machine.specs.Processor.{processor_state, effect_of, Stays};

use crate::executed::Executed;
use crate::processor::Processor;
use mips_arithmetic::extended;
use mips_decode::fault_kinds::TRAP;
use mips_decode::{TrapImmediateName, TrapName};
use nv_words::signed;

impl Processor {
    /// TGE to TNE.
    #[inline]
    pub(crate) fn trap(&self, name: TrapName, rs: u8, rt: u8, word: u32) -> Executed
        requires rs { rs < 32 }
        requires rt { rt < 32 }
        ensures effect { effect_of result (processor_state self.now)
            ≡ manual.trap_effect name word (processor_state self.now) rs rt }
        ensures stays { Stays result (processor_state self.now) (processor_state self.now) }
    {
        if holds(name, self.register(rs), self.register(rt)) {
            Executed::Fault {
                kind: TRAP,
                value: word,
            }
        } else {
            Executed::On
        }
    }

    /// TGEI to TNEI.
    #[inline]
    pub(crate) fn trap_immediate(
        &self,
        name: TrapImmediateName,
        rs: u8,
        imm: u16,
        word: u32,
    ) -> Executed
        requires { rs < 32 }
        ensures effect { effect_of result (processor_state self.now)
            ≡ manual.trap_immediate_effect name word (processor_state self.now) rs imm }
        ensures stays { Stays result (processor_state self.now) (processor_state self.now) }
    {
        if immediate_holds(name, self.register(rs), imm) {
            Executed::Fault {
                kind: TRAP,
                value: word,
            }
        } else {
            Executed::On
        }
    }
}

/// Whether two words compare so.
#[inline]
fn holds(name: TrapName, a: u32, b: u32) -> bool
    ensures { result ≡ manual.trap_holds name a b }
{
    match name {
        TrapName::Tge => signed(b) <= signed(a),
        TrapName::Tgeu => b <= a,
        TrapName::Tlt => signed(a) < signed(b),
        TrapName::Tltu => a < b,
        TrapName::Teq => a == b,
        TrapName::Tne => a != b,
    }
}

/// Whether a word and the signed immediate compare so.
#[inline]
fn immediate_holds(name: TrapImmediateName, a: u32, imm: u16) -> bool
    ensures { result ≡ manual.trap_immediate_holds name a imm }
{
    let b = extended(imm);
    match name {
        TrapImmediateName::Tgei => holds(TrapName::Tge, a, b),
        TrapImmediateName::Tgeiu => holds(TrapName::Tgeu, a, b),
        TrapImmediateName::Tlti => holds(TrapName::Tlt, a, b),
        TrapImmediateName::Tltiu => holds(TrapName::Tltu, a, b),
        TrapImmediateName::Teqi => holds(TrapName::Teq, a, b),
        TrapImmediateName::Tnei => holds(TrapName::Tne, a, b),
    }
}
