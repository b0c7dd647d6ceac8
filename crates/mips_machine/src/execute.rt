//! One instruction, apart from where the program goes next.
ghost use Rattle.std.specs.Prelude.{◌≡◌};
ghost use Rattle.mips_definition.specs.Step.{effect};
ghost use Rattle.mips_machine.specs.Fields.{HasFields};
ghost use Rattle.mips_machine.specs.Processor.{processor_state, effect_of, Stays};

use crate::executed::Executed;
use crate::processor::Processor;
use mips_decode::Inst;
use mips_decode::fault_kinds::{BREAK, RESERVED};

impl Processor {
    /// Executes an instruction, which is in the given word.
    pub(crate) fn execute(&mut self, inst: Inst, word: u32) -> Executed
        requires { HasFields inst }
        ensures effect { effect_of result (processor_state self.new)
            ≡ effect inst word (processor_state self.old) }
        ensures stays { Stays result (processor_state self.old) (processor_state self.new) }
    {
        match inst {
            Inst::Arithmetic { name, rs, rt, rd } => {
                self.arithmetic::<false>(name, rs, rt, rd, word)
            }
            Inst::VariableShift { name, rs, rt, rd } => {
                self.variable_shift::<false>(name, rs, rt, rd)
            }
            Inst::Shift { name, rt, rd, sa } => self.shift::<false>(name, rt, rd, sa),
            Inst::JumpRegister { rs } => self.jump_register(self.pc(), rs),
            Inst::JumpAndLinkRegister { rs, rd } => self.jump_and_link_register(self.pc(), rs, rd),
            Inst::Syscall { .. } => Executed::Call,
            Inst::Break { code } => Executed::Fault {
                kind: BREAK,
                value: code,
            },
            Inst::MoveFrom { name, rd } => self.move_from::<false>(name, rd),
            Inst::MoveTo { name, rs } => self.move_to(name, rs),
            Inst::Product { name, rs, rt } => self.product(name, rs, rt),
            Inst::BranchSign { name, rs, imm } => self.branch_sign(self.pc(), name, rs, imm),
            Inst::Jump { name, index } => self.jump(self.pc(), name, index),
            Inst::BranchEqual { name, rs, rt, imm } => self.branch_equal(
                self.pc(),
                name,
                rs,
                rt,
                imm,
            ),
            Inst::BranchZero { name, rs, imm } => self.branch_zero(self.pc(), name, rs, imm),
            Inst::ArithmeticImmediate { name, rs, rt, imm } => {
                self.arithmetic_immediate::<false>(name, rs, rt, imm, word)
            }
            Inst::LogicalImmediate { name, rs, rt, imm } => {
                self.logical_immediate::<false>(name, rs, rt, imm)
            }
            Inst::LoadUpper { rt, imm } => self.load_upper::<false>(rt, imm),
            Inst::Load { name, rs, rt, imm } => self.load::<false>(name, self.order, rs, rt, imm),
            Inst::Store { name, rs, rt, imm } => self.store(name, self.order, rs, rt, imm),
            Inst::Trap { name, rs, rt, .. } => self.trap(name, rs, rt, word),
            Inst::TrapImmediate { name, rs, imm } => self.trap_immediate(name, rs, imm, word),
            Inst::Sync { .. } => Executed::On,
            Inst::LoadLinked { rs, rt, imm } => self.load_linked(rs, rt, imm),
            Inst::StoreConditional { rs, rt, imm } => self.store_conditional(rs, rt, imm),
            Inst::Reserved(_) | Inst::Float(_) => Executed::Fault {
                kind: RESERVED,
                value: word,
            },
        }
    }
}
