//! Branches and jumps, each at an address, which need not be where the processor is. Each reads its condition and its target before the
//! link is written.
ghost use Rattle.std.specs.Prelude.{◌≡◌, ℕ, ◌+◌, ◌%◌, ◌^◌, ◌<◌, Bool, true};
ghost use Rattle.mips_definition.specs.Branches as manual;
ghost use Rattle.mips_definition.specs.Targets.{branch_target};
ghost use Rattle.mips_machine.specs.Moving.{at_word};
ghost use Rattle.mips_machine.specs.Processor.{processor_state, effect_of, with_link, IsRegister, Stays};

use crate::executed::Executed;
use crate::processor::Processor;
use mips_arithmetic::extended;
use mips_decode::{BranchEqualName, BranchSignName, BranchZeroName, JumpName, jump_target};
use nv_words::signed;

impl Processor {
    /// BEQ to BNEL.
    #[inline(always)]
    pub(crate) fn branch_equal(
        &self,
        at: u32,
        name: BranchEqualName,
        rs: u8,
        rt: u8,
        imm: u16,
    ) -> Executed
        requires rs { rs < 32 }
        requires rt { rt < 32 }
        ensures effect { effect_of result (at_word (processor_state self.now) at)
            ≡ manual.branch_equal_effect name (at_word (processor_state self.now) at) rs rt imm }
        ensures stays { Stays result (processor_state self.now) (processor_state self.now) }
    {
        let equal = self.register(rs) == self.register(rt);
        match name {
            BranchEqualName::Beq => self.branch(at, equal, imm, None),
            BranchEqualName::Bne => self.branch(at, !equal, imm, None),
            BranchEqualName::Beql => self.branch_likely(at, equal, imm, None),
            BranchEqualName::Bnel => self.branch_likely(at, !equal, imm, None),
        }
    }

    /// BLEZ to BGTZL.
    #[inline(always)]
    pub(crate) fn branch_zero(&self, at: u32, name: BranchZeroName, rs: u8, imm: u16) -> Executed
        requires { rs < 32 }
        ensures effect { effect_of result (at_word (processor_state self.now) at)
            ≡ manual.branch_zero_effect name (at_word (processor_state self.now) at) rs imm }
        ensures stays { Stays result (processor_state self.now) (processor_state self.now) }
    {
        let w = signed(self.register(rs));
        match name {
            BranchZeroName::Blez => self.branch(at, w <= 0, imm, None),
            BranchZeroName::Bgtz => self.branch(at, 0 < w, imm, None),
            BranchZeroName::Blezl => self.branch_likely(at, w <= 0, imm, None),
            BranchZeroName::Bgtzl => self.branch_likely(at, 0 < w, imm, None),
        }
    }

    /// BLTZ to BGEZALL.
    #[inline(always)]
    pub(crate) fn branch_sign(&self, at: u32, name: BranchSignName, rs: u8, imm: u16) -> Executed
        requires { rs < 32 }
        ensures effect { effect_of result (at_word (processor_state self.now) at)
            ≡ manual.branch_sign_effect name (at_word (processor_state self.now) at) rs imm }
        ensures stays { Stays result (processor_state self.now) (processor_state self.now) }
    {
        let negative = signed(self.register(rs)) < 0;
        match name {
            BranchSignName::Bltz => self.branch(at, negative, imm, None),
            BranchSignName::Bgez => self.branch(at, !negative, imm, None),
            BranchSignName::Bltzal => self.branch(at, negative, imm, Some(31)),
            BranchSignName::Bgezal => self.branch(at, !negative, imm, Some(31)),
            BranchSignName::Bltzl => self.branch_likely(at, negative, imm, None),
            BranchSignName::Bgezl => self.branch_likely(at, !negative, imm, None),
            BranchSignName::Bltzall => self.branch_likely(at, negative, imm, Some(31)),
            BranchSignName::Bgezall => self.branch_likely(at, !negative, imm, Some(31)),
        }
    }

    /// J, JAL.
    #[inline(always)]
    pub(crate) fn jump(&self, at: u32, name: JumpName, index: u32) -> Executed
        requires { index < 2 ^ 26 }
        ensures effect { effect_of result (at_word (processor_state self.now) at)
            ≡ manual.jump_effect name (at_word (processor_state self.now) at) index }
        ensures stays { Stays result (processor_state self.now) (processor_state self.now) }
    {
        let target = jump_target(at, index);
        let link = match name {
            JumpName::J => None,
            JumpName::Jal => Some(31),
        };
        Executed::Branch { target, link }
    }

    /// JR.
    #[inline(always)]
    pub(crate) fn jump_register(&self, at: u32, rs: u8) -> Executed
        requires { rs < 32 }
        ensures effect { effect_of result (at_word (processor_state self.now) at)
            ≡ manual.jump_register_effect (at_word (processor_state self.now) at) rs }
        ensures stays { Stays result (processor_state self.now) (processor_state self.now) }
    {
        let target = self.register(rs);
        Executed::Branch { target, link: None }
    }

    /// JALR.
    #[inline(always)]
    pub(crate) fn jump_and_link_register(&self, at: u32, rs: u8, rd: u8) -> Executed
        requires rs { rs < 32 }
        requires rd { rd < 32 }
        ensures effect { effect_of result (at_word (processor_state self.now) at)
            ≡ manual.jump_and_link_register_effect (at_word (processor_state self.now) at) rs rd }
        ensures stays { Stays result (processor_state self.now) (processor_state self.now) }
    {
        let target = self.register(rs);
        let link = Some(rd);
        Executed::Branch { target, link }
    }

    /// A branch to its target where it is taken, and otherwise past its slot.
    #[inline(always)]
    fn branch(&self, at: u32, taken: bool, imm: u16, link: Option<u8>) -> Executed
        ensures { result
            ≡ Executed.Branch (manual.taken_or_not (at_word (processor_state self.now) at) taken imm) link }
    {
        let target = if taken {
            taken_target(at, imm)
        } else {
            at.wrapping_add(8)
        };
        Executed::Branch { target, link }
    }

    /// A likely branch to its target where it is taken, and otherwise past its slot, which is not done.
    #[inline(always)]
    fn branch_likely(&self, at: u32, taken: bool, imm: u16, link: Option<u8>) -> Executed
        requires { IsRegister link }
        ensures effect { effect_of result (at_word (processor_state self.now) at)
            ≡ manual.branch_effect true taken (at_word (processor_state self.now) at)
            (with_link link (at_word (processor_state self.now) at)) imm }
        ensures stays { Stays result (processor_state self.now) (processor_state self.now) }
    {
        if taken {
            let target = taken_target(at, imm);
            Executed::Branch { target, link }
        } else {
            Executed::Skip { link }
        }
    }

    /// The address of the instruction.
    #[inline(always)]
    #[tactic(auto, unfolding(crate::specs::Processor::processor_state))]
    pub(crate) fn pc(&self) -> u32
        ensures { result ≡ (processor_state self.now).pc }
    {
        self.pc
    }
}

/// Where a branch at an address goes if it is taken.
#[inline(always)]
fn taken_target(at: u32, imm: u16) -> u32
    ensures { result ≡ branch_target at imm }
{
    at.wrapping_add(4)
        .wrapping_add(extended(imm).wrapping_mul(4))
}
