//! The conditions and links of branches and jumps.
ghost use Rattle.std.specs.Prelude.{◌≡◌, None};
ghost use Rattle.mips_definition.specs.Branches as branches;
ghost use Rattle.mips_definition.specs.Targets as targets;
ghost use Rattle.emit_instructions.specs.Branching as emitted;

use crate::transfer::Transfer;
use jvm_definition::BranchName;
use mips_decode::{BranchEqualName, BranchSignName, BranchZeroName, JumpName, branch_target};

/// BEQ to BNEL at an address.
pub fn equal_branch(name: BranchEqualName, at: u32, imm: u16) -> Transfer
    ensures likely { result.likely ≡ branches.equal_likely name }
    ensures test { result.test ≡ emitted.equal_test name }
    ensures target { result.target ≡ targets.branch_target at imm }
    ensures link { result.link ≡ None }
{
    let (likely, test) = match name {
        BranchEqualName::Beq => (false, BranchName::IfIcmpeq),
        BranchEqualName::Bne => (false, BranchName::IfIcmpne),
        BranchEqualName::Beql => (true, BranchName::IfIcmpeq),
        BranchEqualName::Bnel => (true, BranchName::IfIcmpne),
    };
    Transfer {
        likely,
        test,
        target: branch_target(at, imm),
        link: None,
    }
}

/// BLEZ to BGTZL at an address.
pub fn zero_branch(name: BranchZeroName, at: u32, imm: u16) -> Transfer
    ensures likely { result.likely ≡ branches.zero_likely name }
    ensures test { result.test ≡ emitted.zero_test name }
    ensures target { result.target ≡ targets.branch_target at imm }
    ensures link { result.link ≡ None }
{
    let (likely, test) = match name {
        BranchZeroName::Blez => (false, BranchName::Ifle),
        BranchZeroName::Bgtz => (false, BranchName::Ifgt),
        BranchZeroName::Blezl => (true, BranchName::Ifle),
        BranchZeroName::Bgtzl => (true, BranchName::Ifgt),
    };
    Transfer {
        likely,
        test,
        target: branch_target(at, imm),
        link: None,
    }
}

/// BLTZ to BGEZALL at an address.
pub fn sign_branch(name: BranchSignName, at: u32, imm: u16) -> Transfer
    ensures likely { result.likely ≡ branches.sign_likely name }
    ensures test { result.test ≡ emitted.sign_test name }
    ensures target { result.target ≡ targets.branch_target at imm }
    ensures link { result.link ≡ emitted.sign_link name }
{
    let (likely, test, link) = match name {
        BranchSignName::Bltz => (false, BranchName::Iflt, None),
        BranchSignName::Bgez => (false, BranchName::Ifge, None),
        BranchSignName::Bltzal => (false, BranchName::Iflt, Some(31)),
        BranchSignName::Bgezal => (false, BranchName::Ifge, Some(31)),
        BranchSignName::Bltzl => (true, BranchName::Iflt, None),
        BranchSignName::Bgezl => (true, BranchName::Ifge, None),
        BranchSignName::Bltzall => (true, BranchName::Iflt, Some(31)),
        BranchSignName::Bgezall => (true, BranchName::Ifge, Some(31)),
    };
    Transfer {
        likely,
        test,
        target: branch_target(at, imm),
        link,
    }
}

/// The register of the link of J or JAL.
pub fn jump_link(name: JumpName) -> Option<u8>
    ensures { result ≡ emitted.jump_link name }
{
    match name {
        JumpName::J => None,
        JumpName::Jal => Some(31),
    }
}
