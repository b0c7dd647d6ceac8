//! The tests of the likely branches, which they pass where they are taken. Other branches have none.
ghost use Rattle.std.specs.Prelude.{◌≡◌};
ghost use Rattle.mips_definition.specs.Branches as branches;
ghost use Rattle.emit_instructions.specs.Branching as emitted;
ghost use Rattle.meter.specs.Guards.{likely_test};

use jvm_definition::BranchName;
use mips_decode::{BranchEqualName, BranchSignName, BranchZeroName};

/// Of BEQ to BNEL.
pub fn equal_likely(name: BranchEqualName) -> Option<BranchName>
    ensures { result ≡ likely_test (branches.equal_likely name) (emitted.equal_test name) }
{
    match name {
        BranchEqualName::Beq | BranchEqualName::Bne => None,
        BranchEqualName::Beql => Some(BranchName::IfIcmpeq),
        BranchEqualName::Bnel => Some(BranchName::IfIcmpne),
    }
}

/// Of BLEZ to BGTZL.
pub fn zero_likely(name: BranchZeroName) -> Option<BranchName>
    ensures { result ≡ likely_test (branches.zero_likely name) (emitted.zero_test name) }
{
    match name {
        BranchZeroName::Blez | BranchZeroName::Bgtz => None,
        BranchZeroName::Blezl => Some(BranchName::Ifle),
        BranchZeroName::Bgtzl => Some(BranchName::Ifgt),
    }
}

/// Of BLTZ to BGEZALL.
pub fn sign_likely(name: BranchSignName) -> Option<BranchName>
    ensures { result ≡ likely_test (branches.sign_likely name) (emitted.sign_test name) }
{
    match name {
        BranchSignName::Bltz
        | BranchSignName::Bgez
        | BranchSignName::Bltzal
        | BranchSignName::Bgezal => None,
        BranchSignName::Bltzl | BranchSignName::Bltzall => Some(BranchName::Iflt),
        BranchSignName::Bgezl | BranchSignName::Bgezall => Some(BranchName::Ifge),
    }
}
