ghost use Rattle.std.specs.Prelude.{◌≡◌};
ghost use Rattle.class_definition.specs.Opcodes.{branch_name_opcode};

use jvm_definition::BranchName;

/// The opcode (JVM Specification, 6.5).
pub fn opcode_of_branch_name(name: BranchName) -> u8
    ensures { result ≡ branch_name_opcode name }
{
    match name {
        BranchName::Ifeq => 153,
        BranchName::Ifne => 154,
        BranchName::Iflt => 155,
        BranchName::Ifge => 156,
        BranchName::Ifgt => 157,
        BranchName::Ifle => 158,
        BranchName::IfIcmpeq => 159,
        BranchName::IfIcmpne => 160,
        BranchName::IfIcmplt => 161,
        BranchName::IfIcmpge => 162,
        BranchName::IfIcmpgt => 163,
        BranchName::IfIcmple => 164,
        BranchName::Goto => 167,
        BranchName::Ifnull => 198,
        BranchName::Ifnonnull => 199,
    }
}
