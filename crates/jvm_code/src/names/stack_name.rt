ghost use Rattle.std.specs.Prelude.{◌≡◌};
ghost use Rattle.class_definition.specs.Opcodes.{stack_name_opcode};

use jvm_definition::StackName;

/// The opcode (JVM Specification, 6.5).
pub fn opcode_of_stack_name(name: StackName) -> u8
    ensures { result ≡ stack_name_opcode name }
{
    match name {
        StackName::Pop => 87,
        StackName::Pop2 => 88,
        StackName::Dup => 89,
        StackName::DupX1 => 90,
        StackName::DupX2 => 91,
        StackName::Dup2 => 92,
        StackName::Swap => 95,
    }
}
