ghost use Rattle.std.specs.Prelude.{◌≡◌};
ghost use Rattle.class_definition.specs.Opcodes.{int_division_opcode};

use jvm_definition::IntDivision;

/// The opcode (JVM Specification, 6.5).
pub fn opcode_of_int_division(name: IntDivision) -> u8
    ensures { result ≡ int_division_opcode name }
{
    match name {
        IntDivision::Idiv => 108,
        IntDivision::Irem => 112,
    }
}
