ghost use Rattle.std.specs.Prelude.{◌≡◌};
ghost use Rattle.class_definition.specs.Opcodes.{long_division_opcode};

use jvm_definition::LongDivision;

/// The opcode (JVM Specification, 6.5).
pub fn opcode_of_long_division(name: LongDivision) -> u8
    ensures { result ≡ long_division_opcode name }
{
    match name {
        LongDivision::Ldiv => 109,
        LongDivision::Lrem => 113,
    }
}
