ghost use Rattle.std.specs.Prelude.{◌≡◌};
ghost use Rattle.class_definition.specs.Opcodes.{array_name_opcode};

use jvm_definition::ArrayName;

/// The opcode (JVM Specification, 6.5).
pub fn opcode_of_array_name(name: ArrayName) -> u8
    ensures { result ≡ array_name_opcode name }
{
    match name {
        ArrayName::Iaload => 46,
        ArrayName::Aaload => 50,
        ArrayName::Iastore => 79,
        ArrayName::Aastore => 83,
    }
}
