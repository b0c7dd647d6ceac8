ghost use Rattle.std.specs.Prelude.{◌≡◌};
ghost use Rattle.class_definition.specs.Opcodes.{local_name_opcode};

use class_definition::LocalName;

/// The opcode (JVM Specification, 6.5).
pub fn opcode_of_local_name(name: LocalName) -> u8
    ensures { result ≡ local_name_opcode name }
{
    match name {
        LocalName::Iload => 21,
        LocalName::Aload => 25,
        LocalName::Istore => 54,
        LocalName::Astore => 58,
    }
}
