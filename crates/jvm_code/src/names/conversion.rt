ghost use Rattle.std.specs.Prelude.{◌≡◌};
ghost use Rattle.class_definition.specs.Opcodes.{conversion_opcode};

use jvm_definition::Conversion;

/// The opcode (JVM Specification, 6.5).
pub fn opcode_of_conversion(name: Conversion) -> u8
    ensures { result ≡ conversion_opcode name }
{
    match name {
        Conversion::I2l => 133,
        Conversion::L2i => 136,
        Conversion::I2b => 145,
        Conversion::I2c => 146,
        Conversion::I2s => 147,
    }
}
