ghost use Rattle.std.specs.Prelude.{◌≡◌};
ghost use Rattle.class_definition.specs.Opcodes.{long_shift_opcode};

use jvm_definition::LongShift;

/// The opcode (JVM Specification, 6.5).
pub fn opcode_of_long_shift(name: LongShift) -> u8
    ensures { result ≡ long_shift_opcode name }
{
    match name {
        LongShift::Lshl => 121,
        LongShift::Lshr => 123,
        LongShift::Lushr => 125,
    }
}
