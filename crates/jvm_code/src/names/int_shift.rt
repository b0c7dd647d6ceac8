ghost use Rattle.std.specs.Prelude.{◌≡◌};
ghost use Rattle.class_definition.specs.Opcodes.{int_shift_opcode};

use jvm_definition::IntShift;

/// The opcode (JVM Specification, 6.5).
pub fn opcode_of_int_shift(name: IntShift) -> u8
    ensures { result ≡ int_shift_opcode name }
{
    match name {
        IntShift::Ishl => 120,
        IntShift::Ishr => 122,
        IntShift::Iushr => 124,
    }
}
