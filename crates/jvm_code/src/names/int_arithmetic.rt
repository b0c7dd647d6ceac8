ghost use Rattle.std.specs.Prelude.{◌≡◌};
ghost use Rattle.class_definition.specs.Opcodes.{int_arithmetic_opcode};

use jvm_definition::IntArithmetic;

/// The opcode (JVM Specification, 6.5).
pub fn opcode_of_int_arithmetic(name: IntArithmetic) -> u8
    ensures { result ≡ int_arithmetic_opcode name }
{
    match name {
        IntArithmetic::Iadd => 96,
        IntArithmetic::Isub => 100,
        IntArithmetic::Imul => 104,
        IntArithmetic::Iand => 126,
        IntArithmetic::Ior => 128,
        IntArithmetic::Ixor => 130,
    }
}
