ghost use Rattle.std.specs.Prelude.{◌≡◌};
ghost use Rattle.class_definition.specs.Opcodes.{long_arithmetic_opcode};

use jvm_definition::LongArithmetic;

/// The opcode (JVM Specification, 6.5).
pub fn opcode_of_long_arithmetic(name: LongArithmetic) -> u8
    ensures { result ≡ long_arithmetic_opcode name }
{
    match name {
        LongArithmetic::Ladd => 97,
        LongArithmetic::Lmul => 105,
        LongArithmetic::Land => 127,
    }
}
