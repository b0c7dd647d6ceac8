ghost use Rattle.std.specs.Prelude.{◌≡◌};
ghost use Rattle.class_definition.specs.Opcodes.{return_name_opcode};

use jvm_definition::ReturnName;

/// The opcode (JVM Specification, 6.5).
pub fn opcode_of_return_name(name: ReturnName) -> u8
    ensures { result ≡ return_name_opcode name }
{
    match name {
        ReturnName::Ireturn => 172,
        ReturnName::Return => 177,
    }
}
