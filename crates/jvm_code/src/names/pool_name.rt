ghost use Rattle.std.specs.Prelude.{◌≡◌};
ghost use Rattle.class_definition.specs.Opcodes.{pool_name_opcode};

use class_definition::PoolName;

/// The opcode (JVM Specification, 6.5).
pub fn opcode_of_pool_name(name: PoolName) -> u8
    ensures { result ≡ pool_name_opcode name }
{
    match name {
        PoolName::LdcW => 19,
        PoolName::Ldc2W => 20,
        PoolName::Getstatic => 178,
        PoolName::Putstatic => 179,
        PoolName::Invokevirtual => 182,
        PoolName::Invokestatic => 184,
        PoolName::Anewarray => 189,
    }
}
