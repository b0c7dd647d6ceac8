ghost use Rattle.std.specs.Prelude.{◌≡◌};
ghost use Rattle.class_definition.specs.Opcodes.{iconst_opcode};

use class_definition::Iconst;

/// The opcode (JVM Specification, 6.5).
pub fn opcode_of_iconst(name: Iconst) -> u8
    ensures { result ≡ iconst_opcode name }
{
    match name {
        Iconst::M1 => 2,
        Iconst::Zero => 3,
        Iconst::One => 4,
        Iconst::Two => 5,
        Iconst::Three => 6,
        Iconst::Four => 7,
        Iconst::Five => 8,
    }
}
