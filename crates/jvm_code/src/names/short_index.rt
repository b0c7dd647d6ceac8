ghost use Rattle.std.specs.Prelude.{◌≡◌};
ghost use Rattle.class_definition.specs.Opcodes.{short_opcode, first_opcode};

use class_definition::{LocalName, ShortIndex};

/// The opcode of a load or store that names its local variable by itself.
pub fn opcode_of_short(name: LocalName, index: ShortIndex) -> u8
    ensures { result ≡ short_opcode name index }
{
    let first = first_of(name);
    match index {
        ShortIndex::Zero => first,
        ShortIndex::One => first + 1,
        ShortIndex::Two => first + 2,
        ShortIndex::Three => first + 3,
    }
}

fn first_of(name: LocalName) -> u8
    ensures { result ≡ first_opcode name }
{
    match name {
        LocalName::Iload => 26,
        LocalName::Aload => 42,
        LocalName::Istore => 59,
        LocalName::Astore => 75,
    }
}
