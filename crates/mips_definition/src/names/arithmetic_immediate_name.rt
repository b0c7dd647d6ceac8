use std::fmt;

/// Arithmetic with an immediate, which is extended by its sign.
#[derive(Clone, Copy, PartialEq, Eq)]
pub enum ArithmeticImmediateName {
    Addi,
    Addiu,
    Slti,
    Sltiu,
}

impl fmt::Display for ArithmeticImmediateName {
    ghost use Rattle.std.specs.Prelude.{Some};
    ghost use Rattle.mips_definition.specs.Mnemonics.{arithmetic_immediate_text};

    ghost output = { λ name. Some (arithmetic_immediate_text name) };

    fn fmt<W: fmt::Write>(&self, f: &mut fmt::Formatter<W>) -> fmt::Result {
        f.write_str(match self {
            ArithmeticImmediateName::Addi => "addi",
            ArithmeticImmediateName::Addiu => "addiu",
            ArithmeticImmediateName::Slti => "slti",
            ArithmeticImmediateName::Sltiu => "sltiu",
        })
    }
}
