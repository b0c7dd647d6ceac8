use std::fmt;

/// Arithmetic of three registers.
#[derive(Clone, Copy, PartialEq, Eq)]
pub enum ArithmeticName {
    Add,
    Addu,
    Sub,
    Subu,
    And,
    Or,
    Xor,
    Nor,
    Slt,
    Sltu,
}

impl fmt::Display for ArithmeticName {
    ghost use Rattle.std.specs.Prelude.{Some};
    ghost use Rattle.mips_definition.specs.Mnemonics.{arithmetic_text};

    ghost output = { λ name. Some (arithmetic_text name) };

    fn fmt<W: fmt::Write>(&self, f: &mut fmt::Formatter<W>) -> fmt::Result {
        f.write_str(match self {
            ArithmeticName::Add => "add",
            ArithmeticName::Addu => "addu",
            ArithmeticName::Sub => "sub",
            ArithmeticName::Subu => "subu",
            ArithmeticName::And => "and",
            ArithmeticName::Or => "or",
            ArithmeticName::Xor => "xor",
            ArithmeticName::Nor => "nor",
            ArithmeticName::Slt => "slt",
            ArithmeticName::Sltu => "sltu",
        })
    }
}
