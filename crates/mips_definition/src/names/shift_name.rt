use std::fmt;

/// A shift by a constant amount.
#[derive(Clone, Copy, PartialEq, Eq)]
pub enum ShiftName {
    Sll,
    Srl,
    Sra,
}

impl fmt::Display for ShiftName {
    ghost use Rattle.std.specs.Prelude.{Some};
    ghost use Rattle.mips_definition.specs.Mnemonics.{shift_text};

    ghost output = { λ name. Some (shift_text name) };

    fn fmt<W: fmt::Write>(&self, f: &mut fmt::Formatter<W>) -> fmt::Result {
        f.write_str(match self {
            ShiftName::Sll => "sll",
            ShiftName::Srl => "srl",
            ShiftName::Sra => "sra",
        })
    }
}
