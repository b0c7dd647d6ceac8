use std::fmt;

/// A trap on a comparison of two registers.
#[derive(Clone, Copy, PartialEq, Eq)]
pub enum TrapName {
    Tge,
    Tgeu,
    Tlt,
    Tltu,
    Teq,
    Tne,
}

impl fmt::Display for TrapName {
    ghost use Rattle.std.specs.Prelude.{Some};
    ghost use Rattle.mips_definition.specs.Mnemonics.{trap_text};

    ghost output = { λ name. Some (trap_text name) };

    fn fmt<W: fmt::Write>(&self, f: &mut fmt::Formatter<W>) -> fmt::Result {
        f.write_str(match self {
            TrapName::Tge => "tge",
            TrapName::Tgeu => "tgeu",
            TrapName::Tlt => "tlt",
            TrapName::Tltu => "tltu",
            TrapName::Teq => "teq",
            TrapName::Tne => "tne",
        })
    }
}
