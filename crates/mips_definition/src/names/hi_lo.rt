use std::fmt;

/// One of the two registers that hold a product or a quotient.
#[derive(Clone, Copy, PartialEq, Eq)]
pub enum HiLo {
    Hi,
    Lo,
}

impl fmt::Display for HiLo {
    ghost use Rattle.std.specs.Prelude.{Some};
    ghost use Rattle.mips_definition.specs.Mnemonics.{hi_lo_text};

    ghost output = { λ name. Some (hi_lo_text name) };

    fn fmt<W: fmt::Write>(&self, f: &mut fmt::Formatter<W>) -> fmt::Result {
        f.write_str(match self {
            HiLo::Hi => "hi",
            HiLo::Lo => "lo",
        })
    }
}
