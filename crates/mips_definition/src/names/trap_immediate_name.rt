use std::fmt;

/// A trap on a comparison of a register with an immediate, which is extended by its sign.
#[derive(Clone, Copy, PartialEq, Eq)]
pub enum TrapImmediateName {
    Tgei,
    Tgeiu,
    Tlti,
    Tltiu,
    Teqi,
    Tnei,
}

impl fmt::Display for TrapImmediateName {
    ghost use Rattle.std.specs.Prelude.{Some};
    ghost use Rattle.mips_definition.specs.Mnemonics.{trap_immediate_text};

    ghost output = { λ name. Some (trap_immediate_text name) };

    fn fmt<W: fmt::Write>(&self, f: &mut fmt::Formatter<W>) -> fmt::Result {
        f.write_str(match self {
            TrapImmediateName::Tgei => "tgei",
            TrapImmediateName::Tgeiu => "tgeiu",
            TrapImmediateName::Tlti => "tlti",
            TrapImmediateName::Tltiu => "tltiu",
            TrapImmediateName::Teqi => "teqi",
            TrapImmediateName::Tnei => "tnei",
        })
    }
}
