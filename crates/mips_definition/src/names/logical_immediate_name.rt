use std::fmt;

/// Logic with an immediate, which is extended by zeros.
#[derive(Clone, Copy, PartialEq, Eq)]
pub enum LogicalImmediateName {
    Andi,
    Ori,
    Xori,
}

impl fmt::Display for LogicalImmediateName {
    ghost use Rattle.std.specs.Prelude.{Some};
    ghost use Rattle.mips_definition.specs.Mnemonics.{logical_immediate_text};

    ghost output = { λ name. Some (logical_immediate_text name) };

    fn fmt<W: fmt::Write>(&self, f: &mut fmt::Formatter<W>) -> fmt::Result {
        f.write_str(match self {
            LogicalImmediateName::Andi => "andi",
            LogicalImmediateName::Ori => "ori",
            LogicalImmediateName::Xori => "xori",
        })
    }
}
