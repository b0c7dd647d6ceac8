use std::fmt;

/// A jump within 256 megabytes.
#[derive(Clone, Copy, PartialEq, Eq)]
pub enum JumpName {
    J,
    Jal,
}

impl fmt::Display for JumpName {
    ghost use Rattle.std.specs.Prelude.{Some};
    ghost use Rattle.mips_definition.specs.Mnemonics.{jump_text};

    ghost output = { λ name. Some (jump_text name) };

    fn fmt<W: fmt::Write>(&self, f: &mut fmt::Formatter<W>) -> fmt::Result {
        f.write_str(match self {
            JumpName::J => "j",
            JumpName::Jal => "jal",
        })
    }
}
