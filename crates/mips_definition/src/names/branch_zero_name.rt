use std::fmt;

/// A branch that compares a register with zero. Blezl and Bgtzl are likely.
#[derive(Clone, Copy, PartialEq, Eq)]
pub enum BranchZeroName {
    Blez,
    Bgtz,
    Blezl,
    Bgtzl,
}

impl fmt::Display for BranchZeroName {
    ghost use Rattle.std.specs.Prelude.{Some};
    ghost use Rattle.mips_definition.specs.Mnemonics.{branch_zero_text};

    ghost output = { λ name. Some (branch_zero_text name) };

    fn fmt<W: fmt::Write>(&self, f: &mut fmt::Formatter<W>) -> fmt::Result {
        f.write_str(match self {
            BranchZeroName::Blez => "blez",
            BranchZeroName::Bgtz => "bgtz",
            BranchZeroName::Blezl => "blezl",
            BranchZeroName::Bgtzl => "bgtzl",
        })
    }
}
