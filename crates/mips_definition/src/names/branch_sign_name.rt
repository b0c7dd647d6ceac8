use std::fmt;

/// A branch on the sign of a register, which may link. Bltzl, Bgezl, Bltzall and Bgezall are likely.
#[derive(Clone, Copy, PartialEq, Eq)]
pub enum BranchSignName {
    Bltz,
    Bgez,
    Bltzal,
    Bgezal,
    Bltzl,
    Bgezl,
    Bltzall,
    Bgezall,
}

impl fmt::Display for BranchSignName {
    ghost use Rattle.std.specs.Prelude.{Some};
    ghost use Rattle.mips_definition.specs.Mnemonics.{branch_sign_text};

    ghost output = { λ name. Some (branch_sign_text name) };

    fn fmt<W: fmt::Write>(&self, f: &mut fmt::Formatter<W>) -> fmt::Result {
        f.write_str(match self {
            BranchSignName::Bltz => "bltz",
            BranchSignName::Bgez => "bgez",
            BranchSignName::Bltzal => "bltzal",
            BranchSignName::Bgezal => "bgezal",
            BranchSignName::Bltzl => "bltzl",
            BranchSignName::Bgezl => "bgezl",
            BranchSignName::Bltzall => "bltzall",
            BranchSignName::Bgezall => "bgezall",
        })
    }
}
