use std::fmt;

/// A branch on whether two registers are equal. Beql and Bnel are likely.
#[derive(Clone, Copy, PartialEq, Eq)]
pub enum BranchEqualName {
    Beq,
    Bne,
    Beql,
    Bnel,
}

impl fmt::Display for BranchEqualName {
    ghost use Rattle.std.specs.Prelude.{Some};
    ghost use Rattle.mips_definition.specs.Mnemonics.{branch_equal_text};

    ghost output = { λ name. Some (branch_equal_text name) };

    fn fmt<W: fmt::Write>(&self, f: &mut fmt::Formatter<W>) -> fmt::Result {
        f.write_str(match self {
            BranchEqualName::Beq => "beq",
            BranchEqualName::Bne => "bne",
            BranchEqualName::Beql => "beql",
            BranchEqualName::Bnel => "bnel",
        })
    }
}
