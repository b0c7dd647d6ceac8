use std::fmt;

/// A shift by the low five bits of a register.
#[derive(Clone, Copy, PartialEq, Eq)]
pub enum VariableShiftName {
    Sllv,
    Srlv,
    Srav,
}

impl fmt::Display for VariableShiftName {
    ghost use Rattle.std.specs.Prelude.{Some};
    ghost use Rattle.mips_definition.specs.Mnemonics.{variable_shift_text};

    ghost output = { λ name. Some (variable_shift_text name) };

    fn fmt<W: fmt::Write>(&self, f: &mut fmt::Formatter<W>) -> fmt::Result {
        f.write_str(match self {
            VariableShiftName::Sllv => "sllv",
            VariableShiftName::Srlv => "srlv",
            VariableShiftName::Srav => "srav",
        })
    }
}
