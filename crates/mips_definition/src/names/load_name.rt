use std::fmt;

/// A load from memory.
#[derive(Clone, Copy, PartialEq, Eq)]
pub enum LoadName {
    Lb,
    Lh,
    Lwl,
    Lw,
    Lbu,
    Lhu,
    Lwr,
}

impl fmt::Display for LoadName {
    ghost use Rattle.std.specs.Prelude.{Some};
    ghost use Rattle.mips_definition.specs.Mnemonics.{load_text};

    ghost output = { λ name. Some (load_text name) };

    fn fmt<W: fmt::Write>(&self, f: &mut fmt::Formatter<W>) -> fmt::Result {
        f.write_str(match self {
            LoadName::Lb => "lb",
            LoadName::Lh => "lh",
            LoadName::Lwl => "lwl",
            LoadName::Lw => "lw",
            LoadName::Lbu => "lbu",
            LoadName::Lhu => "lhu",
            LoadName::Lwr => "lwr",
        })
    }
}
