use std::fmt;

/// A store to memory.
#[derive(Clone, Copy, PartialEq, Eq)]
pub enum StoreName {
    Sb,
    Sh,
    Swl,
    Sw,
    Swr,
}

impl fmt::Display for StoreName {
    ghost use Rattle.std.specs.Prelude.{Some};
    ghost use Rattle.mips_definition.specs.Mnemonics.{store_text};

    ghost output = { λ name. Some (store_text name) };

    fn fmt<W: fmt::Write>(&self, f: &mut fmt::Formatter<W>) -> fmt::Result {
        f.write_str(match self {
            StoreName::Sb => "sb",
            StoreName::Sh => "sh",
            StoreName::Swl => "swl",
            StoreName::Sw => "sw",
            StoreName::Swr => "swr",
        })
    }
}
