use std::fmt;

/// A multiplication or a division, whose results go to HI and LO.
#[derive(Clone, Copy, PartialEq, Eq)]
pub enum ProductName {
    Mult,
    Multu,
    Div,
    Divu,
}

impl fmt::Display for ProductName {
    ghost use Rattle.std.specs.Prelude.{Some};
    ghost use Rattle.mips_definition.specs.Mnemonics.{product_text};

    ghost output = { λ name. Some (product_text name) };

    fn fmt<W: fmt::Write>(&self, f: &mut fmt::Formatter<W>) -> fmt::Result {
        f.write_str(match self {
            ProductName::Mult => "mult",
            ProductName::Multu => "multu",
            ProductName::Div => "div",
            ProductName::Divu => "divu",
        })
    }
}
