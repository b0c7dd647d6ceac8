use std::fmt;

/// A word that is printed as `0x` and eight upper-case hexadecimal digits.
#[derive(Clone, Copy)]
pub(crate) struct Hexadecimal(pub u32);

impl fmt::Display for Hexadecimal {
    ghost use Rattle.std.specs.Prelude.{Some};
    ghost use Rattle.mips_decode.specs.Text.{hex_text};

    ghost output = { λ word. Some (hex_text word.0) };

    fn fmt<W: fmt::Write>(&self, f: &mut fmt::Formatter<W>) -> fmt::Result {
        let word = self.0;
        write!(f, "0x{word:08X}")
    }
}
