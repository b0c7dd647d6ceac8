use obj_reader::{SHN_ABS, SHN_UNDEF, Symbol};

/// What a symbol means.
#[derive(Clone, Copy)]
pub enum Meaning {
    /// An offset in a section, which is numbered through.
    InSection(usize, u32),
    /// A number that no place changes.
    Number(u32),
    /// Nothing.
    Nothing,
}

impl Meaning {
    ghost use Rattle.std.specs.Prelude.{◌≡◌};
    ghost use Rattle.obj_linker.specs.Names.{own_meaning};

    /// What a symbol means by itself.
    pub fn of(s: &Symbol) -> Meaning
        ensures { result ≡ own_meaning s.now }
    {
        match s.st_shndx {
            SHN_UNDEF => Meaning::Nothing,
            SHN_ABS => Meaning::Number(s.st_value),
            _ => Meaning::InSection(s.section, s.st_value),
        }
    }
}
