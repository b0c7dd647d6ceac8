use obj_reader::Section;

/// The sections that are placed one after the other.
#[derive(Clone, Copy)]
pub enum Group {
    /// Those that are code.
    Code,
    /// Others that are only read.
    Constants,
    /// Those that can be written and have bytes.
    Data,
    /// Those that can be written and begin as zeros.
    Zeros,
}

impl Group {
    ghost use Rattle.std.specs.Prelude.{◌≡◌};
    ghost use Rattle.obj_linker.specs.Layout.{is_in};

    /// Whether a section is one of these.
    pub fn has(self, s: &Section) -> bool
        ensures { result ≡ is_in self s.now }
    {
        match self {
            Group::Code => s.is_code(),
            Group::Constants => s.is_placed() && !s.is_code() && !s.is_variable(),
            Group::Data => s.is_placed() && !s.is_code() && s.is_variable() && s.has_bytes(),
            Group::Zeros => s.is_placed() && !s.is_code() && s.is_variable() && s.has_zeros(),
        }
    }
}
