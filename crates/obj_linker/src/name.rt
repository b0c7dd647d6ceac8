ghost use Rattle.std.specs.Prelude.{◌≡◌, Some, None, if◌then◌else◌};
ghost use Rattle.std.specs.Option.{option_or};

use crate::meaning::Meaning;
use obj_reader::Symbol;

/// What is known of a name for all objects.
#[derive(Clone, Copy)]
pub struct Name {
    /// Its first global definition.
    pub global: Option<Symbol>,
    /// Its first weak definition.
    pub weak: Option<Symbol>,
    /// Whether a global symbol needs it.
    pub is_needed: bool,
}

impl Name {
    ghost use Rattle.std.specs.Prelude.{◌≡◌};
    ghost use Rattle.obj_linker.specs.Known.{name_definition, name_meaning, unknown, with_symbol};

    /// What is known of a name that no symbol has.
    pub fn unknown() -> Name
        ensures { result ≡ unknown }
    {
        Name {
            global: None,
            weak: None,
            is_needed: false,
        }
    }

    /// What is known with one more symbol of the name.
    pub fn with(self, s: &Symbol) -> Name
        ensures { result ≡ with_symbol self s.now }
    {
        Name {
            global: first_of(self.global, s.is_defined() && s.is_global(), s),
            weak: first_of(self.weak, s.is_defined() && s.is_weak(), s),
            is_needed: self.is_needed || !s.is_defined() && s.is_global(),
        }
    }

    /// The definition of the name: the global one, otherwise the first weak one.
    pub fn definition(&self) -> Option<Symbol>
        ensures { result ≡ name_definition self.now }
    {
        match self.global {
            Some(s) => Some(s),
            None => self.weak,
        }
    }

    /// What the name means.
    pub fn meaning(&self) -> Meaning
        ensures { result ≡ name_meaning self.now }
    {
        match self.definition() {
            Some(s) => Meaning::of(&s),
            None if self.is_needed => Meaning::Nothing,
            None => Meaning::Number(0),
        }
    }
}

/// The symbol that is there already, or this one where it is to be.
fn first_of(first: Option<Symbol>, is_next: bool, s: &Symbol) -> Option<Symbol>
    ensures { result ≡ option_or first (if is_next then Some s.now else None) }
{
    match first {
        Some(first) => Some(first),
        None if is_next => Some(*s),
        None => None,
    }
}
