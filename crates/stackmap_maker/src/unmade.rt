use std::alloc::AllocError;

/// Why linked classes have no tables.
#[derive(Debug, PartialEq, Eq, Drop)]
pub enum Unmade {
    /// A method is not typed.
    Untyped,
    /// The pool of a class, numbered from 0, has too few slots: of the first one.
    Full(u32),
    NoMemory,
}

impl From<AllocError> for Unmade {
    ghost use Rattle.std.specs.Prelude.{◌≡◌};
    ghost use Rattle.stackmap_maker.specs.declared.unmade.Unmade.TheVariants.{NoMemory};

    ghost from_gives = { λ _ e. e ≡ NoMemory };

    fn from(_error: AllocError) -> Unmade {
        Unmade::NoMemory
    }
}
