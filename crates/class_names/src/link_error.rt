use class_definition::LinkFault;
use std::alloc::AllocError;

/// Out of memory.
pub type NoMemory = AllocError;

/// Why classes were not linked.
#[derive(Drop)]
pub enum LinkError {
    Refused(LinkFault),
    NoMemory,
}

impl From<AllocError> for LinkError {
    ghost use Rattle.std.specs.Prelude.{◌≡◌};
    ghost use Rattle.class_names.specs.declared.link_error.LinkError.TheVariants.{NoMemory};

    ghost from_gives = { λ _ e. e ≡ NoMemory };

    fn from(_error: AllocError) -> LinkError {
        LinkError::NoMemory
    }
}
