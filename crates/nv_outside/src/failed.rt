/// A read or a write that the outside failed.
#[derive(Clone, Copy, Debug, PartialEq, Eq)]
pub struct Failed;
