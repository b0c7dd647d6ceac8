/// What comes of the admission of a block.
#[derive(Drop)]
pub enum Admitted {
    /// The instructions before an offset are typed.
    UpTo(usize),
    /// There is no typing up to an offset.
    FaultAt(usize),
}
