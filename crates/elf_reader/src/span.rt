/// The numbers from `first` up to `end`, without `end`.
#[derive(Clone, Copy)]
pub struct Span {
    pub first: u64,
    pub end: u64,
}
