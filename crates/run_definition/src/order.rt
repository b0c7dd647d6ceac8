/// The order in which the bytes of a number are in memory.
#[derive(Clone, Copy, Debug, PartialEq, Eq)]
pub enum Order {
    /// The most significant byte has the lowest address.
    Big,
    /// The least significant byte has the lowest address.
    Little,
}
