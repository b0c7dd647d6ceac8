/// A number as it is written: a sign and a magnitude.
#[derive(Clone, Copy)]
pub struct Number {
    /// Whether a `-` is before the digits.
    pub negative: bool,
    /// What the digits are.
    pub magnitude: u64,
}
