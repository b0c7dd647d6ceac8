/// What was read of a character in modified UTF-8 (JVM Specification, 4.4.7).
#[derive(Clone, Copy)]
pub enum Partial {
    /// Nothing.
    Start,
    /// The first of two bytes: five bits.
    Two(u8),
    /// The first of three bytes: four bits.
    Three(u8),
    /// The first two of three bytes: ten bits.
    Last(u16),
}
