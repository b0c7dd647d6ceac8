/// How an operand of 16 bits is written.
#[derive(Clone, Copy)]
pub enum HalfForm {
    /// A number from -32768 to 65535, or half an address.
    Signed,
    /// A number from 0 to 65535, or half an address.
    Unsigned,
    /// The target of a branch.
    Near,
    /// The code of a trap, 0 to 1023.
    TrapCode,
}
