use crate::Sequence;
use crate::kind::Kind;
use crate::linked_line::LinkedLine;

/// A static method whose code is linked (JVM Specification, 4.6 and 4.7.3).
#[derive(Drop)]
pub struct LinkedMethod {
    /// The types of its parameters, the first one first.
    pub parameters: Sequence<Kind>,
    /// It gives an int; else nothing.
    pub gives_int: bool,
    /// The greatest number of operands, of which a long is two.
    pub stack: u16,
    /// The number of local variables.
    pub locals: u16,
    /// Its instructions, in the order of their offsets.
    pub lines: Sequence<LinkedLine>,
}
