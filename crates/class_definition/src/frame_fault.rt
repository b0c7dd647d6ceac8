/// A method whose `StackMapTable` is refused (JVM Specification, Java SE 7 edition, 4.7.4 and 4.10.1): the first one, by its class,
/// then by its number.
///
/// | `kind` | Exactly where |
/// |---|---|
/// | 1 | the bytes are no table, too many local variables are dropped, or a frame has more of them or more operands than the method |
/// | 2 | they are a table, and its frames are no typing of the method |
/// | 3 | the class's pool has too few slots for the entries that tables name; the method is 0 |
#[derive(Clone, Copy, Debug, PartialEq, Eq)]
pub struct FrameFault {
    /// The number of its class, from 0.
    pub class: u32,
    /// Its number among the methods of its class, from 0.
    pub method: u32,
    /// What is wrong, 1 to 3.
    pub kind: u32,
}

impl FrameFault {
    /// The bytes are no table of the method.
    pub const TABLE: u32 = 1;
    /// The frames are no typing.
    pub const NOT_TYPING: u32 = 2;
    /// The pool has too few slots.
    pub const POOL: u32 = 3;
}
