/// What is wrong with a class file: the first field at fault, from front to back.
///
/// | `kind` | Exactly where |
/// |---|---|
/// | 1 | four bytes are there, and the first four are not CAFEBABE; at 0 |
/// | 2 | the minor version is not 0, at 4, or the major version is not 48, at 6 |
/// | 3 | a field runs past the end |
/// | 4 | a tag of the constant pool is none of 1, 3, 5, 7, 8, 9, 10, 12 |
/// | 5 | an index names no entry of the needed kind; the pool's count is 0; a Long begins in the last slot, at its tag; the super class is not `java/lang/Object` |
/// | 6 | the bytes of a Utf8 entry are not of its form, at the entry's tag; a name or a descriptor is not of the form for it |
/// | 7 | access flags or the number of interfaces differ |
/// | 8 | the number of attributes or exception handlers, an attribute's name or its length differs |
/// | 9 | the code is refused, at its first byte plus the code fault's offset; a code length of 0 or above 65,535, at its field |
/// | 10 | bytes follow the end; at the first |
#[derive(Clone, Copy, Debug, PartialEq, Eq)]
pub struct ClassFault {
    /// What is wrong, 1 to 10.
    pub kind: u32,
    /// The offset of the field at fault, in bytes, or 4,294,967,295 where it is greater.
    pub at: u32,
}

impl ClassFault {
    pub const MAGIC: u32 = 1;

    pub const VERSION: u32 = 2;

    pub const CUT: u32 = 3;

    pub const TAG: u32 = 4;

    pub const INDEX: u32 = 5;

    pub const UTF8: u32 = 6;

    pub const FLAGS: u32 = 7;

    pub const ATTRIBUTE: u32 = 8;

    pub const CODE: u32 = 9;

    pub const TRAILING: u32 = 10;
}
