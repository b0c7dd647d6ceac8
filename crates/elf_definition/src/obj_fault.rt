/// What is wrong with the objects of a program: the first thing in the order of the kinds.
#[derive(Clone, Copy, Debug, PartialEq, Eq)]
pub struct ObjFault {
    /// The number of the object at fault, from 0; 0 where the objects are at fault together.
    pub object: u32,
    /// Which check fails, 1 to 15.
    pub kind: u32,
    /// The section's number (of `SECTION_OUTSIDE`, `ALIGNMENT`), the symbol's (`SYMBOLS`, `COMMON`, `DUPLICATE`) or the offset in
    /// the section that is relocated (`RELOCATIONS`, `RELOCATION_TYPE`, `HI_ALONE`, `UNDEFINED`, `RANGE`). If no single symbol or
    /// relocation is at fault, the number of the section of the symbol table or of the relocations; else 0.
    pub at: u32,
}

impl ObjFault {
    /// It is no big-endian 32-bit relocatable object for MIPS.
    pub const NOT_OBJECT: u32 = 1;
    /// The section header table is of another form, or outside of the file.
    pub const SECTION_TABLE: u32 = 2;
    /// A section that is read runs past the end of the file.
    pub const SECTION_OUTSIDE: u32 = 3;
    /// A section's alignment is neither 0 nor a power of 2 up to 4,096.
    pub const ALIGNMENT: u32 = 4;
    /// There is a second symbol table, or the symbol table, its string table or a symbol is of a wrong form.
    pub const SYMBOLS: u32 = 5;
    /// A symbol is common, or has another reserved section index than `SHN_ABS`.
    pub const COMMON: u32 = 6;
    /// Relocations are of a wrong form, name no symbol, or are for no word of a section with bytes.
    pub const RELOCATIONS: u32 = 7;
    /// A relocation has another type than those that are known.
    pub const RELOCATION_TYPE: u32 = 8;
    /// An `R_MIPS_HI16` has no later `R_MIPS_LO16` of the same section and symbol.
    pub const HI_ALONE: u32 = 9;
    /// A name has a second global definition.
    pub const DUPLICATE: u32 = 10;
    /// A relocation needs a name that nothing defines, or a symbol in a section that is not placed.
    pub const UNDEFINED: u32 = 11;
    /// A segment is too large.
    pub const TOO_LARGE: u32 = 12;
    /// A jump's target is no multiple of 4 below 10000000 (hexadecimal).
    pub const RANGE: u32 = 13;
    /// Nothing placed defines the entry, or nothing executable is placed.
    pub const NO_ENTRY: u32 = 14;
    /// The file has more than 67,108,864 bytes.
    pub const OBJECT_TOO_LARGE: u32 = 15;
}
