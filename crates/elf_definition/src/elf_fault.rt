/// A check of an ELF file that failed: the first one, in the order of `kind`.
///
/// The names are those of the System V ABI, "ELF Header", "Sections" and "Program Header". A segment is a program header of
/// type `PT_LOAD`, and it is live where it has bytes in memory. Addresses are hexadecimal.
///
/// | `kind` | The check fails where |
/// |---|---|
/// | 1 | the file has fewer than 52 bytes |
/// | 2 | its first four bytes are not 7F 45 4C 46 |
/// | 3 | `e_ident[EI_CLASS]` is not 1 (32 bits) |
/// | 4 | `e_ident[EI_DATA]` is neither 1 (little-endian) nor 2 (big-endian) |
/// | 5 | `e_ident[EI_VERSION]` or `e_version` is not 1 |
/// | 6 | `e_type` is not 2 (an executable file) |
/// | 7 | `e_machine` is not 8 (MIPS) |
/// | 8 | `e_phnum` is 0 |
/// | 9 | `e_phentsize` is not 32 |
/// | 10 | the program header table runs past the end of the file |
/// | 11 | program header `i` is `PT_DYNAMIC` or `PT_INTERP` |
/// | 12 | the bytes of segment `i` run past the end of the file |
/// | 13 | segment `i` has more bytes in the file than in memory |
/// | 14 | live segment `i` ends above 7F000000 |
/// | 15 | live segments `i` and `j`, with `i < j`, share an address |
/// | 16 | live segment `i` is both writable and executable |
/// | 17 | there are sections, and `e_shentsize` is not 40 |
/// | 18 | the section header table runs past the end of the file |
/// | 19 | code section `i` is not within the bytes in the file of one live executable segment |
/// | 20 | code section `i` begins at no multiple of 4 |
/// | 21 | there is no code |
/// | 22 | page `i` holds a byte of the code and a byte of a writable live segment |
///
/// `i` and `j` number program headers in checks 11 to 16, section headers in checks 19 and 20, and pages of 4,096 bytes in
/// check 22, from 0. `i` is the least at which the check fails, and `j` the least beside this `i`. One that the check does not
/// name is 0.
#[derive(Clone, Copy, Debug, PartialEq, Eq)]
pub struct ElfFault {
    /// The number of the check, 1 to 22.
    pub kind: u32,
    /// The header or page at which it failed.
    pub i: u32,
    /// The other header, in check 15.
    pub j: u32,
}

impl ElfFault {
    pub const TOO_SHORT: u32 = 1;

    pub const BAD_MAGIC: u32 = 2;

    pub const NOT_CLASS_32: u32 = 3;

    pub const NOT_KNOWN_ORDER: u32 = 4;

    pub const BAD_VERSION: u32 = 5;

    pub const NOT_EXECUTABLE: u32 = 6;

    pub const NOT_MIPS: u32 = 7;

    pub const NO_SEGMENTS: u32 = 8;

    pub const BAD_PROGRAM_HEADER_SIZE: u32 = 9;

    pub const PROGRAM_TABLE_OUTSIDE: u32 = 10;

    pub const DYNAMIC: u32 = 11;

    pub const SEGMENT_OUTSIDE: u32 = 12;

    pub const SEGMENT_SIZES: u32 = 13;

    pub const ADDRESS_OUTSIDE: u32 = 14;

    pub const OVERLAP: u32 = 15;

    pub const WRITABLE_TEXT: u32 = 16;

    pub const BAD_SECTION_HEADER_SIZE: u32 = 17;

    pub const SECTION_TABLE_OUTSIDE: u32 = 18;

    pub const CODE_OUTSIDE: u32 = 19;

    pub const CODE_UNALIGNED: u32 = 20;

    pub const NO_CODE: u32 = 21;

    pub const SHARED_PAGE: u32 = 22;
}
