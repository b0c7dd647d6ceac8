/// Why an accepted ELF file has no image: the first check that fails, in the order of `kind`.
///
/// A page has 4,096 bytes. Segment pages are those that hold a byte of a live segment, each counted once.
///
/// | `kind` | The check fails where | `number` |
/// |---|---|---|
/// | 1 | the file has more than 67,108,864 bytes | its length |
/// | 2 | the code area has more than 1,048,576 words | the words |
/// | 3 | the code area has more than 64 ranges | the ranges |
/// | 4 | segment pages, heap, stack and argument page are more than 65,536 pages | that sum |
/// | 5 | more than 16,384 segment pages hold a byte that is not 0 | those pages |
/// | 6 | a page belongs to two of segments, heap, stack and argument page | the lowest such page |
/// | 7 | a code word has primary opcode 11, 31 or 39 (hexadecimal), floating point | the lowest such address |
#[derive(Clone, Copy, Debug, PartialEq, Eq)]
pub struct ImageFault {
    /// The number of the check, 1 to 7.
    pub kind: u32,
    /// The size, page or address at which it failed.
    pub number: u64,
    /// The word, in check 7; else 0.
    pub word: u32,
}

impl ImageFault {
    pub const FILE_TOO_LARGE: u32 = 1;

    pub const CODE_TOO_LARGE: u32 = 2;

    pub const TOO_MANY_RANGES: u32 = 3;

    pub const TOO_MANY_PAGES: u32 = 4;

    pub const TOO_MUCH_DATA: u32 = 5;

    pub const LAYOUT_CLASH: u32 = 6;

    pub const FLOAT_INSTRUCTION: u32 = 7;
}
