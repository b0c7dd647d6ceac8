use crate::abi::{PT_DYNAMIC, PT_INTERP, PT_LOAD};
use crate::segment::Segment;

/// The fields of an entry of the program header table that are looked at (System V ABI, "Program Header").
#[derive(Clone, Copy)]
pub struct ProgramHeader {
    /// What the entry describes.
    pub p_type: u32,
    /// The other fields, which are those of a segment where `p_type` is `PT_LOAD`.
    pub segment: Segment,
}

impl ProgramHeader {
    ghost use Rattle.std.specs.Prelude.{◌≡◌};
    ghost use Rattle.elf_definition.specs.Segments.{is_segment, is_live, is_dynamic, is_outside, is_oversized, is_too_high, is_writable_text, overlap};

    /// The length of an entry of the program header table in bytes.
    pub const SIZE: usize = 32;

    /// Whether it is a segment.
    pub fn is_segment(&self) -> bool
        ensures { result ≡ is_segment self.now }
    {
        self.p_type == PT_LOAD
    }

    /// Whether it is a segment that has bytes in memory.
    pub fn is_live(&self) -> bool
        ensures { result ≡ is_live self.now }
    {
        self.is_segment() && self.segment.memsz > 0
    }

    /// Whether it is `PT_DYNAMIC` or `PT_INTERP`.
    pub fn is_dynamic(&self) -> bool
        ensures { result ≡ is_dynamic self.now }
    {
        self.p_type == PT_DYNAMIC || self.p_type == PT_INTERP
    }

    /// Whether it is a segment whose bytes run past the end of a file of `len` bytes.
    pub fn is_outside(&self, len: usize) -> bool
        ensures { result ≡ is_outside len self.now }
    {
        let end = u64::from(self.segment.offset) + u64::from(self.segment.filesz);
        self.is_segment() && self.segment.filesz > 0 && (len as u64) < end
    }

    /// Whether it is a segment with more bytes in the file than in memory.
    pub fn is_oversized(&self) -> bool
        ensures { result ≡ is_oversized self.now }
    {
        self.is_segment() && self.segment.filesz > self.segment.memsz
    }

    /// Whether it is a live segment that ends above 7F000000.
    pub fn is_too_high(&self) -> bool
        ensures { result ≡ is_too_high self.now }
    {
        self.is_live() && self.segment.end() > 0x7F00_0000
    }

    /// Whether it is a live segment that is both writable and executable.
    pub fn is_writable_text(&self) -> bool
        ensures { result ≡ is_writable_text self.now }
    {
        self.is_live() && self.segment.is_executable() && self.segment.is_writable()
    }

    /// Whether two live segments share an address.
    pub fn overlaps(&self, other: &ProgramHeader) -> bool
        ensures { result ≡ overlap self.now other.now }
    {
        self.is_live() && other.is_live() && self.segment.meets(&other.segment)
    }
}
