use crate::abi::{PF_W, PF_X};

/// A loadable segment that has bytes in memory (System V ABI, "Program Header", `PT_LOAD`).
#[derive(Clone, Copy, Debug, PartialEq, Eq)]
pub struct Segment {
    /// `p_offset`: where its bytes begin in the file.
    pub offset: u32,
    /// `p_filesz`: how many of its bytes, the first ones, are in the file.
    pub filesz: u32,
    /// `p_vaddr`: the address of its first byte.
    pub vaddr: u32,
    /// `p_memsz`: its length in memory, in bytes.
    pub memsz: u32,
    /// `p_flags`: 1 to execute, 2 to write, 4 to read, added.
    pub flags: u32,
}

impl Segment {
    ghost use Rattle.std.specs.Prelude.{◌≡◌};
    ghost use Rattle.elf_definition.specs.Check.{meet};
    ghost use Rattle.elf_definition.specs.Segments.{segment_end, file_end, is_executable, is_writable};

    /// The first address after it.
    pub fn end(&self) -> u64
        ensures { result ≡ segment_end self.now }
    {
        u64::from(self.vaddr) + u64::from(self.memsz)
    }

    /// The first address after its bytes in the file.
    pub fn file_end(&self) -> u64
        ensures { result ≡ file_end self.now }
    {
        u64::from(self.vaddr) + u64::from(self.filesz)
    }

    /// Whether it may be executed.
    pub fn is_executable(&self) -> bool
        ensures { result ≡ is_executable self.now }
    {
        self.flags & PF_X != 0
    }

    /// Whether it may be written.
    pub fn is_writable(&self) -> bool
        ensures { result ≡ is_writable self.now }
    {
        self.flags & PF_W != 0
    }

    /// Whether the two share an address.
    pub fn meets(&self, other: &Segment) -> bool
        ensures { result ≡ meet self.now.vaddr (segment_end self.now) other.now.vaddr
            (segment_end other.now) }
    {
        u64::from(self.vaddr.max(other.vaddr)) < self.end().min(other.end())
    }
}
