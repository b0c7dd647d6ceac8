use crate::section::Section;
use crate::start::Start;
use elf_reader::word;

/// It changes nothing (`r_info`).
pub const R_MIPS_NONE: u8 = 0;
/// The word is an address (`r_info`).
pub const R_MIPS_32: u8 = 2;
/// The lower 26 bits of the word are a jump's target in words (`r_info`).
pub const R_MIPS_26: u8 = 4;
/// The lower half of the word is the upper half of an address (`r_info`).
pub const R_MIPS_HI16: u8 = 5;
/// The lower half of the word is the lower half of an address (`r_info`).
pub const R_MIPS_LO16: u8 = 6;

/// A relocation: what is to be done to a word of a section (System V ABI, "Relocation").
#[derive(Clone, Copy)]
pub struct Relocation {
    /// The number of its object.
    pub object: u32,
    /// The section that it changes, numbered through.
    pub section: usize,
    /// Where the word is in that section.
    pub r_offset: u32,
    /// Its symbol, numbered through.
    pub symbol: usize,
    /// How the word is changed.
    pub r_type: u8,
}

impl Relocation {
    ghost use Rattle.std.specs.Prelude.{◌≡◌, ◌+◌, ◌*◌, ◌^◌, ◌<◌, ◌≤◌, length};
    ghost use Rattle.obj_reader.specs.Relocations as spec;

    /// The length of an entry in bytes.
    pub const SIZE: usize = 8;

    /// Reads entry `k` of a section of relocations, which lies in the file.
    #[tactic(auto, unfolding(crate::specs::Relocations::relocation))]
    pub fn read(start: Start, b: &[u8], s: &Section, k: u32) -> Relocation
        requires few { start.section < 2 ^ 32 }
        requires known { start.symbol < 2 ^ 32 }
        requires there { s.now.sh_offset + 8 * k + 8 ≤ length b.now }
        ensures { result ≡ spec.relocation start b.now s.now k }
    {
        let at = s.sh_offset as usize + Relocation::SIZE * k as usize;
        let r_info = word(b, at + 4);
        Relocation {
            object: start.object,
            section: start.section + s.sh_info as usize,
            r_offset: word(b, at),
            symbol: start.symbol + (r_info / 256) as usize,
            r_type: (r_info % 256) as u8,
        }
    }

    /// Whether its type is known.
    pub fn is_known(&self) -> bool
        ensures { result ≡ spec.is_known_type self.now.r_type }
    {
        matches!(
            self.r_type,
            R_MIPS_NONE | R_MIPS_32 | R_MIPS_26 | R_MIPS_HI16 | R_MIPS_LO16
        )
    }

    /// Whether it is for the upper half of an address.
    pub fn is_high(&self) -> bool
        ensures { result ≡ spec.is_high self.now }
    {
        self.r_type == R_MIPS_HI16
    }

    /// Whether it is for the lower half of an address.
    pub fn is_low(&self) -> bool
        ensures { result ≡ spec.is_low self.now }
    {
        self.r_type == R_MIPS_LO16
    }

    /// Whether it changes its word by its symbol.
    pub fn needs_symbol(&self) -> bool
        ensures { result ≡ spec.needs_symbol self.now }
    {
        matches!(
            self.r_type,
            R_MIPS_32 | R_MIPS_26 | R_MIPS_HI16 | R_MIPS_LO16
        )
    }
}
