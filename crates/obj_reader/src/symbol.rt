use crate::start::Start;
use elf_reader::{half, word};

/// The name is for its own object (`st_info`).
pub const STB_LOCAL: u8 = 0;
/// The name is for all objects (`st_info`).
pub const STB_GLOBAL: u8 = 1;
/// The name is for all objects, unless another defines it (`st_info`).
pub const STB_WEAK: u8 = 2;
/// The symbol is not defined (`st_shndx`).
pub const SHN_UNDEF: u16 = 0;
/// The first of the indices that are no section's (`st_shndx`).
pub const SHN_LORESERVE: u16 = 0xFF00;
/// The value is no address in a section (`st_shndx`).
pub const SHN_ABS: u16 = 0xFFF1;

/// A symbol of an object: the fields of its entry that are looked at (System V ABI, "Symbol Table").
#[derive(Clone, Copy)]
pub struct Symbol {
    /// The number of its object.
    pub object: u32,
    /// Its own number in the object.
    pub number: u32,
    /// Where the names begin in the file.
    pub strings: u32,
    /// Where its name begins after that.
    pub st_name: u32,
    /// Its value: an offset in its section, or a number where it has none.
    pub st_value: u32,
    /// Its binding, times 16, and its type.
    pub st_info: u8,
    /// The number of its section in the object, or a reserved index.
    pub st_shndx: u16,
    /// The number of its section, numbered through.
    pub section: usize,
}

impl Symbol {
    ghost use Rattle.std.specs.Prelude.{◌≡◌, ◌==◌, ◌+◌, ◌*◌, ◌^◌, ◌<◌, ◌≤◌, length};
    ghost use Rattle.obj_reader.specs.Symbols as spec;

    /// The length of an entry in bytes.
    pub const SIZE: usize = 16;

    /// Reads entry `i` of the table at `table`, which lies in the file.
    #[tactic(auto, unfolding(crate::specs::Symbols::symbol))]
    pub fn read(start: Start, b: &[u8], strings: u32, table: u32, i: u32) -> Symbol
        requires few { start.section < 2 ^ 32 }
        requires there { table + 16 * i + 16 ≤ length b.now }
        ensures { result ≡ spec.symbol start b.now strings table i }
    {
        let at = table as usize + Symbol::SIZE * i as usize;
        let st_shndx = half(b, at + 14);
        Symbol {
            object: start.object,
            number: i,
            strings,
            st_name: word(b, at),
            st_value: word(b, at + 4),
            st_info: b[at + 12],
            st_shndx,
            section: start.section + st_shndx as usize,
        }
    }

    /// `STB_LOCAL`, `STB_GLOBAL`, `STB_WEAK` or another.
    pub fn binding(&self) -> u8
        ensures { result ≡ spec.binding self.now }
    {
        self.st_info / 16
    }

    /// Whether it has a reserved section index that is not known.
    pub fn is_common(&self) -> bool
        ensures { result ≡ spec.is_common self.now }
    {
        self.st_shndx >= SHN_LORESERVE && self.st_shndx != SHN_ABS
    }

    /// Whether its name is for its own object.
    pub fn is_local(&self) -> bool
        ensures { result ≡ spec.is_local self.now }
    {
        self.binding() == STB_LOCAL
    }

    /// Whether its name is for all objects.
    pub fn is_global(&self) -> bool
        ensures { result ≡ (spec.binding self.now == 1) }
    {
        self.binding() == STB_GLOBAL
    }

    /// Whether its name is for all objects, unless another defines it.
    pub fn is_weak(&self) -> bool
        ensures { result ≡ (spec.binding self.now == 2) }
    {
        self.binding() == STB_WEAK
    }

    /// Whether it has a section or a number.
    pub fn is_defined(&self) -> bool
        ensures { result ≡ spec.is_defined self.now }
    {
        self.st_shndx != SHN_UNDEF
    }
}
