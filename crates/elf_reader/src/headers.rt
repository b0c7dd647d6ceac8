//! The headers of a file and of its parts, read (System V ABI, "ELF Header", "Program Header", "Sections").
ghost use Rattle.std.specs.Prelude.{◌≡◌, ◌+◌, ◌*◌, ◌≤◌, length};
ghost use Rattle.elf_definition.specs.Header.{header_of};
ghost use Rattle.elf_definition.specs.Sections.{section_header};
ghost use Rattle.elf_definition.specs.Segments.{program_header};

use crate::fields::{half, word};
use elf_definition::{ElfHeader, ProgramHeader, SectionHeader, Segment};

/// Reads the header of a file that is long enough for one.
#[tactic(auto, unfolding(elf_definition::specs::Header::header_of))]
pub fn header_at_start(b: &[u8]) -> ElfHeader
    requires { 52 ≤ length b.now }
    ensures { result ≡ header_of b.now }
{
    ElfHeader {
        ei_class: b[4],
        ei_data: b[5],
        ei_version: b[6],
        e_type: half(b, 16),
        e_machine: half(b, 18),
        e_version: word(b, 20),
        e_entry: word(b, 24),
        e_phoff: word(b, 28),
        e_shoff: word(b, 32),
        e_phentsize: half(b, 42),
        e_phnum: half(b, 44),
        e_shentsize: half(b, 46),
        e_shnum: half(b, 48),
    }
}

/// Reads entry `i` of the program header table, which lies in the file.
#[tactic(auto, unfolding(elf_definition::specs::Segments::program_header))]
pub fn program_header_at(b: &[u8], header: ElfHeader, i: u16) -> ProgramHeader
    requires read { header ≡ header_of b.now }
    requires there { header.e_phoff + 32 * i + 32 ≤ length b.now }
    ensures { result ≡ program_header b.now i }
{
    let at = header.e_phoff as usize + ProgramHeader::SIZE * i as usize;
    ProgramHeader {
        p_type: word(b, at),
        segment: Segment {
            offset: word(b, at + 4),
            vaddr: word(b, at + 8),
            filesz: word(b, at + 16),
            memsz: word(b, at + 20),
            flags: word(b, at + 24),
        },
    }
}

/// Reads entry `i` of the section header table, which lies in the file.
#[tactic(auto, unfolding(elf_definition::specs::Sections::section_header))]
pub fn section_header_at(b: &[u8], header: ElfHeader, i: u16) -> SectionHeader
    requires read { header ≡ header_of b.now }
    requires there { header.e_shoff + 40 * i + 40 ≤ length b.now }
    ensures { result ≡ section_header b.now i }
{
    let at = header.e_shoff as usize + SectionHeader::SIZE * i as usize;
    SectionHeader {
        sh_type: word(b, at + 4),
        sh_flags: word(b, at + 8),
        sh_addr: word(b, at + 12),
        sh_size: word(b, at + 20),
    }
}
