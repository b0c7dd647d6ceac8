//! The checks of the ELF header (System V ABI, "ELF Header").
ghost use Rattle.std.specs.Prelude.{◌≡◌, ◌≤◌, ◌+◌, ◌*◌, IfNone, length};
ghost use Rattle.elf_definition.specs.Header.{has_magic, header_of, identity_fault, program_table_fault};

use crate::fault::fault_when;
use crate::headers::header_at_start;
use elf_definition::abi::{ELFCLASS32, ELFDATA2LSB, ELFDATA2MSB, EM_MIPS, ET_EXEC, EV_CURRENT};
use elf_definition::{ElfFault, ElfHeader, ProgramHeader};

/// The first of the checks of what kind of file it is: a 32-bit executable for MIPS, in one of the two orders of bytes.
#[tactic(auto, unfolding(elf_definition::specs::Header::identity_fault))]
pub fn check_identity(b: &[u8]) -> Option<ElfFault>
    ensures first { result ≡ identity_fault b.now }
    ensures has_header { IfNone result (52 ≤ length b.now) }
{
    if b.len() < ElfHeader::SIZE {
        return fault_when(ElfFault::TOO_SHORT, true);
    }
    if !has_magic(b) {
        return fault_when(ElfFault::BAD_MAGIC, true);
    }
    let header = header_at_start(b);
    if header.ei_class != ELFCLASS32 {
        return fault_when(ElfFault::NOT_CLASS_32, true);
    }
    if header.ei_data != ELFDATA2LSB && header.ei_data != ELFDATA2MSB {
        return fault_when(ElfFault::NOT_KNOWN_ORDER, true);
    }
    if header.ei_version != EV_CURRENT || header.e_version != u32::from(EV_CURRENT) {
        return fault_when(ElfFault::BAD_VERSION, true);
    }
    if header.e_type != ET_EXEC {
        return fault_when(ElfFault::NOT_EXECUTABLE, true);
    }
    fault_when(ElfFault::NOT_MIPS, header.e_machine != EM_MIPS)
}

/// Whether the file begins with the four bytes of every ELF file.
pub fn has_magic(b: &[u8]) -> bool
    requires { 52 ≤ length b.now }
    ensures { result ≡ has_magic b.now }
{
    b[0] == 0x7F && b[1] == b'E' && b[2] == b'L' && b[3] == b'F'
}

/// The first of the checks of where the program header table is.
#[tactic(auto, unfolding(elf_definition::specs::Header::program_table_fault))]
pub fn check_program_table(b: &[u8], header: ElfHeader) -> Option<ElfFault>
    requires { header ≡ header_of b.now }
    ensures first { result ≡ program_table_fault b.now }
    ensures has_table { IfNone result (header.e_phoff + 32 * header.e_phnum ≤ length b.now) }
{
    if header.e_phnum == 0 {
        return fault_when(ElfFault::NO_SEGMENTS, true);
    }
    if usize::from(header.e_phentsize) != ProgramHeader::SIZE {
        return fault_when(ElfFault::BAD_PROGRAM_HEADER_SIZE, true);
    }
    let is_outside = header.is_program_table_outside(b);
    fault_when(ElfFault::PROGRAM_TABLE_OUTSIDE, is_outside)
}
