//! The header of an object (System V ABI, "ELF Header").
ghost use Rattle.std.specs.Prelude.{◌≡◌, ◌+◌, ◌*◌, ◌≤◌, ◌&&◌, IfErr, IfOk, IsTrue, OnOk, None, length};
ghost use Rattle.elf_definition.specs.Header.{header_of};
ghost use Rattle.elf_definition.specs.Sections.{has_sections};
ghost use Rattle.obj_reader.specs.Fault.{IsAnswer};
ghost use Rattle.obj_reader.specs.Objects.{header_fault};
ghost use Rattle.obj_reader.specs.Sections.{is_identified, is_mips_object, is_relocatable, is_table_sound};

use crate::fault::refuse_when;
use crate::obj_error::ObjError;
use crate::section::Section;
use crate::start::Start;
use elf_definition::ObjFault;
use elf_definition::abi::{ELFCLASS32, ELFDATA2MSB, EM_MIPS, ET_REL, EV_CURRENT};
use elf_reader::{ElfHeader, has_magic, header_at_start};

/// Reads the header, with its checks.
#[tactic(auto, unfolding(crate::specs::Objects::header_fault))]
pub fn read_header(start: Start, b: &[u8]) -> Result<ElfHeader, ObjError>
    ensures refused { IfErr result (IsAnswer (header_fault start b.now)) }
    ensures passed { OnOk result (header_fault start b.now ≡ None) }
    ensures header { IfOk result (λ header. header ≡ header_of b.now) }
    ensures there { IfOk result (λ header. IsTrue (has_sections header)
        → header.e_shoff + 40 * header.e_shnum ≤ length b.now) }
{
    refuse_when(start.object, ObjFault::NOT_OBJECT, 0, !is_object(b))?;
    let header = header_at_start(b);
    let is_sound = is_table_sound(b, header);
    refuse_when(start.object, ObjFault::SECTION_TABLE, 0, !is_sound)?;
    Ok(header)
}

/// Whether it is a big-endian 32-bit relocatable object for MIPS.
fn is_object(b: &[u8]) -> bool
    ensures value { result ≡ is_mips_object b.now }
    ensures long { IsTrue result → 52 ≤ length b.now }
{
    b.len() >= ElfHeader::SIZE && has_magic(b) && is_mips_object(header_at_start(b))
}

/// Whether the header is that of a big-endian 32-bit relocatable object for MIPS, of the current version.
fn is_mips_object(header: ElfHeader) -> bool
    ensures { result ≡ (is_identified header && is_relocatable header) }
{
    header.ei_class == ELFCLASS32
        && header.ei_data == ELFDATA2MSB
        && header.ei_version == EV_CURRENT
        && header.e_version == u32::from(EV_CURRENT)
        && header.e_type == ET_REL
        && header.e_machine == EM_MIPS
}

/// Whether the entries of the section header table have their length, and the table lies in the file.
fn is_table_sound(b: &[u8], header: ElfHeader) -> bool
    ensures value { result ≡ is_table_sound b.now header }
    ensures there { IsTrue result → IsTrue (has_sections header)
        → header.e_shoff + 40 * header.e_shnum ≤ length b.now }
{
    usize::from(header.e_shentsize) == Section::SIZE
        && !(header.has_sections() && header.is_section_table_outside(b))
}
