//! The numbers of the System V ABI ("Object Files") and of its supplement for MIPS that files of programs and objects hold, by their
//! names there.

/// A file of 32 bits (`e_ident[EI_CLASS]`).
pub const ELFCLASS32: u8 = 1;
/// Little-endian (`e_ident[EI_DATA]`).
pub const ELFDATA2LSB: u8 = 1;
/// Big-endian (`e_ident[EI_DATA]`).
pub const ELFDATA2MSB: u8 = 2;
/// The version of the format (`e_ident[EI_VERSION]` and `e_version`).
pub const EV_CURRENT: u8 = 1;

/// A relocatable object (`e_type`).
pub const ET_REL: u16 = 1;
/// A program that can be run (`e_type`).
pub const ET_EXEC: u16 = 2;
/// MIPS (`e_machine`).
pub const EM_MIPS: u16 = 8;

/// A segment (`p_type`).
pub const PT_LOAD: u32 = 1;
/// What a dynamic linker needs (`p_type`).
pub const PT_DYNAMIC: u32 = 2;
/// The name of a dynamic linker (`p_type`).
pub const PT_INTERP: u32 = 3;
/// The segment may be executed (`p_flags`).
pub const PF_X: u32 = 1;
/// The segment may be written (`p_flags`).
pub const PF_W: u32 = 2;
/// The segment may be read (`p_flags`).
pub const PF_R: u32 = 4;

/// Bytes that are in the file (`sh_type`).
pub const SHT_PROGBITS: u32 = 1;
/// Symbols (`sh_type`).
pub const SHT_SYMTAB: u32 = 2;
/// Strings, as the names of symbols (`sh_type`).
pub const SHT_STRTAB: u32 = 3;
/// Relocations with addends (`sh_type`).
pub const SHT_RELA: u32 = 4;
/// Zeros that are not in the file (`sh_type`).
pub const SHT_NOBITS: u32 = 8;
/// Relocations without addends (`sh_type`).
pub const SHT_REL: u32 = 9;
/// The section may be written (`sh_flags`).
pub const SHF_WRITE: u32 = 1;
/// The section has memory (`sh_flags`).
pub const SHF_ALLOC: u32 = 2;
/// The section is code (`sh_flags`).
pub const SHF_EXECINSTR: u32 = 4;
