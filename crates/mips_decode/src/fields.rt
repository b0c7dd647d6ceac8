//! The fields of a word, as the MIPS I manual draws its instruction formats.
ghost use Rattle.std.specs.Prelude.{◌≡◌};
ghost use Rattle.mips_definition.specs.Table.{op_of, rs_of, rt_of, rd_of, sa_of, funct_of, imm_of, index_of, code_of, trap_code_of, is_float};

/// Bits 31 to 26.
pub(crate) fn op(w: u32) -> u8
    ensures { result ≡ op_of w }
{
    (w >> 26) as u8
}

/// Bits 25 to 21.
pub(crate) fn rs(w: u32) -> u8
    ensures { result ≡ rs_of w }
{
    (w >> 21 & 0x1f) as u8
}

/// Bits 20 to 16.
pub(crate) fn rt(w: u32) -> u8
    ensures { result ≡ rt_of w }
{
    (w >> 16 & 0x1f) as u8
}

/// Bits 15 to 11.
pub(crate) fn rd(w: u32) -> u8
    ensures { result ≡ rd_of w }
{
    (w >> 11 & 0x1f) as u8
}

/// Bits 10 to 6.
pub(crate) fn sa(w: u32) -> u8
    ensures { result ≡ sa_of w }
{
    (w >> 6 & 0x1f) as u8
}

/// Bits 5 to 0.
pub(crate) fn funct(w: u32) -> u8
    ensures { result ≡ funct_of w }
{
    (w & 0x3f) as u8
}

/// Bits 15 to 0.
pub(crate) fn imm(w: u32) -> u16
    ensures { result ≡ imm_of w }
{
    (w & 0xffff) as u16
}

/// Bits 25 to 0.
pub(crate) fn index(w: u32) -> u32
    ensures { result ≡ index_of w }
{
    w & 0x03ff_ffff
}

/// Bits 25 to 6.
pub(crate) fn code(w: u32) -> u32
    ensures { result ≡ code_of w }
{
    w >> 6 & 0xf_ffff
}

/// Bits 15 to 6.
pub(crate) fn trap_code(w: u32) -> u16
    ensures { result ≡ trap_code_of w }
{
    (w >> 6 & 0x3ff) as u16
}

/// Whether a word is one of the floating-point coprocessor: its opcode is 11, 31 or 39 (hexadecimal).
pub fn is_float(w: u32) -> bool
    ensures { result ≡ is_float w }
{
    matches!(op(w), 0x11 | 0x31 | 0x39)
}
