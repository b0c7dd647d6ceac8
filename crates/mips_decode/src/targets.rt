//! Immediates by their sign, and where branches and jumps go.
ghost use Rattle.std.specs.Prelude.{◌≡◌};
ghost use Rattle.mips_definition.specs.Targets as targets;

/// The target of a branch with this immediate, at the address `at`: the immediate, extended by its sign, counts words from
/// the next instruction, modulo 2^32.
pub fn branch_target(at: u32, imm: u16) -> u32
    ensures { result ≡ targets.branch_target at imm }
{
    at.wrapping_add(4)
        .wrapping_add(extended(imm).wrapping_mul(4))
}

/// The target of J or JAL with this index, at the address `at`: it lies in the same 256 megabytes as the next instruction.
pub fn jump_target(at: u32, index: u32) -> u32
    ensures { result ≡ targets.jump_target at index }
{
    (at.wrapping_add(4) & 0xf000_0000) + ((index & 0x03ff_ffff) << 2)
}

/// The immediate as a two's complement number.
pub(crate) fn signed(imm: u16) -> i16
    ensures { result ≡ targets.signed_imm imm }
{
    imm.cast_signed()
}

// The immediate as a word, extended by its sign.
fn extended(imm: u16) -> u32
    ensures { result ≡ targets.extended_imm imm }
{
    if imm < 0x8000 {
        u32::from(imm)
    } else {
        0xffff_0000 + u32::from(imm)
    }
}
