//! The fields of the main class, by their numbers in the program: r1 to r31 are 0 to 30.
ghost use Rattle.std.specs.Prelude.{◌≡◌, ◌<◌};
ghost use Rattle.emit_layout.specs.FieldNumbers as matching;
ghost use Rattle.emit_instructions.specs.Computing.{hi_lo_field};

use mips_decode::HiLo;

/// HI.
pub const HI: u32 = 31;
/// LO.
pub const LO: u32 = 32;
/// Where the guest goes.
pub const PC: u32 = 33;
/// The table of pages that can be read.
pub const READABLE: u32 = 34;
/// The table of pages that can be written.
pub const WRITABLE: u32 = 35;
/// The address of the last LL.
pub const LINK: u32 = 36;
/// Whether the address of the last LL is linked, as 1 or 0.
pub const LINKED: u32 = 37;

/// The field of HI or LO.
pub fn hi_lo_field(name: HiLo) -> u32
    ensures { result ≡ hi_lo_field name }
{
    match name {
        HiLo::Hi => HI,
        HiLo::Lo => LO,
    }
}

/// The field of a register that is not register 0.
pub fn register_field(r: u8) -> u32
    requires { 0 < r }
    ensures { result ≡ matching.register_field r }
{
    u32::from(r) - 1
}
