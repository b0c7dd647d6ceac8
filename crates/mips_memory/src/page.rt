ghost use Rattle.std.specs.Prelude.{◌≡◌};
ghost use Rattle.mips_memory.specs.Pages.{shift_of, is_writable};

/// A page of the guest's memory: 4,096 bytes from a multiple of 4,096 on.
///
/// A page that is there says how much is added to the address of a byte in it, modulo 2^32, for its place among the bytes of all pages.
#[derive(Clone, Copy)]
pub enum Page {
    Unmapped,
    ReadOnly(u32),
    Writable(u32),
}
