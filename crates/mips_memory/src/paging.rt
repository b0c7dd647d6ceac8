//! Pages below address 80000000 (hexadecimal), and the bytes in them.
ghost use Rattle.std.specs.Prelude.{◌≡◌, ◌+◌, ◌*◌, ◌%◌, ◌^◌, ◌<◌};

/// The number of pages below address 80000000 (hexadecimal).
pub(crate) const PAGES: usize = 524288;

/// The first address after all of them.
pub(crate) const PAST_PAGES: u32 = 0x8000_0000;

/// The number of bytes in a page.
pub(crate) const PAGE_BYTES: usize = 4096;

/// Where the byte of an address is, whose page has a shift.
#[inline(always)]
pub(crate) fn shifted_place(at: u32, shift: u32) -> usize
    ensures { result ≡ (at + shift) % 2 ^ 32 }
{
    at.wrapping_add(shift) as usize
}

/// The shift of a page whose first byte is to be at a place.
pub(crate) fn shift_to(page: u32, place: u32) -> u32
    requires { page < 524288 }
    ensures { (page * 4096 + result) % 2 ^ 32 ≡ place }
{
    place.wrapping_sub(page * PAGE_BYTES as u32)
}
