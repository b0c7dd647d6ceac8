//! Which addresses an access may have.
ghost use Rattle.std.specs.Prelude.{◌≡◌, ℕ};
ghost use Rattle.mips_definition.specs.Loads.{load_aligned, store_aligned};

use mips_decode::{LoadName, StoreName};

/// Whether a load may be from an address: it is a multiple of 4 for a word, and of 2 for a half-word (MIPS II, address error exception).
#[inline(always)]
pub fn is_load_aligned(name: LoadName, at: u32) -> bool
    ensures { result ≡ load_aligned name at }
{
    match name {
        LoadName::Lh | LoadName::Lhu => at % 2 == 0,
        LoadName::Lw => at % 4 == 0,
        _ => true,
    }
}

/// Whether a store may be to an address, as `is_load_aligned` says it of a load.
#[inline(always)]
pub fn is_store_aligned(name: StoreName, at: u32) -> bool
    ensures { result ≡ store_aligned name at }
{
    match name {
        StoreName::Sh => at % 2 == 0,
        StoreName::Sw => at % 4 == 0,
        _ => true,
    }
}
