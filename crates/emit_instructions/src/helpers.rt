//! The methods that help code, by their numbers in the program.
ghost use Rattle.std.specs.Prelude.{◌≡◌};
ghost use Rattle.emit_instructions.specs.Helpers as helpers;

use mips_decode::{LoadName, ProductName, StoreName};

/// The helper of LL.
pub const LOAD_LINKED: u32 = 16;
/// The helper of SC.
pub const STORE_CONDITIONAL: u32 = 17;

/// The helper of a load.
pub fn load_helper(name: LoadName) -> u32
    ensures { result ≡ helpers.load_helper name }
{
    match name {
        LoadName::Lw => 0,
        LoadName::Lh => 1,
        LoadName::Lhu => 2,
        LoadName::Lb => 3,
        LoadName::Lbu => 4,
        LoadName::Lwl => 5,
        LoadName::Lwr => 6,
    }
}

/// The helper of a store.
pub fn store_helper(name: StoreName) -> u32
    ensures { result ≡ helpers.store_helper name }
{
    match name {
        StoreName::Sw => 7,
        StoreName::Sh => 8,
        StoreName::Sb => 9,
        StoreName::Swl => 10,
        StoreName::Swr => 11,
    }
}

/// The helper of a multiplication or division.
pub fn product_helper(name: ProductName) -> u32
    ensures { result ≡ helpers.product_helper name }
{
    match name {
        ProductName::Div => 12,
        ProductName::Divu => 13,
        ProductName::Mult => 14,
        ProductName::Multu => 15,
    }
}
