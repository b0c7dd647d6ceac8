//! Numbers in a part of the file that is known to be there, in the order that the file names.
ghost use Rattle.std.specs.Prelude.{◌≡◌, ◌+◌, ◌≤◌, length};
ghost use Rattle.elf_definition.specs.Header.{order_of, half, word};

use elf_definition::abi::ELFDATA2LSB;
use nv_words::{Order, half_in, word_in};

/// The order of the numbers of a file, which `e_ident[EI_DATA]` names.
#[tactic(auto, unfolding(elf_definition::specs::Header::order_of))]
pub fn order_of(b: &[u8]) -> Order
    ensures { result ≡ order_of b.now }
{
    match b.get(5) {
        Some(&ELFDATA2LSB) => Order::Little,
        _ => Order::Big,
    }
}

/// The number of 16 bits at `at`.
pub fn half(b: &[u8], at: usize) -> u16
    requires { at + 2 ≤ length b.now }
    ensures { result ≡ half b.now at }
{
    half_in(order_of(b), b, at).unwrap()
}

/// The number of 32 bits at `at`.
pub fn word(b: &[u8], at: usize) -> u32
    requires { at + 4 ≤ length b.now }
    ensures { result ≡ word b.now at }
{
    word_in(order_of(b), b, at).unwrap()
}
