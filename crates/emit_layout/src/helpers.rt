//! The helper methods of the main class.
ghost use Rattle.std.specs.Prelude.{◌≡◌};
ghost use Rattle.emit_layout.specs.Helpers as helpers;

/// How many helper methods there are, with the two that end the run for them.
pub const HELPERS: u32 = 20;

/// The name of the helper of this number.
pub fn helper_name(number: u32) -> &'static str
    ensures { result.now ≡ helpers.helper_name number }
{
    match number {
        0 => "lw",
        1 => "lh",
        2 => "lhu",
        3 => "lb",
        4 => "lbu",
        5 => "lwl",
        6 => "lwr",
        _ => store_name(number),
    }
}

fn store_name(number: u32) -> &'static str
    ensures { result.now ≡ helpers.store_name number }
{
    match number {
        7 => "sw",
        8 => "sh",
        9 => "sb",
        10 => "swl",
        11 => "swr",
        _ => other_name(number),
    }
}

fn other_name(number: u32) -> &'static str
    ensures { result.now ≡ helpers.other_name number }
{
    match number {
        12 => "div",
        13 => "divu",
        14 => "mult",
        15 => "multu",
        16 => "ll",
        17 => "sc",
        18 => "rf",
        _ => "wf",
    }
}

/// The descriptor of the helper of this number.
///
/// Loads and LL take an address and the instruction's address; parts of loads take the old word before these; stores and SC take a word
/// before these; products and quotients take two words; the two that end the run take an address, the instruction's address, and the bits
/// of the address that have to be 0. Loads, LL, SC and the end of a load give a word.
pub fn helper_descriptor(number: u32) -> &'static str
    ensures { result.now ≡ helpers.helper_descriptor number }
{
    match number {
        0 | 1 | 2 | 3 | 4 | 16 => "(II)I",
        5 | 6 | 17 | 18 => "(III)I",
        12 | 13 | 14 | 15 => "(II)V",
        _ => "(III)V",
    }
}
