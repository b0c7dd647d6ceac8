//! One block of the program.
ghost use Rattle.std.specs.Prelude.{◌≡◌, ◌++◌, ◌<◌, ◌≤◌, OnOk};
ghost use Rattle.elf_definition.specs.FileFields.{words};
ghost use Rattle.command_translate.specs.MadeWords as made;

use std::alloc::AllocError;

/// The number of a block, by that of the block before it.
pub fn next(x: u32) -> u32
    ensures { result ≡ made.next_number x }
{
    let sum = 1_664_525 * u64::from(x) + 1_013_904_223;
    (sum % 0x1_0000_0000) as u32
}

/// The address of a block, and of the end after the last one.
pub fn place(number: u32) -> u32
    requires { number ≤ 65536 }
    ensures { result ≡ made.place number }
{
    0x0040_0000 + 24 * number
}

/// The number of the block to which a block of so many jumps, and `count` for the end.
pub fn successor(count: u32, number: u32) -> u32
    requires few { count ≤ 65536 }
    requires within { number < count }
    ensures is { result ≡ made.successor count number }
    ensures within { result ≤ count }
{
    if number + 2 < count {
        number + 2
    } else if number % 2 == 0 && 1 < count {
        1
    } else {
        count
    }
}

/// Appends a block of the number `x` that jumps to an address.
pub fn push_block(bytes: &mut Vec<u8>, target: u32, x: u32) -> Result<(), AllocError>
    ensures { OnOk result (bytes.new.items ≡ bytes.old.items ++ words (made.block_words target x)) }
{
    push_words(
        bytes,
        &[
            0x2508_0000 + x / 0x1_0000,
            0x3C09_0000 + target / 0x1_0000,
            0x3529_0000 + target % 0x1_0000,
            0x0120_0008,
            0x3908_0000 + x % 0x1_0000,
            0x0000_000D,
        ],
    )
}

/// Appends the words at the end.
pub fn push_end(bytes: &mut Vec<u8>) -> Result<(), AllocError>
    ensures { OnOk result (bytes.new.items ≡ bytes.old.items ++ words made.end_words) }
{
    push_words(bytes, &[0x3104_007F, 0x2402_0001, 0x0000_000C])
}

/// Appends words, the most significant byte of each first.
fn push_words(bytes: &mut Vec<u8>, fields: &[u32]) -> Result<(), AllocError>
    ensures { OnOk result (bytes.new.items ≡ bytes.old.items ++ words fields.now) }
{
    for word in fields {
        bytes.extend_from_slice(&word.to_be_bytes())?;
    }
    Ok(())
}
