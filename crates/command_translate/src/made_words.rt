//! All words of the program.
ghost use Rattle.std.specs.Prelude.{◌≡◌, ◌≤◌, ◌+◌, ◌*◌, ◌++◌, IfOk, OnOk, length};
ghost use Rattle.elf_definition.specs.FileFields.{words};
ghost use Rattle.command_translate.specs.MadeWords as made;

use crate::made_block::{next, place, push_block, push_end, successor};
use std::alloc::{AllocError, Global};

/// The words of the program of so many blocks, as bytes.
pub fn made_text(alloc: Global, count: u32) -> Result<Vec<u8>, AllocError>
    requires { count ≤ 65536 }
    ensures words { IfOk result (λ text. text.items ≡ words (made.made_words count)) }
    ensures length { IfOk result (λ text. length text.items ≡ 24 * count + 12) }
{
    let mut text = Vec::new(alloc);
    push_blocks(&mut text, count)?;
    push_end(&mut text)?;
    Ok(text)
}

/// Appends all blocks.
fn push_blocks(text: &mut Vec<u8>, count: u32) -> Result<(), AllocError>
    requires { count ≤ 65536 }
    ensures { OnOk result (text.new.items ≡ text.old.items
        ++ words (made.blocks_from count 0 count count)) }
{
    let mut x = count;
    for number in 0..count {
        push_block(text, place(successor(count, number)), x)?;
        x = next(x);
    }
    Ok(())
}
