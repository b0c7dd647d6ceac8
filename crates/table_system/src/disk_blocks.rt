//! The blocks of a guest's disk. Their calls owe something to each other, so a row names calls that are here.
ghost use Rattle.std.specs.Prelude.{◌≤◌, ◌+◌};
ghost use Rattle.block_pool.specs.Blocks.{IsUsed};

use anyhow::{Result, bail, ensure};
use block_pool::{Blocks, NoBlock};
use std::alloc::{AllocError, Global};
use std::fmt::Write;
use table_rows::{count, hex_of, word};
use unix_files::Disk;

/// `disk free BLOCKS`, `disk take BLOCKS`, `disk again`, `disk order` or `disk copies`.
pub fn disk_row(alloc: Global, text: &mut String, row: &str) -> Result<()> {
    match word(row, 1) {
        "free" => push_free(alloc, text, count(row, 2)),
        "take" => push_taken(alloc, text, count(row, 2)),
        "again" => push_again(alloc, text),
        "order" => push_order(alloc, text),
        "copies" => push_copies(alloc, text),
        _ => bail!("no such row"),
    }
}

/// How many blocks of a new disk are free.
fn push_free(alloc: Global, text: &mut String, blocks: u32) -> Result<()> {
    ensure!(blocks <= 65_536, "no lawful disk");
    let free = Disk::new(alloc, blocks)?.free();
    write!(text, "{free}")?;
    Ok(())
}

/// How many blocks of a new pool come in order, and what comes then.
fn push_taken(alloc: Global, text: &mut String, blocks: u32) -> Result<()> {
    ensure!(blocks <= 65_536, "no lawful disk");
    let mut pool = Blocks::new(alloc, blocks)?;
    let taken = taken(&mut pool, blocks);
    let next = pool.take();
    write!(text, "{taken}, {next:?}")?;
    Ok(())
}

/// How many of so many blocks come in their turn.
fn taken(pool: &mut Blocks, blocks: u32) -> u32 {
    for number in 0..blocks {
        if pool.take() != Ok(number) {
            return number;
        }
    }
    blocks
}

/// The one block of a pool with a byte of it, and with that byte and what follows the block once it was given back and taken again.
fn push_again(alloc: Global, text: &mut String) -> Result<()> {
    let mut pool = Blocks::new(alloc, 1)?;
    let Ok(block) = pool.take() else {
        bail!("no block");
    };
    pool.write(block, 4095, 7);
    pool.set_next(block, Some(3));
    let Err(NoBlock) = pool.take() else {
        bail!("a second block");
    };
    let byte = pool.read(block, 4095);
    pool.give(block);
    write!(text, "{block}: {byte}; ")?;
    push_next(text, &mut pool)
}

/// The next block with its last byte and what follows it.
fn push_next(text: &mut String, pool: &mut Blocks) -> Result<()> {
    let Ok(block) = pool.take() else {
        bail!("no block again");
    };
    let (byte, next) = (pool.read(block, 4095), pool.next(block));
    write!(text, "{block}: {byte}, {next:?}")?;
    Ok(())
}

/// Three blocks of four; how many are free once the second and the first were given back, and which are taken then.
fn push_order(alloc: Global, text: &mut String) -> Result<()> {
    let mut pool = Blocks::new(alloc, 4)?;
    let (Ok(0), Ok(1), Ok(2)) = (pool.take(), pool.take(), pool.take()) else {
        bail!("they do not come in their turn");
    };
    pool.write(2, 0, 9);
    pool.set_next(2, Some(0));
    pool.give(1);
    pool.give(0);
    let free = pool.free();
    write!(text, "0 1 2; {free};")?;
    push_left(text, &mut pool)?;
    Ok(())
}

/// What four calls for a block give, and how many are left.
fn push_left(text: &mut String, pool: &mut Blocks) -> Result<(), AllocError> {
    for _ in 0..4 {
        let next = pool.take();
        write!(text, " {next:?}")?;
    }
    let left = pool.free();
    write!(text, "; {left}")
}

/// Three bytes over the end of what is copied into one block, three after the first one of another, the third byte there, and what follows
/// each.
fn push_copies(alloc: Global, text: &mut String) -> Result<()> {
    let mut pool = Blocks::new(alloc, 2)?;
    let Ok(low) = pool.take() else {
        bail!("no first block");
    };
    let Ok(high) = pool.take() else {
        bail!("no second block");
    };
    pool.copy_in(low, 4094, &[1, 2]);
    pool.copy_in(high, 0, &[3, 4, 5]);
    pool.set_next(low, Some(high));
    push_part(alloc, text, &pool, low, 4093)?;
    text.push_str(" ")?;
    push_part(alloc, text, &pool, high, 1)?;
    push_ends(text, &pool, low, high)?;
    Ok(())
}

/// Three bytes of a block from a place on.
fn push_part(alloc: Global, text: &mut String, pool: &Blocks, block: u32, at: u32) -> Result<()>
    requires used { IsUsed pool.now block }
    requires within { at + 3 ≤ 4096 }
{
    let mut bytes = [0u8; 3];
    pool.copy_out(block, at, &mut bytes);
    let digits = hex_of(alloc, &bytes)?;
    text.push_str(digits.as_str())?;
    Ok(())
}

/// The third byte of the second block, and what follows each.
fn push_ends(text: &mut String, pool: &Blocks, low: u32, high: u32) -> Result<(), AllocError>
    requires low { IsUsed pool.now low }
    requires high { IsUsed pool.now high }
{
    let (byte, next, last) = (pool.bytes(high)[2], pool.next(low), pool.next(high));
    write!(text, ", {byte}, {next:?}, {last:?}")
}
