//! The blocks of one file: each names the one that follows it.

ghost use Rattle.std.specs.Prelude.{◌≡◌, ◌≢◌, ℕ, ◌+◌, ◌<◌, ◌≤◌, ◌-◌, ◌%◌, ◌*◌, length, take, IfOk};
ghost use Rattle.unix_definition.specs.Files.{blocks_for};
ghost use Rattle.block_pool.specs.Blocks.{IsUsed, IsSound, block_at, free_count};
ghost use Rattle.unix_files.specs.Stored.{empty_chain, blocks_in, block_after, looked_up, marked, file_bytes, IsChain, Changes, begun, overwritten};

use block_pool::Blocks;
use std::alloc::{AllocError, Global};

/// The bytes in a block.
pub const BLOCK: u32 = 4096;

/// Every so many blocks of a file one is marked, as long as there are marks: a file of 65,536 blocks has them all.
const SPAN: u32 = 256;

const MARKS: u32 = 256;

/// Where the bytes of a file are. Of an empty file only the length is looked at.
#[derive(Clone, Copy, Debug, PartialEq, Eq)]
pub struct Chain {
    /// The block of the first bytes.
    pub first: u32,
    /// The block of the last bytes.
    pub last: u32,
    /// The block that was looked at last, and which one of the chain it is, counted from 0.
    pub near: u32,
    pub near_index: u32,
    /// The block with number 0, that with number 256 and so on, as far as there are blocks. What stands behind them is not looked at.
    pub marks: [u32; 256],
    /// The bytes of the file.
    pub size: u32,
}

impl Chain {
    pub fn empty() -> Chain
        ensures { result ≡ empty_chain }
    {
        Chain {
            first: 0,
            last: 0,
            near: 0,
            near_index: 0,
            marks: [0; 256],
            size: 0,
        }
    }

    /// The chain's block with this number, from 0. The walk to it is short, wherever it is: it begins at a mark, or nearer.
    pub fn block(&self, pool: &Blocks, index: u32) -> u32
        requires whole { IsChain pool.now self.now }
        requires within { index < blocks_in self.now }
        ensures { result ≡ block_after pool.now self.now.first index }
    {
        let mark = mark_before(index);
        if self.near_index <= index && mark * SPAN <= self.near_index {
            walk(pool, self.near, index - self.near_index)
        } else {
            walk(pool, self.marks[mark as usize], index - mark * SPAN)
        }
    }

    /// Looks up the chain's block with this number, from 0.
    pub fn look_up(&mut self, pool: &Blocks, index: u32)
        requires whole { IsChain pool.now self.old }
        requires within { index < blocks_in self.old }
        ensures { self.new ≡ looked_up pool.now self.old index }
    {
        self.near = self.block(pool, index);
        self.near_index = index;
    }

    /// The bytes of the file, in memory of their own.
    pub fn bytes(&self, pool: &Blocks, alloc: Global) -> Result<Vec<u8>, AllocError>
        requires sound { IsSound pool.now }
        requires whole { IsChain pool.now self.now }
        ensures { IfOk result (λ bytes. bytes.items ≡ file_bytes pool.now self.now) }
    {
        let mut bytes = Vec::with_capacity(alloc, self.size as usize)?;
        let mut block = self.first;
        for index in 0..blocks_for(self.size) {
            let (here, _) = pool.bytes(block).split_at(bytes_in(self.size, index));
            bytes.extend_from_slice(here)?;
            block = pool.next(block).unwrap_or(0);
        }
        Ok(bytes)
    }
}

/// The mark from which a walk to the block with this number begins: fewer than 256 blocks are between them.
fn mark_before(index: u32) -> u32
    ensures within { result < 256 }
    ensures before { 256 * result ≤ index }
    ensures near { index < 65536 → index < 256 * result + 256 }
{
    let mark = index / SPAN;
    if mark < MARKS { mark } else { MARKS - 1 }
}

/// Marks the block with this number, from 0, if it is one to be marked.
fn mark(marks: &mut [u32], index: u32, block: u32)
    requires { length marks.old ≡ 256 }
    ensures { marks.new ≡ marked marks.old index block }
{
    if index % SPAN == 0 && index / SPAN < MARKS {
        marks[(index / SPAN) as usize] = block;
    }
}

/// How many of so many bytes are in the block with this number, from 0.
fn bytes_in(size: u32, index: u32) -> usize
    requires { index < blocks_for size }
    ensures within { result ≤ 4096 }
    ensures end { 4096 * index + result ≤ size }
    ensures full { result < 4096 → 4096 * index + result ≡ size }
{
    let rest = size - index * BLOCK;
    if rest < BLOCK {
        rest as usize
    } else {
        BLOCK as usize
    }
}

/// The block that comes so many after another one.
fn walk(pool: &Blocks, from: u32, steps: u32) -> u32
    requires { (k : ℕ) → k < steps → IsUsed pool.now (block_after pool.now from k) }
    ensures { result ≡ block_after pool.now from steps }
{
    let mut block = from;
    for _ in 0..steps {
        block = pool.next(block).unwrap_or(0);
    }
    block
}

/// A chain of one block, which is the file's first.
fn begun(block: u32, size: u32) -> Chain
    ensures { result ≡ begun block size }
{
    Chain {
        first: block,
        last: block,
        near: block,
        near_index: 0,
        marks: [block; 256],
        size,
    }
}

/// Writes bytes into a file from a place on: over those that are there, and after the last one. All of them are in one
/// block.
pub(crate) fn write(pool: &mut Blocks, chain: &mut Chain, at: u32, bytes: &[u8])
    requires sound { IsSound pool.old }
    requires whole { IsChain pool.old chain.old }
    requires within { at ≤ chain.old.size }
    requires some { 0 < length bytes.now }
    requires one { at % 4096 + length bytes.now ≤ 4096 }
    requires small { at + length bytes.now ≤ 0x7FFFFFFF }
    requires room { blocks_for (at + length bytes.now)
        ≤ blocks_for chain.old.size + free_count pool.old }
    ensures changes { Changes pool.old pool.new chain.old chain.new }
    ensures bytes { file_bytes pool.new chain.new
        ≡ overwritten (file_bytes pool.old chain.old) at bytes.now }
{
    let index = at / BLOCK;
    if index < blocks_for(chain.size) {
        chain.look_up(pool, index);
        pool.copy_in(chain.near, at % BLOCK, bytes);
        chain.size = greater(chain.size, at + bytes.len() as u32);
    } else {
        add_block(pool, chain, bytes);
    }
}

/// The greater of two sizes.
fn greater(size: u32, end: u32) -> u32
    ensures { result ≡ size + (end - size) }
{
    if size < end { end } else { size }
}

/// Puts one more block behind a chain whose blocks are full. It begins with these bytes.
fn add_block(pool: &mut Blocks, chain: &mut Chain, bytes: &[u8])
    requires sound { IsSound pool.old }
    requires whole { IsChain pool.old chain.old }
    requires some { 0 < length bytes.now }
    requires one { length bytes.now ≤ 4096 }
    requires small { chain.old.size + length bytes.now ≤ 0x7FFFFFFF }
    requires full { chain.old.size % 4096 ≡ 0 }
    requires room { 1 ≤ free_count pool.old }
    ensures changes { Changes pool.old pool.new chain.old chain.new }
    ensures bytes { file_bytes pool.new chain.new
        ≡ overwritten (file_bytes pool.old chain.old) chain.old.size bytes.now }
{
    let Ok(block) = pool.take() else {
        unreachable!()
    };
    pool.copy_in(block, 0, bytes);
    if chain.size == 0 {
        *chain = begun(block, bytes.len() as u32);
        return;
    }
    pool.set_next(chain.last, Some(block));
    let index = chain.size / BLOCK;
    mark(&mut chain.marks, index, block);
    chain.last = block;
    chain.near = block;
    chain.near_index = index;
    chain.size += bytes.len() as u32;
}

/// How many blocks so many bytes need.
pub fn blocks_for(size: u32) -> u32
    ensures { result ≡ blocks_for size }
{
    if size % BLOCK == 0 {
        size / BLOCK
    } else {
        size / BLOCK + 1
    }
}

/// Cuts a file to its first bytes. The blocks that it no longer needs are given back.
pub(crate) fn shorten(pool: &mut Blocks, chain: &mut Chain, size: u32)
    requires sound { IsSound pool.old }
    requires whole { IsChain pool.old chain.old }
    requires fewer { size ≤ chain.old.size }
    ensures changes { Changes pool.old pool.new chain.old chain.new }
    ensures bytes { file_bytes pool.new chain.new ≡ take size (file_bytes pool.old chain.old) }
{
    let kept = blocks_for(size);
    let surplus = blocks_for(chain.size) - kept;
    if surplus == 0 {
        chain.size = size;
        return;
    }
    let last = if kept == 0 {
        0
    } else {
        chain.block(pool, kept - 1)
    };
    let first = chain.block(pool, kept);
    release(pool, first, surplus);
    chain.last = last;
    chain.near = chain.first;
    chain.near_index = 0;
    chain.size = size;
}

/// Gives back so many blocks, each of which names the next one.
fn release(pool: &mut Blocks, first: u32, count: u32)
    requires sound { IsSound pool.old }
    requires used { (k : ℕ) → k < count → IsUsed pool.old (block_after pool.old first k) }
    requires once { (k j : ℕ) → k < count → j < count
        → block_after pool.old first k ≡ block_after pool.old first j → k ≡ j }
    ensures sound { IsSound pool.new }
    ensures others { (b : ℕ) → ((k : ℕ) → k < count → block_after pool.old first k ≢ b)
        → block_at pool.new b ≡ block_at pool.old b }
    ensures free { free_count pool.new ≡ free_count pool.old + count }
{
    let mut block = first;
    for _ in 0..count {
        let next = pool.next(block).unwrap_or(0);
        pool.give(block);
        block = next;
    }
}
