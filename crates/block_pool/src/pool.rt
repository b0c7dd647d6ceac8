ghost use Rattle.std.specs.Prelude.{◌≡◌, ◌≤◌, ◌<◌, ◌+◌, ◌∷◌, ◌↔◌, None, Some, IfOk, OnErr, IsErr, IsTrue, length, slice_index, slice_set, slice_range};
ghost use Rattle.block_pool.specs.Bytes.{overwritten};
ghost use Rattle.block_pool.specs.Blocks.{untouched, block_at, IsUsed, is_free, bytes_of, new_block, next_of, with_bytes, with_next, free_count, used_count, IsSound};

use crate::block::Block;
use std::alloc::{AllocError, Global};
use std::marker::Model;

/// The allocator had no room.
pub type NoMemory = AllocError;

/// No block of the pool is free.
#[derive(Clone, Copy, Debug, PartialEq, Eq)]
pub struct NoBlock;

/// Numbered blocks of 4,096 bytes, each free or in use.
///
/// A block in use has its bytes and may name a block that follows it, so that a file is a chain of blocks. All memory
/// is taken by `new`.
#[derive(Drop)]
pub struct Blocks {
    /// The blocks that were ever taken, by number: None where one was given back.
    slots: Vec<Option<Block>>,
    /// The numbers of the blocks that were given back and not taken again, the last one at the end.
    given: Vec<u32>,
    size: u32,
}

impl Model for Blocks {
    ghost use Rattle.std.specs.Prelude.{vec_capacity};
    ghost use Rattle.block_pool.specs.Blocks.{Pool};
    ghost use Rattle.block_pool.specs.Kept.{pool_of, AreKeptBlocks};

    ghost Value = { Pool };

    ghost view = { λ a. pool_of a.slots.items a.given.items a.size };

    ghost invariant = { λ a. AreKeptBlocks a.slots.items a.given.items a.size (vec_capacity a.slots)
        (vec_capacity a.given) };
}

impl Blocks {
    /// A pool of `n` free blocks, at most 65,536.
    pub fn new(alloc: Global, n: u32) -> Result<Blocks, NoMemory>
        requires { n ≤ 65536 }
        ensures untouched { IfOk result (λ pool. pool ≡ untouched n) }
        ensures sound { IfOk result (λ pool. IsSound pool) }
    {
        let slots = Vec::with_capacity(alloc, n as usize)?;
        let given = Vec::with_capacity(alloc, n as usize)?;
        Ok(Blocks {
            slots,
            given,
            size: n,
        })
    }

    /// The number of a block that was free and is now in use, with zeros and with no next: the one that was given back
    /// last, otherwise the lowest that was never taken.
    pub fn take(&mut self) -> Result<u32, NoBlock>
        ensures first { IfOk result (λ b. self.old.order ≡ b ∷ self.new.order) }
        ensures was_free { IfOk result (λ b. IsTrue (is_free self.old b)) }
        ensures zeroed { IfOk result (λ b. self.new.blocks
            ≡ slice_set self.old.blocks b (Some new_block)) }
        ensures count { IfOk result (λ _. free_count self.new + 1 ≡ free_count self.old) }
        ensures sound { IsSound self.new }
        ensures none { IsErr result ↔ (free_count self.old ≡ 0) }
        ensures err { OnErr result (self.new ≡ self.old) }
    {
        if let Some(b) = self.given.pop() {
            self.slots[b as usize] = Some(Block::zeroed());
            return Ok(b);
        }
        let b = self.slots.len() as u32;
        if b == self.size {
            return Err(NoBlock);
        }
        self.slots.push_reserved(Some(Block::zeroed()));
        Ok(b)
    }

    /// Gives a block in use back: it is free, and the next one to be taken.
    pub fn give(&mut self, b: u32)
        requires { IsUsed self.old b }
        ensures freed { self.new.blocks ≡ slice_set self.old.blocks b None }
        ensures first { self.new.order ≡ b ∷ self.old.order }
        ensures count { free_count self.new ≡ free_count self.old + 1 }
        ensures sound { IsSound self.new }
    {
        self.slots[b as usize] = None;
        self.given.push_reserved(b);
    }

    /// The byte at `at`, below 4,096, of a block in use.
    pub fn read(&self, b: u32, at: u32) -> u8
        requires used { IsUsed self.now b }
        requires within { at < 4096 }
        ensures { result ≡ slice_index (bytes_of self.now b) at }
    {
        self.bytes(b)[at as usize]
    }

    /// The 4,096 bytes of a block in use.
    pub fn bytes(&self, b: u32) -> &[u8]
        requires { IsUsed self.now b }
        ensures value { result.now ≡ bytes_of self.now b }
        ensures len { length result.now ≡ 4096 }
    {
        &self.block(b).bytes
    }

    /// Writes the byte at `at`, below 4,096, of a block in use.
    pub fn write(&mut self, b: u32, at: u32, v: u8)
        requires used { IsUsed self.old b }
        requires within { at < 4096 }
        ensures changed { self.new ≡ with_bytes self.old b (slice_set (bytes_of self.old b) at v) }
        ensures count { free_count self.new ≡ free_count self.old }
        ensures sound { IsSound self.new }
    {
        let Some(block) = &mut self.slots[b as usize] else {
            unreachable!()
        };
        block.bytes[at as usize] = v;
    }

    /// Writes the bytes of `from` into a block in use, from `at` on. They end within it.
    pub fn copy_in(&mut self, b: u32, at: u32, from: &[u8])
        requires used { IsUsed self.old b }
        requires within { at + length from.now ≤ 4096 }
        ensures changed { self.new
            ≡ with_bytes self.old b (overwritten (bytes_of self.old b) at from.now) }
        ensures count { free_count self.new ≡ free_count self.old }
        ensures sound { IsSound self.new }
    {
        let Some(block) = &mut self.slots[b as usize] else {
            unreachable!()
        };
        block.overwrite(at as usize, from);
    }

    /// Reads the bytes of a block in use from `at` on, as many as `to` has. They end within the block.
    pub fn copy_out(&self, b: u32, at: u32, to: &mut [u8])
        requires used { IsUsed self.now b }
        requires within { at + length to.old ≤ 4096 }
        ensures { to.new ≡ slice_range (bytes_of self.now b) at (at + length to.old) }
    {
        let start = at as usize;
        to.copy_from_slice(&self.bytes(b)[start..start + to.len()]);
    }

    /// Says which block follows a block in use. That it is in use too, or that the pool has it, is the caller's business.
    pub fn set_next(&mut self, b: u32, to: Option<u32>)
        requires { IsUsed self.old b }
        ensures changed { self.new ≡ with_next self.old b to }
        ensures count { free_count self.new ≡ free_count self.old }
        ensures sound { IsSound self.new }
    {
        let Some(block) = &mut self.slots[b as usize] else {
            unreachable!()
        };
        block.next = to;
    }

    /// The number of the block that follows a block in use.
    pub fn next(&self, b: u32) -> Option<u32>
        requires { IsUsed self.now b }
        ensures { result ≡ next_of self.now b }
    {
        self.block(b).next
    }

    /// How many blocks are free.
    pub fn free(&self) -> u32
        ensures count { result ≡ free_count self.now }
        ensures all { used_count self.now + result ≡ length self.now.blocks }
        ensures sound { IsSound self.now }
    {
        self.size - self.slots.len() as u32 + self.given.len() as u32
    }

    fn block(&self, b: u32) -> &Block
        requires { IsUsed self.now b }
        ensures { block_at self.now b ≡ Some result.now }
    {
        let Some(block) = &self.slots[b as usize] else {
            unreachable!()
        };
        block
    }
}
