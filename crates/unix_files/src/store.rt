ghost use Rattle.std.specs.Prelude.{◌≡◌, ◌<◌, ◌≤◌, ◌+◌, ◌-◌, ◌++◌, ◌%◌, [], length, take, replicate, IfOk, vec_len, slice_index};
ghost use Rattle.unix_definition.specs.Files.{blocks_for};
ghost use Rattle.unix_files.specs.Stored.{file_at, with_file, chain_at, overwritten};

use crate::chain::{self, BLOCK, Chain};
use block_pool::Blocks;
use std::alloc::{AllocError, Global};
use std::marker::Model;

/// The allocator had no room.
pub type NoMemory = AllocError;

/// How many files there are at most.
pub const NODES: usize = 256;

/// The bytes of files, by the numbers of the files from 0 to 255, in blocks of 4,096 bytes. All memory is taken by `new`.
#[derive(Drop)]
pub struct Store {
    pool: Blocks,
    chains: Vec<Chain>,
}

impl Model for Store {
    ghost use Rattle.unix_files.specs.Stored.{Contents, contents_of, IsLaid};

    ghost Value = { Contents };

    ghost view = { λ s. contents_of s.pool s.chains.items };

    ghost invariant = { λ s. IsLaid s.pool s.chains.items };
}

impl Store {
    /// Empty files over so many free blocks, at most 65,536.
    pub fn new(alloc: Global, blocks: u32) -> Result<Store, NoMemory>
        requires { blocks ≤ 65536 }
        ensures { IfOk result (λ store. store
            ≡ record { files = replicate 256 []; free = blocks }) }
    {
        let pool = Blocks::new(alloc, blocks)?;
        let chains = vec![in alloc; Chain::empty(); NODES]?;
        Ok(Store { pool, chains })
    }

    /// How many blocks are free.
    pub fn free(&self) -> u32
        ensures { result ≡ self.now.free }
    {
        self.pool.free()
    }

    /// The bytes of a file.
    pub fn size(&self, n: usize) -> u32
        requires { n < length self.now.files }
        ensures { result ≡ length (file_at self.now n) }
    {
        chain_of(&self.chains, n).size
    }

    /// The byte of a file at a place.
    pub fn byte(&mut self, n: usize, at: u32) -> u8
        requires file { n < length self.old.files }
        requires within { at < length (file_at self.old n) }
        ensures value { result ≡ slice_index (file_at self.old n) at }
        ensures same { self.new ≡ self.old }
    {
        let chain = &mut self.chains[n];
        chain.look_up(&self.pool, at / BLOCK);
        self.pool.read(chain.near, at % BLOCK)
    }

    /// The bytes of a file, in memory of their own.
    pub fn bytes(&self, alloc: Global, n: usize) -> Result<Vec<u8>, NoMemory>
        requires { n < length self.now.files }
        ensures { IfOk result (λ bytes. bytes.items ≡ file_at self.now n) }
    {
        chain_of(&self.chains, n).bytes(&self.pool, alloc)
    }

    /// Writes bytes over those of a file from a place on, and after the last one. All of them are in one block.
    fn put(&mut self, n: usize, at: u32, bytes: &[u8])
        requires file { n < length self.old.files }
        requires within { at ≤ length (file_at self.old n) }
        requires some { 0 < length bytes.now }
        requires one { at % 4096 + length bytes.now ≤ 4096 }
        requires small { at + length bytes.now ≤ 0x7FFFFFFF }
        requires room { blocks_for (at + length bytes.now)
            ≤ blocks_for (length (file_at self.old n)) + self.old.free }
        ensures { self.new ≡ with_file self.old n (overwritten (file_at self.old n) at bytes.now) }
    {
        chain::write(&mut self.pool, &mut self.chains[n], at, bytes);
    }

    /// Takes the bytes of a file away from a place on.
    pub fn cut(&mut self, n: usize, size: u32)
        requires file { n < length self.old.files }
        requires within { size ≤ length (file_at self.old n) }
        ensures { self.new ≡ with_file self.old n (take size (file_at self.old n)) }
    {
        chain::shorten(&mut self.pool, &mut self.chains[n], size);
    }

    /// Puts zeros after the bytes of a file until it has `size`.
    pub fn extend(&mut self, n: usize, size: u32)
        requires file { n < length self.old.files }
        requires small { size ≤ 0x7FFFFFFF }
        requires room { blocks_for size ≤ blocks_for (length (file_at self.old n)) + self.old.free }
        ensures { self.new ≡ with_file self.old n (file_at self.old n
            ++ replicate (size - length (file_at self.old n)) 0) }
    {
        let mut end = self.size(n);
        while end < size {
            let count = in_block(end, (size - end) as usize);
            self.push_zeros(n, count);
            end += count as u32;
        }
    }

    /// Puts so many zeros after the bytes of a file, all in one block.
    fn push_zeros(&mut self, n: usize, count: usize)
        requires file { n < length self.old.files }
        requires some { 0 < count }
        requires one { length (file_at self.old n) % 4096 + count ≤ 4096 }
        requires small { length (file_at self.old n) + count ≤ 0x7FFFFFFF }
        requires room { blocks_for (length (file_at self.old n) + count)
            ≤ blocks_for (length (file_at self.old n)) + self.old.free }
        ensures { self.new ≡ with_file self.old n (file_at self.old n ++ replicate count 0) }
    {
        let end = self.size(n);
        let zeros = [0; 4096];
        let (here, _) = zeros.split_at(count);
        self.put(n, end, here);
    }

    /// Writes bytes over those of a file from a place on, and after the last one where they go past it.
    pub fn write(&mut self, n: usize, place: u32, bytes: &[u8])
        requires file { n < length self.old.files }
        requires within { place ≤ length (file_at self.old n) }
        requires small { place + length bytes.now ≤ 0x7FFFFFFF }
        requires room { blocks_for (place + length bytes.now)
            ≤ blocks_for (length (file_at self.old n)) + self.old.free }
        ensures { self.new
            ≡ with_file self.old n (overwritten (file_at self.old n) place bytes.now) }
    {
        let mut done = 0;
        while done < bytes.len() {
            let at = place + done as u32;
            let count = in_block(at, bytes.len() - done);
            self.put(n, at, &bytes[done..done + count]);
            done += count;
        }
    }
}

/// How many of so many bytes from a place on are in its block.
fn in_block(at: u32, bytes: usize) -> usize
    ensures some { 0 < bytes → 0 < result }
    ensures within { result ≤ bytes }
    ensures one { at % 4096 + result ≤ 4096 }
{
    let room = (BLOCK - at % BLOCK) as usize;
    if bytes < room { bytes } else { room }
}

fn chain_of(chains: &Vec<Chain>, n: usize) -> &Chain
    requires { n < vec_len chains.now }
    ensures { result.now ≡ chain_at chains.now.items n }
{
    &chains[n]
}
