ghost use Rattle.std.specs.Prelude.{◌≡◌, ◌<◌, ◌≤◌, ◌+◌, [], length, replicate, IfOk, None, Some, IsSome, IfSome, is_some, is_none, position, vec_len, IsTrue, slice_index};
ghost use Rattle.unix_definition.specs.Files.{node_named, node_at, bytes_at, node_name, free_node, with_node, with_name, with_bytes, has_blocks, resized, written, blocks_for};
ghost use Rattle.unix_files.specs.Kept.{entry_at, entry_name, entry_has_name};

use crate::chain;
use crate::name::Name;
use crate::store::{NODES, NoMemory, Store};
use std::alloc::Global;
use std::marker::Model;

/// A file of the disk: its name, while it has one. Its bytes are in the store, under the same number.
#[derive(Drop)]
pub struct Entry {
    pub name: Option<Name>,
}

/// The files of a small disk, by number and by name. All memory is taken by `new`.
#[derive(Drop)]
pub struct Disk {
    entries: Vec<Option<Entry>>,
    store: Store,
}

impl Model for Disk {
    ghost use Rattle.unix_definition.specs.Files.{GuestFiles};

    ghost Value = { GuestFiles };

    ghost use Rattle.unix_files.specs.Kept.{files_of, IsKeptDisk};

    ghost view = { λ d. files_of d.entries.items d.store };

    ghost invariant = { λ d. IsKeptDisk d.entries.items d.store };
}

impl Disk {
    /// A disk without files, of so many free blocks, at most 65,536.
    pub fn new(alloc: Global, blocks: u32) -> Result<Disk, NoMemory>
        requires { blocks ≤ 65536 }
        ensures { IfOk result (λ disk. disk
            ≡ record { nodes = replicate 256 None; free = blocks }) }
    {
        let store = Store::new(alloc, blocks)?;
        let entries = no_entries(alloc)?;
        Ok(Disk { entries, store })
    }

    /// How many blocks are free.
    pub fn free(&self) -> u32
        ensures { result ≡ self.now.free }
    {
        self.store.free()
    }

    /// Whether there is a file of this number.
    pub fn has(&self, n: usize) -> bool
        ensures { result ≡ is_some (node_at self.now n) }
    {
        if n < NODES {
            is_entry(entry_of(&self.entries, n))
        } else {
            false
        }
    }

    /// Whether a file has a name.
    pub fn is_named(&self, n: usize) -> bool
        ensures { result ≡ is_some (node_name (node_at self.now n)) }
    {
        if n < NODES {
            has_any_name(entry_of(&self.entries, n))
        } else {
            false
        }
    }

    /// The lowest number that no file has.
    pub fn unused(&self) -> Option<usize>
        ensures value { result ≡ free_node self.now }
        ensures within { IfSome result (λ n. n < 256) }
    {
        unused_entry(&self.entries)
    }

    /// The file of a name.
    pub fn named(&self, name: &[u8]) -> Option<usize>
        ensures value { result ≡ node_named self.now name.now }
        ensures within { IfSome result (λ n. n < 256) }
    {
        entry_named(&self.entries, name)
    }

    /// The bytes of a file, none where there is no such file.
    pub fn size(&self, n: usize) -> u32
        ensures { result ≡ length (bytes_at self.now n) }
    {
        if n < NODES { self.store.size(n) } else { 0 }
    }

    /// Whether the blocks suffice for a file of `size` bytes in place of this one.
    pub fn has_blocks(&self, n: usize, size: u32) -> bool
        ensures { result ≡ has_blocks self.now n size }
    {
        let now = u64::from(chain::blocks_for(self.size(n)));
        u64::from(chain::blocks_for(size)) <= now + u64::from(self.free())
    }

    /// The byte of a file at a place.
    pub fn byte(&mut self, n: usize, at: u32) -> u8
        requires { at < length (bytes_at self.old n) }
        ensures value { result ≡ slice_index (bytes_at self.old n) at }
        ensures same { self.new ≡ self.old }
    {
        self.store.byte(n, at)
    }

    /// The bytes of a file, in memory of their own. There are none where there is no such file.
    pub fn bytes(&self, alloc: Global, n: usize) -> Result<Vec<u8>, NoMemory>
        ensures { IfOk result (λ bytes. bytes.items ≡ bytes_at self.now n) }
    {
        if n < NODES {
            self.store.bytes(alloc, n)
        } else {
            Ok(Vec::new(alloc))
        }
    }

    /// Names a file, which is made where it was not there.
    pub fn set_name(&mut self, n: usize, name: &[u8])
        requires file { n < 256 }
        requires short { length name.now ≤ 255 }
        ensures { self.new ≡ with_name self.old n (Some name.now) }
    {
        self.entries[n] = Some(Entry {
            name: Some(Name::from_bytes(name)),
        });
    }

    /// Takes the name of a file away.
    pub fn unname(&mut self, n: usize)
        requires { n < 256 }
        ensures { self.new ≡ with_name self.old n None }
    {
        self.entries[n] = Some(Entry { name: None });
    }

    /// Drops a file.
    pub fn remove(&mut self, n: usize)
        ensures { self.new ≡ with_node self.old n None }
    {
        if n < NODES {
            self.store.cut(n, 0);
            self.entries[n] = None;
        }
    }

    /// Writes bytes into a file at a place. Zeros fill a gap before it.
    pub fn write(&mut self, n: usize, place: u32, bytes: &[u8])
        requires small { place + length bytes.now ≤ 0x7FFFFFFF }
        requires room { blocks_for (place + length bytes.now)
            ≤ blocks_for (length (bytes_at self.old n)) + self.old.free }
        ensures { self.new ≡ with_bytes self.old n (written (bytes_at self.old n) place bytes.now) }
    {
        if self.has(n) {
            self.write_there(n, place, bytes);
        }
    }

    fn write_there(&mut self, n: usize, place: u32, bytes: &[u8])
        requires file { IsSome (node_at self.old n) }
        requires small { place + length bytes.now ≤ 0x7FFFFFFF }
        requires room { blocks_for (place + length bytes.now)
            ≤ blocks_for (length (bytes_at self.old n)) + self.old.free }
        ensures { self.new ≡ with_bytes self.old n (written (bytes_at self.old n) place bytes.now) }
    {
        self.store.extend(n, place);
        self.store.write(n, place, bytes);
    }

    /// Cuts a file to its first `size` bytes, or puts zeros after them.
    pub fn resize(&mut self, n: usize, size: u32)
        requires small { size ≤ 0x7FFFFFFF }
        requires room { IsTrue (has_blocks self.old n size) }
        ensures { self.new ≡ with_bytes self.old n (resized (bytes_at self.old n) size) }
    {
        if self.has(n) {
            self.resize_there(n, size);
        }
    }

    fn resize_there(&mut self, n: usize, size: u32)
        requires file { IsSome (node_at self.old n) }
        requires small { size ≤ 0x7FFFFFFF }
        requires room { IsTrue (has_blocks self.old n size) }
        ensures { self.new ≡ with_bytes self.old n (resized (bytes_at self.old n) size) }
    {
        if size < self.store.size(n) {
            self.store.cut(n, size);
        } else {
            self.store.extend(n, size);
        }
    }
}

fn no_entries(alloc: Global) -> Result<Vec<Option<Entry>>, NoMemory>
    ensures { IfOk result (λ entries. entries.items ≡ replicate 256 None) }
{
    let mut entries = Vec::with_capacity(alloc, NODES)?;
    for _ in 0..NODES {
        entries.push(None)?;
    }
    Ok(entries)
}

fn entry_of(entries: &Vec<Option<Entry>>, n: usize) -> &Option<Entry>
    requires { n < vec_len entries.now }
    ensures { result.now ≡ entry_at entries.now.items n }
{
    &entries[n]
}

fn unused_entry(entries: &Vec<Option<Entry>>) -> Option<usize>
    ensures value { result ≡ position is_none entries.now.items }
    ensures within { IfSome result (λ n. n < vec_len entries.now) }
{
    entries.iter().position(|entry| entry.is_none())
}

fn entry_named(entries: &Vec<Option<Entry>>, name: &[u8]) -> Option<usize>
    ensures value { result ≡ position (entry_has_name name.now) entries.now.items }
    ensures within { IfSome result (λ n. n < vec_len entries.now) }
{
    entries.iter().position(|entry| has_name(entry, name))
}

fn is_entry(entry: &Option<Entry>) -> bool
    ensures { result ≡ is_some entry.now }
{
    entry.is_some()
}

fn has_any_name(entry: &Option<Entry>) -> bool
    ensures { result ≡ is_some (entry_name entry.now) }
{
    match entry {
        Some(entry) => entry.name.is_some(),
        None => false,
    }
}

fn has_name(entry: &Option<Entry>, name: &[u8]) -> bool
    ensures { result ≡ entry_has_name name.now entry.now }
{
    match entry {
        Some(entry) => match &entry.name {
            Some(own) => own.as_bytes() == name,
            None => false,
        },
        None => false,
    }
}
