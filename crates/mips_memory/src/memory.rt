ghost use Rattle.std.specs.Prelude.{◌≡◌, ◌≢◌, Ok, ℕ, ◌+◌, ◌*◌, ◌<◌, length, Option, Some, None, MatchOption, IfOk, OnOk, OnErr, IsTrue, is_none, is_some, ◌&&◌, true, false, slice_index, slice_index_or, if◌then◌else◌};
ghost use Rattle.mips_definition.specs.Loads.{load_aligned, loaded_word, store_aligned, store_allowed, memory_stored};
ghost use Rattle.run_definition.specs.Question.{asked};
ghost use Rattle.nv_events.specs.Serving.{Serves, Causes, NoneFalls};
ghost use Rattle.mips_definition.specs.Memory.{with_byte};
ghost use Rattle.mips_memory.specs.Pages.{IsSound, entry, cell, memory_of, put_byte_at, shift_of, is_writable, no_memory, with_page, with_zero_page};

use crate::accesses::{from_bytes, into_bytes, put_words};
use crate::alignment::{is_load_aligned, is_store_aligned};
use crate::page::Page;
use crate::paging::{PAGE_BYTES, PAGES, PAST_PAGES, shift_to, shifted_place};
use mips_decode::{LoadName, StoreName};
use nv_events::{Call, IoFault, Server, View};
use nv_words::Order;
use std::alloc::{AllocError, Global};
use std::marker::Model;

/// There was no memory for what was asked.
pub type NoMemory = AllocError;

/// The bytes of a guest program, in pages of 4,096 below address 80000000 (hexadecimal), of which each may be written or only be
/// read.
///
/// A contract sees it through `memory_of`: the byte at each address that can be read, and which addresses may be written.
/// Only `new`, `map_page` and `map_zero_page` take memory.
#[derive(Drop)]
pub struct GuestMemory {
    table: Vec<Page>,
    bytes: Vec<u8>,
}

impl Model for GuestMemory {
    ghost use Rattle.mips_memory.specs.Pages.{Pages, IsSound};

    ghost Value = { Pages };

    ghost view = { λ m. record { table = m.table.items; bytes = m.bytes.items } };

    ghost invariant = { λ m. IsSound (record { table = m.table.items; bytes = m.bytes.items }) };
}

impl GuestMemory {
    /// A memory of no pages, with room for the bytes of so many.
    ///
    /// # Errors
    ///
    /// NoMemory.
    pub fn new(alloc: Global, room: u32) -> Result<GuestMemory, NoMemory>
        ensures { IfOk result (λ m. memory_of m ≡ no_memory) }
    {
        Ok(GuestMemory {
            table: no_pages(alloc, PAGES)?,
            bytes: Vec::with_capacity(alloc, PAGE_BYTES * room as usize)?,
        })
    }

    /// Adds a page, by its number, with its words in the order of their addresses.
    ///
    /// # Errors
    ///
    /// NoMemory, and the memory is as before.
    pub fn map_page(&mut self, page: u32, writable: bool, words: &[u32]) -> Result<(), NoMemory>
        requires low { page < 524288 }
        requires whole { length words.now ≡ 1024 }
        requires fresh { (memory_of self.old).byte (page * 4096) ≡ None }
        ensures ok { OnOk result (memory_of self.new
            ≡ with_page (memory_of self.old) page writable words.now) }
        ensures err { OnErr result (memory_of self.new ≡ memory_of self.old) }
    {
        let place = self.grow()?;
        put_words(&mut self.bytes, place as usize, words);
        self.table[page as usize] = page_at(shift_to(page, place), writable);
        Ok(())
    }

    /// Adds a page of zeros, by its number.
    ///
    /// # Errors
    ///
    /// NoMemory, and the memory is as before.
    pub fn map_zero_page(&mut self, page: u32, writable: bool) -> Result<(), NoMemory>
        requires low { page < 524288 }
        requires fresh { (memory_of self.old).byte (page * 4096) ≡ None }
        ensures ok { OnOk result (memory_of self.new
            ≡ with_zero_page (memory_of self.old) page writable) }
        ensures err { OnErr result (memory_of self.new ≡ memory_of self.old) }
    {
        let place = self.grow()?;
        self.table[page as usize] = page_at(shift_to(page, place), writable);
        Ok(())
    }

    /// Adds the bytes of a page, all 0, after the others, and says where.
    fn grow(&mut self) -> Result<u32, NoMemory>
        ensures sound { IsSound self.old }
        ensures place { IfOk result (λ place. place ≡ length self.old.bytes) }
        ensures size { OnOk result (length self.new.bytes ≡ length self.old.bytes + 4096) }
        ensures table { self.new.table ≡ self.old.table }
        ensures bytes { (k : ℕ) → slice_index self.new.bytes k ≡ slice_index self.old.bytes k }
        ensures err { OnErr result (self.new ≡ self.old) }
    {
        // all pages together have fewer than 2^32 bytes
        let Ok(place) = u32::try_from(self.bytes.len()) else {
            return Err(AllocError);
        };
        self.bytes.resize(place as usize + PAGE_BYTES, 0)?;
        Ok(place)
    }

    /// What a register holds after a load from an address, in the given order of bytes, by what it held before; None where the address is
    /// not aligned, or cannot be read.
    #[inline(always)]
    pub fn load(&self, name: LoadName, order: Order, at: u32, old: u32) -> Option<u32>
        ensures { result ≡ (if load_aligned name at && is_some ((memory_of self.now).byte at)
            then Some (loaded_word name order (memory_of self.now) at old) else None) }
    {
        // one look at its bits says both
        let fits = is_load_aligned(name, at) && at < PAST_PAGES;
        if fits {
            self.aligned_load(name, order, at, old)
        } else {
            None
        }
    }

    /// The same from an aligned address.
    #[inline(always)]
    fn aligned_load(&self, name: LoadName, order: Order, at: u32, old: u32) -> Option<u32>
        requires { IsTrue (load_aligned name at) }
        ensures { result ≡ (if is_none ((memory_of self.now).byte at) then None
            else Some (loaded_word name order (memory_of self.now) at old)) }
    {
        match self.readable_cell(at) {
            Some(cell) => Some(from_bytes(name, order, &self.bytes, cell, old)),
            None => None,
        }
    }

    /// Stores a register's word at an address, in the given order of bytes; false, with nothing changed, where the address is not aligned, or a
    /// byte of it may not be written.
    #[inline(always)]
    pub fn store(&mut self, name: StoreName, order: Order, at: u32, w: u32) -> bool
        ensures answer { result
            ≡ (store_aligned name at && store_allowed name order (memory_of self.old) at) }
        ensures after { memory_of self.new
            ≡ (if result then memory_stored name order (memory_of self.old) at w else memory_of self.old) }
    {
        // one look at its bits says both
        let fits = is_store_aligned(name, at) && at < PAST_PAGES;
        fits && self.aligned_store(name, order, at, w)
    }

    /// The same at an aligned address.
    #[inline(always)]
    fn aligned_store(&mut self, name: StoreName, order: Order, at: u32, w: u32) -> bool
        requires { IsTrue (store_aligned name at) }
        ensures answer { result ≡ store_allowed name order (memory_of self.old) at }
        ensures after { memory_of self.new
            ≡ (if result then memory_stored name order (memory_of self.old) at w else memory_of self.old) }
    {
        match self.writable_cell(at) {
            Some(cell) => {
                into_bytes(name, order, &mut self.bytes, cell, w);
                true
            }
            None => false,
        }
    }

    /// Whether a store at an address, in the given order of bytes, would be done: each byte of it may be written.
    #[inline]
    pub fn may_store(&self, name: StoreName, order: Order, at: u32) -> bool
        requires { IsTrue (store_aligned name at) }
        ensures { result ≡ store_allowed name order (memory_of self.now) at }
    {
        self.writable(at)
    }

    /// Lets a server answer a call of the program.
    #[inline]
    pub fn answer<V: Server>(&mut self, call: &Call, server: &mut V) -> Result<Option<i32>, IoFault>
        requires not_exit { call.now.number ≢ 1 }
        requires usable { V.usable server.old }
        ensures served { Serves V.goes V.held V.fell with_byte (asked call.now (memory_of self.old))
            server.old server.new (memory_of self.old) (memory_of self.new) result }
        ensures causes { Causes (V.faults server.old) (V.faults server.new) result }
        ensures none_falls { NoneFalls (V.faults server.old) (V.faults server.new) }
        ensures ready { IsTrue (V.ready server.old) → result ≢ Ok None }
        ensures ready_stays { V.ready server.new ≡ V.ready server.old }
        ensures usable_stays { OnOk result (V.usable server.new) }
        ensures keeps { V.keeps server.old server.new }
    {
        self.see();
        server.serve(call, self)
    }

    /// Does nothing: the memory's pages are sound.
    fn see(&self)
        ensures { IsSound self.now }
    {
        let _ = &self.bytes;
    }

    /// The page of a number.
    #[inline(always)]
    #[tactic(auto, unfolding(crate::specs::Pages::entry))]
    fn page(&self, number: u32) -> Page
        ensures { result ≡ entry self.now number }
    {
        // a test by a constant number, which can be made one with others
        if number < PAGES as u32 {
            self.table[number as usize]
        } else {
            Page::Unmapped
        }
    }

    /// Where the byte of an address is, if it can be read.
    #[inline(always)]
    #[tactic(auto, unfolding(crate::specs::Pages::cell))]
    fn readable_cell(&self, at: u32) -> Option<usize>
        ensures { result ≡ cell self.now at }
    {
        match self.page(at >> 12) {
            Page::Unmapped => None,
            Page::ReadOnly(shift) | Page::Writable(shift) => Some(shifted_place(at, shift)),
        }
    }

    /// Where the byte of an address is, if it may be written.
    #[inline(always)]
    #[tactic(auto, unfolding(crate::specs::Pages::cell, crate::specs::Pages::memory_of))]
    fn writable_cell(&self, at: u32) -> Option<usize>
        ensures { MatchOption result ((memory_of self.now).writable at
            ≡ false) (λ i. ((memory_of self.now).writable at ≡ true)
            × (cell self.now at ≡ Some i)) }
    {
        match self.page(at >> 12) {
            Page::Writable(shift) => Some(shifted_place(at, shift)),
            _ => None,
        }
    }
}

/// It shows the bytes that can be read.
impl View for GuestMemory {
    ghost use Rattle.mips_memory.specs.Pages.{Pages, memory_of, put_byte_at};

    ghost Content = { Pages };

    ghost content = { λ m. m };

    ghost memory = { memory_of };

    ghost put_at = { put_byte_at };

    #[inline(always)]
    #[tactic(auto, unfolding(crate::specs::Pages::memory_of))]
    fn byte(&self, at: u32) -> Option<u8> {
        match self.readable_cell(at) {
            Some(cell) => Some(self.bytes[cell]),
            None => None,
        }
    }

    #[inline]
    fn writable(&self, at: u32) -> bool {
        self.writable_cell(at).is_some()
    }

    // a byte that is put changes that byte alone
    #[inline]
    fn put(&mut self, at: u32, b: u8) -> bool
        ensures answer { result ≡ (memory_of self.old).writable at }
        ensures after { self.new ≡ (if result then put_byte_at self.old at b else self.old) }
        ensures alone { memory_of self.new
            ≡ (if result then with_byte (memory_of self.old) at b else memory_of self.old) }
    {
        match self.writable_cell(at) {
            Some(cell) => {
                self.bytes[cell] = b;
                true
            }
            None => false,
        }
    }

    fn laws(&self) {}
}

/// The page whose bytes are shifted by so much.
fn page_at(shift: u32, writable: bool) -> Page
    ensures there { shift_of result ≡ Some shift }
    ensures kind { is_writable result ≡ writable }
{
    if writable {
        Page::Writable(shift)
    } else {
        Page::ReadOnly(shift)
    }
}

/// A table of so many pages that are not there.
fn no_pages(alloc: Global, n: usize) -> Result<Vec<Page>, NoMemory>
    ensures size { IfOk result (λ table. length table.items ≡ n) }
    ensures empty { IfOk result (λ table. (i : ℕ)
        → slice_index_or table.items i Page.Unmapped ≡ Page.Unmapped) }
{
    vec![in alloc; Page::Unmapped; n]
}
