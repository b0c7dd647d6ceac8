ghost use Rattle.std.specs.Prelude.{◌≡◌, ◌≤◌, ◌∷◌, [], ℕ, None, IfOk, IsTrue, OnOk, OnErr, IfErr};
ghost use Rattle.jvm_definition.specs.Values.{is_pages_reference, reference_value};
ghost use Rattle.jvm_definition.specs.HostMemory.{memory_of, byte_of};
ghost use Rattle.jvm_heap.specs.Regions.{heap_of};

use crate::cell::cell_of;
use int_region::{Mark, NoMemory, Place, Region};
use nv_events::View;
use nv_values::RegionWords;
use nv_words::{lane, with_lane};
use std::alloc::Global;
use std::marker::Model;

/// The arrays of a program, and the two arrays of pages that a call of the system may use.
///
/// An element of an array of arrays is null or an array of ints. All memory is taken by `new`.
#[derive(Drop)]
pub struct Heap {
    pub(crate) region: Region,
    /// The pages that can be read, while a call is made.
    readable: Option<u32>,
    /// The pages that may be written, while a call is made.
    writable: Option<u32>,
}

impl Model for Heap {
    ghost use Rattle.jvm_heap.specs.Heaps.{Held, IsSafe};

    ghost Value = { Held };

    ghost view = { λ h. record {
      region = h.region;
      readable = h.readable;
      writable = h.writable;
    } };

    ghost invariant = { λ h. IsSafe h.region h.readable h.writable };
}

impl Heap {
    ghost use Rattle.jvm_heap.specs.Heaps.{nothing_in, IsTable, IsSafe};

    /// No arrays, in a region of so many words.
    pub fn new(alloc: Global, words: RegionWords) -> Result<Heap, NoMemory>
        ensures { IfOk result (λ heap. heap ≡ nothing_in words) }
    {
        let region = Region::new(alloc, words)?;
        Ok(Heap {
            region,
            readable: None,
            writable: None,
        })
    }

    /// How many words the region has.
    pub fn size(&self) -> u64
        ensures value { result ≡ self.now.region.size }
        ensures safe { IsSafe self.now.region self.now.readable self.now.writable }
    {
        self.region.size()
    }

    /// Ends all arrays.
    pub fn clear(&mut self)
        ensures { self.new ≡ nothing_in self.old.region.size }
    {
        self.region.release(Mark(0));
        self.readable = None;
        self.writable = None;
    }

    /// The arrays of pages that a call of the system may use; None for null.
    pub fn open(&mut self, readable: Option<u32>, writable: Option<u32>)
        requires reads { IsTrue
            (is_pages_reference (heap_of self.old.region.arrays) (reference_value readable)) }
        requires writes { IsTrue
            (is_pages_reference (heap_of self.old.region.arrays) (reference_value writable)) }
        ensures { self.new
            ≡ record { region = self.old.region; readable = readable; writable = writable } }
    {
        self.readable = readable;
        self.writable = writable;
    }

    /// The call is over.
    pub fn close(&mut self)
        ensures { self.new ≡ record { region = self.old.region; readable = None; writable = None } }
    {
        self.readable = None;
        self.writable = None;
    }

    /// The byte at an address, through an array of pages.
    fn byte_through(&self, table: Option<u32>, at: u32) -> Option<u8>
        requires { IsTable self.now.region.arrays table }
        ensures { result ≡ byte_of (heap_of self.now.region.arrays) table at }
    {
        let cell = cell_of(&self.region, table, at)?;
        Some(lane(cell.word, at % 4))
    }
}

impl View for Heap {
    ghost use Rattle.jvm_heap.specs.Heaps.{Seen, seen, with_seen_byte};

    ghost Content = { Seen };

    ghost content = { seen };

    ghost memory = { λ c. memory_of c.memory };

    ghost put_at = { with_seen_byte };

    fn byte(&self, at: u32) -> Option<u8> {
        match self.byte_through(self.readable, at) {
            Some(b) => Some(b),
            None => self.byte_through(self.writable, at),
        }
    }

    fn writable(&self, at: u32) -> bool {
        self.byte_through(self.writable, at).is_some()
    }

    fn put(&mut self, at: u32, b: u8) -> bool {
        match cell_of(&self.region, self.writable, at) {
            Some(cell) => {
                let word = with_lane(cell.word, at % 4, b);
                self.region.put(Place(cell.place), cell.index, word);
                true
            }
            None => false,
        }
    }

    fn laws(&self) {}
}
