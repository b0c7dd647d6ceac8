ghost use Rattle.std.specs.Prelude.{◌≡◌, ◌≤◌, ◌<◌, ◌+◌, ◌∷◌, ◌++◌, ◌↔◌, ℕ, [], Some, IfOk, OnOk, OnErr, IsErr, length, slice_index, take};
ghost use Rattle.int_region.specs.Arrays.{used_by, array_at, IsLive, kind_at, values_at, zeros, with_value, IsMark, IsSound};
ghost use Rattle.int_region.specs.Kept.{words_of};

use nv_values::RegionWords;
use std::alloc::{AllocError, Global};
use std::marker::Model;

/// The allocator had no room.
pub type NoMemory = AllocError;

/// Where an array is: the number of words that the arrays before it use.
#[derive(Clone, Copy, Debug, PartialEq, Eq)]
pub struct Place(pub u32);

/// How many words were in use at some time.
#[derive(Clone, Copy, Debug, PartialEq, Eq)]
pub struct Mark(pub u64);

/// The region has no room for the array.
#[derive(Clone, Copy, Debug, PartialEq, Eq)]
pub struct Full;

/// Arrays of 32-bit words in one block of memory.
///
/// An array stays at its place until it is released, with all that were made after it. It uses two words more than it has
/// values. All memory is taken by `new`.
#[derive(Drop)]
pub struct Region {
    /// Of each array in turn its kind, its length and its values, and then words that no array uses.
    words: Vec<u32>,
    used: usize,
}

impl Model for Region {
    ghost use Rattle.int_region.specs.Arrays.{Contents};
    ghost use Rattle.int_region.specs.Kept.{contents_of, IsKeptRegion};

    ghost Value = { Contents };

    ghost view = { λ a. contents_of a.words.items a.used };

    ghost invariant = { λ a. IsKeptRegion a.words.items a.used };
}

impl Region {
    /// A region of so many words and no arrays.
    pub fn new(alloc: Global, words: RegionWords) -> Result<Region, NoMemory>
        ensures empty { IfOk result (λ region. region ≡ record { size = words; arrays = [] }) }
        ensures sound { IfOk result (λ region. IsSound region) }
    {
        let words = vec![in alloc; 0; words.get() as usize]?;
        Ok(Region { words, used: 0 })
    }

    /// Adds an array of zeros, of kind 0 for ints or 1 for references. It uses `len + 2` words.
    pub fn array(&mut self, kind: u32, len: u32) -> Result<Place, Full>
        requires { kind < 2 }
        ensures place { IfOk result (λ p. p.0 ≡ used_by self.old.arrays) }
        ensures added { OnOk result (self.new
            ≡ record self.old { arrays = self.old.arrays ++ zeros kind len ∷ [] }) }
        ensures made { IfOk result (λ p. array_at self.new.arrays p.0 ≡ Some (zeros kind len)) }
        ensures full { IsErr result ↔ (self.old.size < used_by self.old.arrays + (len + 2)) }
        ensures err { OnErr result (self.new ≡ self.old) }
        ensures sound { IsSound self.new }
    {
        let place = self.used;
        let end = place + len as usize + 2;
        if self.words.len() < end {
            return Err(Full);
        }
        spell(&mut self.words[place..end], kind, len);
        self.used = end;
        Ok(Place(place as u32))
    }

    /// The kind of a live array, 0 for ints and 1 for references.
    pub fn kind(&self, p: Place) -> u32
        requires { IsLive self.now.arrays p.0 }
        ensures { result ≡ kind_at self.now.arrays p.0 }
    {
        self.words[p.0 as usize]
    }

    /// How many values a live array has.
    pub fn len(&self, p: Place) -> u32
        requires { IsLive self.now.arrays p.0 }
        ensures { result ≡ length (values_at self.now.arrays p.0) }
    {
        self.words[p.0 as usize + 1]
    }

    /// The value at an index of a live array.
    pub fn get(&self, p: Place, i: u32) -> u32
        requires live { IsLive self.now.arrays p.0 }
        requires within { i < length (values_at self.now.arrays p.0) }
        ensures { result ≡ slice_index (values_at self.now.arrays p.0) i }
    {
        self.words[p.0 as usize + 2 + i as usize]
    }

    /// Writes the value at an index of a live array.
    pub fn put(&mut self, p: Place, i: u32, v: u32)
        requires live { IsLive self.old.arrays p.0 }
        requires within { i < length (values_at self.old.arrays p.0) }
        ensures changed { self.new
            ≡ record self.old { arrays = with_value self.old.arrays p.0 i v } }
        ensures sound { IsSound self.new }
    {
        self.words[p.0 as usize + 2 + i as usize] = v;
    }

    /// How many words the live arrays use.
    pub fn used(&self) -> u64
        ensures { result ≡ used_by self.now.arrays }
    {
        self.used as u64
    }

    /// How many words the region has.
    pub fn size(&self) -> u64
        ensures value { result ≡ self.now.size }
        ensures sound { IsSound self.now }
    {
        self.words.len() as u64
    }

    /// How many words are in use now, for a later `release`.
    pub fn mark(&self) -> Mark
        ensures { result.0 ≡ used_by self.now.arrays }
    {
        Mark(self.used as u64)
    }

    /// Ends the arrays that were made since the mark.
    pub fn release(&mut self, m: Mark)
        requires { IsMark self.old.arrays m.0 }
        ensures size { self.new.size ≡ self.old.size }
        ensures kept { (k : ℕ) → used_by (take k self.old.arrays) ≡ m.0
            → self.new.arrays ≡ take k self.old.arrays }
        ensures used { used_by self.new.arrays ≡ m.0 }
        ensures sound { IsSound self.new }
    {
        self.used = m.0 as usize;
    }
}

/// Writes an array of zeros into the words that it is to use.
fn spell(room: &mut [u32], kind: u32, len: u32)
    requires { length room.old ≡ len + 2 }
    ensures { room.new ≡ words_of (zeros kind len) }
{
    room.fill(0);
    room[0] = kind;
    room[1] = len;
}
