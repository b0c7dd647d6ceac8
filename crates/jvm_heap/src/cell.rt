ghost use Rattle.std.specs.Prelude.{◌≡◌, ◌<◌, None, option_map, length, IfSome};
ghost use Rattle.jvm_definition.specs.HostMemory.{cell_of as definition, page_in, word_in_array};
ghost use Rattle.int_region.specs.Arrays.{values_at};
ghost use Rattle.jvm_heap.specs.Heaps.{IsSafe, IsTable, StandsAt, cell_as};
ghost use Rattle.jvm_heap.specs.Regions.{heap_of};

use int_region::{Place, Region};

/// An element of an array of ints, with its word.
#[derive(Clone, Copy)]
pub struct Cell {
    pub place: u32,
    pub index: u32,
    pub word: u32,
}

/// The array of ints that is an element of an array of arrays; None where it is null or not there.
#[inline]
fn page_of(region: &Region, table: u32, page: u32) -> Option<u32>
    requires table { StandsAt region.now.arrays table 1 }
    requires safe { IsSafe region.now None None }
    ensures found { result ≡ page_in ((heap_of region.now.arrays).array_at table) page }
    ensures live { IfSome result (λ p. StandsAt region.now.arrays p 0) }
{
    if region.len(Place(table)) <= page {
        return None;
    }
    let element = region.get(Place(table), page);
    if element == 0 {
        None
    } else {
        Some(element - 1)
    }
}

/// A word of an array of ints; None where the index is not within it.
#[inline]
fn word_of(region: &Region, place: u32, index: u32) -> Option<u32>
    requires { StandsAt region.now.arrays place 0 }
    ensures found { result ≡ word_in_array ((heap_of region.now.arrays).array_at place) index }
    ensures within { IfSome result (λ _. index < length (values_at region.now.arrays place)) }
{
    if region.len(Place(place)) <= index {
        None
    } else {
        Some(region.get(Place(place), index))
    }
}

/// The element with the byte at an address, through an array of pages; None where the array, the page or the element is not there.
#[inline]
pub fn cell_of(region: &Region, table: Option<u32>, at: u32) -> Option<Cell>
    requires table { IsTable region.now.arrays table }
    requires safe { IsSafe region.now None None }
    ensures found { option_map cell_as result ≡ definition (heap_of region.now.arrays) table at }
    ensures live { IfSome result (λ c. StandsAt region.now.arrays c.place 0) }
    ensures within { IfSome result (λ c. c.index < length (values_at region.now.arrays c.place)) }
{
    let place = page_of(region, table?, at / 4096)?;
    let index = at / 4 % 1024;
    let word = word_of(region, place, index)?;
    Some(Cell { place, index, word })
}
