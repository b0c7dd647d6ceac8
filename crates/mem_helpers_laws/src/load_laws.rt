//! What the methods that load come to. Each call here does nothing: its contract is the law.

ghost use Rattle.mem_helpers_laws.specs.Loading.{LoadsAreTheGuests, LinkedLoadsAreTheGuests, LoadsWords};
ghost use Rattle.mem_helpers_laws.specs.Counting.{LoadsRead};

/// Each load by its method, where the tables of pages hold the guest's memory: it gives what the guest loads and leaves
/// fields and arrays alone, or the run ends in the guest's fault. Either takes at most 60 instructions.
pub fn loads_are_the_guests()
    ensures { LoadsAreTheGuests }
{}

/// LL by its method: as LW, and the address is linked.
pub fn linked_loads_are_the_guests()
    ensures { LinkedLoadsAreTheGuests }
{}

/// What is loaded from a memory that is held is a word, at any address.
pub fn loaded_words_are_words()
    ensures { LoadsWords }
{}

/// A load reads one word of an array, and the method that ends the run reads none.
pub fn loads_read_one_word()
    ensures { LoadsRead }
{}
