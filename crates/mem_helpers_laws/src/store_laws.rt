//! What the helper methods that store come to. Each call here does nothing: its contract is the law.

ghost use Rattle.mem_helpers_laws.specs.Counting.{StoresRead};
ghost use Rattle.mem_helpers_laws.specs.Linking.{StoresAreConcluded};
ghost use Rattle.mem_helpers_laws.specs.Multiplying.{ProductsArePut, ProductsAreWords};
ghost use Rattle.mem_helpers_laws.specs.Storing.{FaultyConditionalStoresEnd, FaultyStoresEnd, StoresAreDone};

/// A store at an address that is not aligned, and one at an aligned address where a byte may not be written, end the run with the
/// instruction's fault.
pub fn faulty_stores_end_the_run()
    ensures { FaultyStoresEnd }
{}

/// Every other store is done: the memory is what the instruction leaves, and no field is changed. It takes at most 80
/// instructions before its return.
pub fn stores_are_done()
    ensures { StoresAreDone }
{}

/// SC faults as SW. Otherwise it stores as SW and gives 1 where its address is linked, and gives 0 and stores nothing where another or none
/// is. No address is linked afterwards.
pub fn conditional_stores_are_concluded()
    ensures faulty { FaultyConditionalStoresEnd }
    ensures concluded { StoresAreConcluded }
{}

/// A product or a quotient of two words is put into HI and LO, by 0 too, and nothing else is changed. Both are words.
pub fn products_are_put()
    ensures gives { ProductsArePut }
    ensures words { ProductsAreWords }
{}

/// A store of a part of a word reads one word of an array, and all others, SC, products, quotients and the method that ends the run read none.
/// None of them reads a character or has a switch.
pub fn stores_read_at_most_one_word()
    ensures { StoresRead }
{}
