//! What the code of instructions follows that calls a helper method. Each call here does nothing: its contract is the law.

ghost use Rattle.std.specs.Prelude.{ℕ};
ghost use Rattle.mips_definition.specs.declared.inst.Inst.TheVariants as inst;
ghost use Rattle.mips_definition.specs.declared.names.load_name.LoadName.{LoadName};
ghost use Rattle.mips_definition.specs.declared.names.product_name.ProductName.{ProductName};
ghost use Rattle.mips_definition.specs.declared.names.store_name.StoreName.{StoreName};
ghost use Rattle.emit_instructions_laws.specs.Instructions.{InstructionFollows};

use emit_simulation_laws::laws::code_is_paths;
use mem_helpers_laws::load_laws::{
    linked_loads_are_the_guests, loaded_words_are_words, loads_are_the_guests,
};
use mem_helpers_laws::store_laws::{
    conditional_stores_are_concluded, faulty_stores_end_the_run, products_are_put, stores_are_done,
};

/// The code of each load follows it.
pub fn loads_are_followed()
    ensures { (name : LoadName) (rs rt imm : ℕ) → InstructionFollows (inst.Load name rs rt imm) }
{
    code_is_paths();
    loads_are_the_guests();
    loaded_words_are_words();
}

/// The code of LL follows it.
pub fn linked_loads_are_followed()
    ensures { (rs rt imm : ℕ) → InstructionFollows (inst.LoadLinked rs rt imm) }
{
    code_is_paths();
    linked_loads_are_the_guests();
    loaded_words_are_words();
}

/// The code of each store follows it.
pub fn stores_are_followed()
    ensures { (name : StoreName) (rs rt imm : ℕ) → InstructionFollows (inst.Store name rs rt imm) }
{
    code_is_paths();
    faulty_stores_end_the_run();
    stores_are_done();
}

/// The code of SC follows it.
pub fn conditional_stores_are_followed()
    ensures { (rs rt imm : ℕ) → InstructionFollows (inst.StoreConditional rs rt imm) }
{
    code_is_paths();
    conditional_stores_are_concluded();
}

/// The code of each product and quotient follows it.
pub fn products_are_followed()
    ensures { (name : ProductName) (rs rt : ℕ) → InstructionFollows (inst.Product name rs rt) }
{
    code_is_paths();
    products_are_put();
}
