//! The instructions on the arrays of a program.
ghost use Rattle.std.specs.Prelude.{◌≡◌, ◌∷◌, [], List, IsTrue, IsFalse, OnOk, OnErr, IfErr, option_map};
ghost use Rattle.jvm_definition.specs.declared.array_name.ArrayName.TheVariants.{Iaload, Aaload, Iastore, Aastore};
ghost use Rattle.jvm_definition.specs.declared.instruction.Instruction.TheVariants as instructions;
ghost use Rattle.jvm_definition.specs.declared.value.Value.{Value as StackValue};
ghost use Rattle.jvm_definition.specs.declared.value.Value.TheVariants.{Int as int};
ghost use Rattle.jvm_definition.specs.Values.{is_int, is_ints_reference, is_pages_reference};
ghost use Rattle.jvm_activations.specs.Stack.{on_top};
ghost use Rattle.jvm_activations.specs.Trap.{trap_kind};
ghost use Rattle.jvm_heap.specs.Regions.{heap_of, is_array_reference};
ghost use Rattle.jvm_heap.specs.HeapForms.{Does, Gives, Traps, element_trap};

use crate::access;
use crate::heap::Heap;
use jvm_activations::{Operands, Trap};
use jvm_definition::{ArrayKind, Value};

impl Heap {
    /// `iaload`.
    #[inline]
    pub fn load_int(&self, operands: &mut Operands) -> Result<(), Trap>
        requires { IsTrue (on_top (is_int ∷ is_ints_reference (heap_of self.now.region.arrays) ∷ [])
            operands.old.items) }
        ensures ok { OnOk result
            (Does self.now.region.size (instructions.Array Iaload) operands.old.items
            (heap_of self.now.region.arrays) operands.new.items
            (heap_of self.now.region.arrays)) }
        ensures err { IfErr result (λ trap.
            Traps self.now.region.size (instructions.Array Iaload) operands.old.items
            (heap_of self.now.region.arrays) (trap_kind trap)) }
        ensures unchanged { OnErr result (operands.new ≡ operands.old) }
        ensures limit { operands.new.limit ≡ operands.old.limit }
    {
        access::load_int(operands, &self.region)
    }

    /// `aaload`.
    #[inline]
    pub fn load_page(&self, operands: &mut Operands) -> Result<(), Trap>
        requires { IsTrue (on_top (is_int ∷ is_pages_reference (heap_of self.now.region.arrays)
            ∷ []) operands.old.items) }
        ensures ok { OnOk result
            (Does self.now.region.size (instructions.Array Aaload) operands.old.items
            (heap_of self.now.region.arrays) operands.new.items
            (heap_of self.now.region.arrays)) }
        ensures err { IfErr result (λ trap.
            Traps self.now.region.size (instructions.Array Aaload) operands.old.items
            (heap_of self.now.region.arrays) (trap_kind trap)) }
        ensures unchanged { OnErr result (operands.new ≡ operands.old) }
        ensures limit { operands.new.limit ≡ operands.old.limit }
    {
        access::load_page(operands, &self.region)
    }

    /// `iaload` at an index that is not pushed. If it traps, the operands are as they were without it.
    #[inline(always)]
    pub fn int_at(&self, operands: &mut Operands, i: u32) -> Result<(), Trap>
        requires { IsTrue (on_top (is_ints_reference (heap_of self.now.region.arrays) ∷ [])
            operands.old.items) }
        ensures ok { OnOk result
            (Does self.now.region.size (instructions.Array Iaload) (int i ∷ operands.old.items)
            (heap_of self.now.region.arrays) operands.new.items
            (heap_of self.now.region.arrays)) }
        ensures err { IfErr result (λ trap.
            Traps self.now.region.size (instructions.Array Iaload) (int i ∷ operands.old.items)
            (heap_of self.now.region.arrays) (trap_kind trap)) }
        ensures unchanged { OnErr result (operands.new ≡ operands.old) }
        ensures limit { operands.new.limit ≡ operands.old.limit }
    {
        access::int_at(operands, &self.region, i)
    }

    /// `aaload` at an index that is not pushed. If it traps, the operands are as they were without it.
    #[inline(always)]
    pub fn page_at(&self, operands: &mut Operands, i: u32) -> Result<(), Trap>
        requires { IsTrue (on_top (is_pages_reference (heap_of self.now.region.arrays) ∷ [])
            operands.old.items) }
        ensures ok { OnOk result
            (Does self.now.region.size (instructions.Array Aaload) (int i ∷ operands.old.items)
            (heap_of self.now.region.arrays) operands.new.items
            (heap_of self.now.region.arrays)) }
        ensures err { IfErr result (λ trap.
            Traps self.now.region.size (instructions.Array Aaload) (int i ∷ operands.old.items)
            (heap_of self.now.region.arrays) (trap_kind trap)) }
        ensures unchanged { OnErr result (operands.new ≡ operands.old) }
        ensures limit { operands.new.limit ≡ operands.old.limit }
    {
        access::page_at(operands, &self.region, i)
    }

    /// `arraylength`.
    #[inline]
    pub fn measure(&self, operands: &mut Operands) -> Result<(), Trap>
        requires { IsTrue (on_top (is_array_reference self.now.region.arrays ∷ [])
            operands.old.items) }
        ensures ok { OnOk result
            (Does self.now.region.size instructions.ArrayLength operands.old.items
            (heap_of self.now.region.arrays) operands.new.items
            (heap_of self.now.region.arrays)) }
        ensures err { IfErr result (λ trap.
            Traps self.now.region.size instructions.ArrayLength operands.old.items
            (heap_of self.now.region.arrays) (trap_kind trap)) }
        ensures unchanged { OnErr result (operands.new ≡ operands.old) }
        ensures limit { operands.new.limit ≡ operands.old.limit }
    {
        access::measure(operands, &self.region)
    }

    /// `iastore`.
    #[inline]
    pub fn store_int(&mut self, operands: &mut Operands) -> Result<(), Trap>
        requires { IsTrue
            (on_top (is_int ∷ is_int ∷ is_ints_reference (heap_of self.old.region.arrays) ∷ [])
            operands.old.items) }
        ensures ok { OnOk result
            (Does self.old.region.size (instructions.Array Iastore) operands.old.items
            (heap_of self.old.region.arrays) operands.new.items
            (heap_of self.new.region.arrays)) }
        ensures err { IfErr result (λ trap.
            Traps self.old.region.size (instructions.Array Iastore) operands.old.items
            (heap_of self.old.region.arrays) (trap_kind trap)) }
        ensures unchanged { OnErr result ((operands.new ≡ operands.old) × (self.new ≡ self.old)) }
        ensures limit { operands.new.limit ≡ operands.old.limit }
        ensures size { self.new.region.size ≡ self.old.region.size }
    {
        access::store_int(operands, &mut self.region)
    }

    /// `aastore`.
    #[inline]
    pub fn store_page(&mut self, operands: &mut Operands) -> Result<(), Trap>
        requires { IsTrue (on_top (is_ints_reference (heap_of self.old.region.arrays) ∷ is_int
            ∷ is_pages_reference (heap_of self.old.region.arrays) ∷ []) operands.old.items) }
        ensures ok { OnOk result
            (Does self.old.region.size (instructions.Array Aastore) operands.old.items
            (heap_of self.old.region.arrays) operands.new.items
            (heap_of self.new.region.arrays)) }
        ensures err { IfErr result (λ trap.
            Traps self.old.region.size (instructions.Array Aastore) operands.old.items
            (heap_of self.old.region.arrays) (trap_kind trap)) }
        ensures unchanged { OnErr result ((operands.new ≡ operands.old) × (self.new ≡ self.old)) }
        ensures limit { operands.new.limit ≡ operands.old.limit }
        ensures size { self.new.region.size ≡ self.old.region.size }
    {
        access::store_page(operands, &mut self.region)
    }

    /// `newarray` of ints and `anewarray`.
    #[inline]
    pub fn new_array(&mut self, operands: &mut Operands, kind: ArrayKind) -> Result<(), Trap>
        requires { IsTrue (on_top (is_int ∷ []) operands.old.items) }
        ensures ok { OnOk result
            (Does self.old.region.size (instructions.NewArray kind) operands.old.items
            (heap_of self.old.region.arrays) operands.new.items
            (heap_of self.new.region.arrays)) }
        ensures err { IfErr result (λ trap.
            Traps self.old.region.size (instructions.NewArray kind) operands.old.items
            (heap_of self.old.region.arrays) (trap_kind trap)) }
        ensures unchanged { OnErr result ((operands.new ≡ operands.old) × (self.new ≡ self.old)) }
        ensures limit { operands.new.limit ≡ operands.old.limit }
        ensures size { self.new.region.size ≡ self.old.region.size }
    {
        access::new_array(operands, &mut self.region, kind)
    }

    /// An element of an array of arrays, as `aaload` gives it; None where that traps.
    #[inline(always)]
    pub fn page_of(&self, pages: Value, i: u32) -> Option<Value>
        requires { IsTrue (on_top (is_pages_reference (heap_of self.now.region.arrays) ∷ []) (pages ∷ [])) }
        ensures { Gives self.now.region.size (instructions.Array Aaload) (int i ∷ pages ∷ [])
            (heap_of self.now.region.arrays) (element_trap pages) result }
    {
        access::page_of(pages, &self.region, i)
    }

    /// An element of an array of ints, as `iaload` gives it; None where that traps.
    #[inline(always)]
    pub fn int_of(&self, ints: Value, i: u32) -> Option<u32>
        requires { IsTrue (on_top (is_ints_reference (heap_of self.now.region.arrays) ∷ []) (ints ∷ [])) }
        ensures { Gives self.now.region.size (instructions.Array Iaload) (int i ∷ ints ∷ [])
            (heap_of self.now.region.arrays) (element_trap ints) (option_map int result) }
    {
        access::int_of(ints, &self.region, i)
    }

    /// Puts an element into an array of ints, as `iastore` does; false, with nothing changed, where that traps.
    #[inline(always)]
    pub fn put_int(&mut self, ints: Value, i: u32, n: u32) -> bool
        requires { IsTrue (on_top (is_ints_reference (heap_of self.old.region.arrays) ∷ []) (ints ∷ [])) }
        ensures does { IsTrue result → (others : List StackValue)
            → Does self.old.region.size (instructions.Array Iastore) (int n ∷ int i ∷ ints ∷ others)
            (heap_of self.old.region.arrays) others (heap_of self.new.region.arrays) }
        ensures traps { IsFalse result → (others : List StackValue)
            → Traps self.old.region.size (instructions.Array Iastore)
            (int n ∷ int i ∷ ints ∷ others) (heap_of self.old.region.arrays) (element_trap ints) }
        ensures unchanged { IsFalse result → self.new ≡ self.old }
        ensures size { self.new.region.size ≡ self.old.region.size }
    {
        access::put_int(ints, &mut self.region, i, n)
    }
}
