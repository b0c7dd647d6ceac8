//! The instructions on arrays. If one traps, operands and arrays are as they were.
ghost use Rattle.std.specs.Prelude.{◌≡◌, ◌∷◌, [], ℕ, List, Option, IsTrue, IsFalse, OnOk, OnErr, IfErr, option_map};
ghost use Rattle.jvm_definition.specs.declared.array_name.ArrayName.TheVariants.{Iaload, Aaload, Iastore, Aastore};
ghost use Rattle.jvm_definition.specs.declared.instruction.Instruction.TheVariants as instructions;
ghost use Rattle.jvm_definition.specs.declared.value.Value.{Value as StackValue};
ghost use Rattle.jvm_definition.specs.declared.value.Value.TheVariants.{Int as int};
ghost use Rattle.jvm_definition.specs.Values.{is_int, is_ints_reference, is_pages_reference, reference_value as reference_to};
ghost use Rattle.jvm_activations.specs.Stack.{on_top};
ghost use Rattle.jvm_activations.specs.Trap.{trap_kind};
ghost use Rattle.jvm_heap.specs.Regions.{heap_of, is_array_reference, place_of, element_word, kind_of as region_kind};
ghost use Rattle.jvm_heap.specs.Heaps.{IsSafe};
ghost use Rattle.jvm_heap.specs.HeapForms.{Does, Gives, Traps, element_trap};

use int_region::{Place, Region};
use jvm_activations::{Operands, Trap};
use jvm_definition::{ArrayKind, Value};

/// `iaload`.
#[inline]
pub fn load_int(operands: &mut Operands, region: &Region) -> Result<(), Trap>
    requires { IsTrue (on_top (is_int ∷ is_ints_reference (heap_of region.now.arrays) ∷ [])
        operands.old.items) }
    ensures ok { OnOk result (Does region.now.size (instructions.Array Iaload) operands.old.items
        (heap_of region.now.arrays) operands.new.items (heap_of region.now.arrays)) }
    ensures err { IfErr result (λ trap.
        Traps region.now.size (instructions.Array Iaload) operands.old.items
        (heap_of region.now.arrays) (trap_kind trap)) }
    ensures unchanged { OnErr result (operands.new ≡ operands.old) }
    ensures limit { operands.new.limit ≡ operands.old.limit }
{
    let i = operands.pop_int();
    let Value::Array(place) = operands.peek(0) else {
        operands.push(Value::Int(i));
        return Err(Trap::Null);
    };
    if region.len(Place(place)) <= i {
        operands.push(Value::Int(i));
        return Err(Trap::Index);
    }
    operands.pop();
    operands.push(Value::Int(region.get(Place(place), i)));
    Ok(())
}

/// `aaload`.
#[inline]
pub fn load_page(operands: &mut Operands, region: &Region) -> Result<(), Trap>
    requires { IsTrue (on_top (is_int ∷ is_pages_reference (heap_of region.now.arrays) ∷ [])
        operands.old.items) }
    ensures ok { OnOk result (Does region.now.size (instructions.Array Aaload) operands.old.items
        (heap_of region.now.arrays) operands.new.items (heap_of region.now.arrays)) }
    ensures err { IfErr result (λ trap.
        Traps region.now.size (instructions.Array Aaload) operands.old.items
        (heap_of region.now.arrays) (trap_kind trap)) }
    ensures unchanged { OnErr result (operands.new ≡ operands.old) }
    ensures limit { operands.new.limit ≡ operands.old.limit }
{
    let i = operands.pop_int();
    let Value::Array(place) = operands.peek(0) else {
        operands.push(Value::Int(i));
        return Err(Trap::Null);
    };
    if region.len(Place(place)) <= i {
        operands.push(Value::Int(i));
        return Err(Trap::Index);
    }
    operands.pop();
    operands.push(reference(region.get(Place(place), i)));
    Ok(())
}

/// `iaload` at an index that is not pushed. If it traps, the operands are as they were without it.
#[inline(always)]
pub fn int_at(operands: &mut Operands, region: &Region, i: u32) -> Result<(), Trap>
    requires { IsTrue
        (on_top (is_ints_reference (heap_of region.now.arrays) ∷ []) operands.old.items) }
    ensures ok { OnOk result (Does region.now.size (instructions.Array Iaload)
        (int i ∷ operands.old.items) (heap_of region.now.arrays) operands.new.items
        (heap_of region.now.arrays)) }
    ensures err { IfErr result (λ trap.
        Traps region.now.size (instructions.Array Iaload) (int i ∷ operands.old.items)
        (heap_of region.now.arrays) (trap_kind trap)) }
    ensures unchanged { OnErr result (operands.new ≡ operands.old) }
    ensures limit { operands.new.limit ≡ operands.old.limit }
{
    let Value::Array(place) = operands.peek(0) else {
        return Err(Trap::Null);
    };
    if region.len(Place(place)) <= i {
        return Err(Trap::Index);
    }
    operands.pop();
    operands.push(Value::Int(region.get(Place(place), i)));
    Ok(())
}

/// `aaload` at an index that is not pushed. If it traps, the operands are as they were without it.
#[inline(always)]
pub fn page_at(operands: &mut Operands, region: &Region, i: u32) -> Result<(), Trap>
    requires { IsTrue
        (on_top (is_pages_reference (heap_of region.now.arrays) ∷ []) operands.old.items) }
    ensures ok { OnOk result (Does region.now.size (instructions.Array Aaload)
        (int i ∷ operands.old.items) (heap_of region.now.arrays) operands.new.items
        (heap_of region.now.arrays)) }
    ensures err { IfErr result (λ trap.
        Traps region.now.size (instructions.Array Aaload) (int i ∷ operands.old.items)
        (heap_of region.now.arrays) (trap_kind trap)) }
    ensures unchanged { OnErr result (operands.new ≡ operands.old) }
    ensures limit { operands.new.limit ≡ operands.old.limit }
{
    let Value::Array(place) = operands.peek(0) else {
        return Err(Trap::Null);
    };
    if region.len(Place(place)) <= i {
        return Err(Trap::Index);
    }
    operands.pop();
    operands.push(reference(region.get(Place(place), i)));
    Ok(())
}

/// `iastore`.
#[inline]
pub fn store_int(operands: &mut Operands, region: &mut Region) -> Result<(), Trap>
    requires { IsTrue (on_top (is_int ∷ is_int ∷ is_ints_reference (heap_of region.old.arrays) ∷ [])
        operands.old.items) }
    ensures ok { OnOk result (Does region.old.size (instructions.Array Iastore) operands.old.items
        (heap_of region.old.arrays) operands.new.items (heap_of region.new.arrays)) }
    ensures err { IfErr result (λ trap.
        Traps region.old.size (instructions.Array Iastore) operands.old.items
        (heap_of region.old.arrays) (trap_kind trap)) }
    ensures unchanged { OnErr result ((operands.new ≡ operands.old) × (region.new ≡ region.old)) }
    ensures limit { operands.new.limit ≡ operands.old.limit }
    ensures size { region.new.size ≡ region.old.size }
    ensures safe { (readable writable : Option ℕ) → IsSafe region.old readable writable
        → IsSafe region.new readable writable }
{
    let n = operands.pop_int();
    let i = operands.pop_int();
    let Value::Array(place) = operands.peek(0) else {
        operands.push(Value::Int(i));
        operands.push(Value::Int(n));
        return Err(Trap::Null);
    };
    if region.len(Place(place)) <= i {
        operands.push(Value::Int(i));
        operands.push(Value::Int(n));
        return Err(Trap::Index);
    }
    operands.pop();
    region.put(Place(place), i, n);
    Ok(())
}

/// `arraylength`.
#[inline]
pub fn measure(operands: &mut Operands, region: &Region) -> Result<(), Trap>
    requires { IsTrue (on_top (is_array_reference region.now.arrays ∷ []) operands.old.items) }
    ensures ok { OnOk result (Does region.now.size instructions.ArrayLength operands.old.items
        (heap_of region.now.arrays) operands.new.items (heap_of region.now.arrays)) }
    ensures err { IfErr result (λ trap.
        Traps region.now.size instructions.ArrayLength operands.old.items
        (heap_of region.now.arrays) (trap_kind trap)) }
    ensures unchanged { OnErr result (operands.new ≡ operands.old) }
    ensures limit { operands.new.limit ≡ operands.old.limit }
{
    let Value::Array(place) = operands.peek(0) else {
        return Err(Trap::Null);
    };
    operands.pop();
    operands.push(Value::Int(region.len(Place(place))));
    Ok(())
}

/// `newarray` of ints and `anewarray`.
#[inline]
pub fn new_array(operands: &mut Operands, region: &mut Region, kind: ArrayKind) -> Result<(), Trap>
    requires { IsTrue (on_top (is_int ∷ []) operands.old.items) }
    ensures ok { OnOk result (Does region.old.size (instructions.NewArray kind) operands.old.items
        (heap_of region.old.arrays) operands.new.items (heap_of region.new.arrays)) }
    ensures err { IfErr result (λ trap.
        Traps region.old.size (instructions.NewArray kind) operands.old.items
        (heap_of region.old.arrays) (trap_kind trap)) }
    ensures unchanged { OnErr result ((operands.new ≡ operands.old) × (region.new ≡ region.old)) }
    ensures limit { operands.new.limit ≡ operands.old.limit }
    ensures size { region.new.size ≡ region.old.size }
    ensures safe { (readable writable : Option ℕ) → IsSafe region.old readable writable
        → IsSafe region.new readable writable }
{
    let size = operands.pop_int();
    if size >= 0x8000_0000 {
        operands.push(Value::Int(size));
        return Err(Trap::Size);
    }
    match region.array(kind_of(kind), size) {
        Ok(place) => {
            operands.push(Value::Array(place.0));
            Ok(())
        }
        Err(_) => {
            operands.push(Value::Int(size));
            Err(Trap::Room)
        }
    }
}

/// The kind of a region's arrays.
fn kind_of(kind: ArrayKind) -> u32
    ensures { result ≡ region_kind kind }
{
    match kind {
        ArrayKind::Ints => 0,
        ArrayKind::Pages => 1,
    }
}

/// An element of an array of arrays: 0 is null, and any other number is one more than the place.
#[inline]
fn reference(element: u32) -> Value
    ensures { result ≡ reference_to (place_of element) }
{
    if element == 0 {
        Value::Null
    } else {
        Value::Array(element - 1)
    }
}

/// `aastore`.
#[inline]
pub fn store_page(operands: &mut Operands, region: &mut Region) -> Result<(), Trap>
    requires { IsTrue (on_top (is_ints_reference (heap_of region.old.arrays) ∷ is_int
        ∷ is_pages_reference (heap_of region.old.arrays) ∷ []) operands.old.items) }
    ensures ok { OnOk result (Does region.old.size (instructions.Array Aastore) operands.old.items
        (heap_of region.old.arrays) operands.new.items (heap_of region.new.arrays)) }
    ensures err { IfErr result (λ trap.
        Traps region.old.size (instructions.Array Aastore) operands.old.items
        (heap_of region.old.arrays) (trap_kind trap)) }
    ensures unchanged { OnErr result ((operands.new ≡ operands.old) × (region.new ≡ region.old)) }
    ensures limit { operands.new.limit ≡ operands.old.limit }
    ensures size { region.new.size ≡ region.old.size }
    ensures safe { (readable writable : Option ℕ) → IsSafe region.old readable writable
        → IsSafe region.new readable writable }
{
    let page = operands.pop();
    let i = operands.pop_int();
    let Value::Array(place) = operands.peek(0) else {
        operands.push(Value::Int(i));
        operands.push(page);
        return Err(Trap::Null);
    };
    if region.len(Place(place)) <= i {
        operands.push(Value::Int(i));
        operands.push(page);
        return Err(Trap::Index);
    }
    operands.pop();
    region.put(Place(place), i, element(page));
    Ok(())
}

/// A reference as an element of an array of arrays.
#[inline]
fn element(page: Value) -> u32
    ensures { result ≡ element_word page }
{
    match page {
        Value::Array(place) => place.wrapping_add(1),
        _ => 0,
    }
}

/// An element of an array of arrays, as `aaload` gives it; None where that traps.
#[inline(always)]
pub fn page_of(pages: Value, region: &Region, i: u32) -> Option<Value>
    requires { IsTrue (on_top (is_pages_reference (heap_of region.now.arrays) ∷ []) (pages ∷ [])) }
    ensures { Gives region.now.size (instructions.Array Aaload) (int i ∷ pages ∷ [])
        (heap_of region.now.arrays) (element_trap pages) result }
{
    let Value::Array(place) = pages else {
        return None;
    };
    if region.len(Place(place)) <= i {
        return None;
    }
    Some(reference(region.get(Place(place), i)))
}

/// An element of an array of ints, as `iaload` gives it; None where that traps.
#[inline(always)]
pub fn int_of(ints: Value, region: &Region, i: u32) -> Option<u32>
    requires { IsTrue (on_top (is_ints_reference (heap_of region.now.arrays) ∷ []) (ints ∷ [])) }
    ensures { Gives region.now.size (instructions.Array Iaload) (int i ∷ ints ∷ [])
        (heap_of region.now.arrays) (element_trap ints) (option_map int result) }
{
    let Value::Array(place) = ints else {
        return None;
    };
    if region.len(Place(place)) <= i {
        return None;
    }
    Some(region.get(Place(place), i))
}

/// Puts an element into an array of ints, as `iastore` does; false, with nothing changed, where that traps.
#[inline(always)]
pub fn put_int(ints: Value, region: &mut Region, i: u32, n: u32) -> bool
    requires { IsTrue (on_top (is_ints_reference (heap_of region.old.arrays) ∷ []) (ints ∷ [])) }
    ensures does { IsTrue result → (others : List StackValue)
        → Does region.old.size (instructions.Array Iastore) (int n ∷ int i ∷ ints ∷ others)
        (heap_of region.old.arrays) others (heap_of region.new.arrays) }
    ensures traps { IsFalse result → (others : List StackValue)
        → Traps region.old.size (instructions.Array Iastore) (int n ∷ int i ∷ ints ∷ others)
        (heap_of region.old.arrays) (element_trap ints) }
    ensures unchanged { IsFalse result → region.new ≡ region.old }
    ensures size { region.new.size ≡ region.old.size }
    ensures safe { (readable writable : Option ℕ) → IsSafe region.old readable writable
        → IsSafe region.new readable writable }
{
    let Value::Array(place) = ints else {
        return false;
    };
    if region.len(Place(place)) <= i {
        return false;
    }
    region.put(Place(place), i, n);
    true
}
