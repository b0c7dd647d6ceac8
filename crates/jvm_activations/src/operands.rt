ghost use Rattle.std.specs.Prelude.{◌≡◌, ℕ, ◌+◌, ◌<◌, ◌≤◌, ◌↔◌, List, [], ◌∷◌, length, take, drop, reverse, slice_index_or, IfOk, IsTrue};
ghost use Rattle.jvm_definition.specs.declared.value.Value.TheVariants.{Unset as unset};
ghost use Rattle.jvm_activations.specs.Stack.{with_items};

use jvm_definition::Value;
use std::alloc::{AllocError, Global};
use std::marker::Model;

/// The allocator had no room.
pub type NoMemory = AllocError;

/// The operand stack of a frame (JVM Specification, 2.6.2), in slots that `new` takes.
#[derive(Drop)]
pub struct Operands {
    slots: Vec<Value, Global>,
    /// How many slots are in use.
    top: usize,
}

impl Model for Operands {
    ghost use Rattle.std.specs.Prelude.{◌≤◌, length};
    ghost use Rattle.jvm_activations.specs.Stack.{Stack, stacked};

    ghost Value = { Stack };

    ghost view = { λ o. record {
      items = stacked o.slots.items o.top;
      limit = length o.slots.items;
    } };

    ghost invariant = { λ o. o.top ≤ length o.slots.items };
}

impl Operands {
    /// No operands, and room for so many.
    pub fn new(alloc: Global, limit: usize) -> Result<Operands, NoMemory>
        ensures { IfOk result (λ operands. operands ≡ record { items = []; limit = limit }) }
    {
        let slots = vec![in alloc; Value::Unset; limit]?;
        Ok(Operands { slots, top: 0 })
    }

    /// Drops all operands.
    #[inline]
    pub fn clear(&mut self)
        ensures { self.new ≡ with_items self.old [] }
    {
        self.top = 0;
    }

    /// How many operands there are.
    #[inline]
    pub fn len(&self) -> usize
        ensures count { result ≡ length self.now.items }
        ensures room { result ≤ self.now.limit }
    {
        self.top
    }

    #[inline]
    pub fn is_empty(&self) -> bool
        ensures { IsTrue result ↔ (length self.now.items ≡ 0) }
    {
        self.top == 0
    }

    #[inline]
    pub fn push(&mut self, v: Value)
        requires { length self.old.items < self.old.limit }
        ensures { self.new ≡ with_items self.old (v ∷ self.old.items) }
    {
        self.slots[self.top] = v;
        self.top += 1;
    }

    #[inline]
    pub fn pop(&mut self) -> Value
        requires { 0 < length self.old.items }
        ensures popped { self.old.items ≡ result ∷ self.new.items }
        ensures limit { self.new.limit ≡ self.old.limit }
        ensures room { length self.new.items < self.new.limit }
    {
        self.top -= 1;
        self.slots[self.top]
    }

    /// The operand that has k others above it.
    #[inline]
    pub fn peek(&self, k: usize) -> Value
        requires { k < length self.now.items }
        ensures { result ≡ slice_index_or self.now.items k unset }
    {
        self.slots[self.top - 1 - k]
    }

    /// The uppermost operands, the top one last.
    #[inline]
    pub(crate) fn uppermost(&self, count: usize) -> &[Value]
        requires { count ≤ length self.now.items }
        ensures { result.now ≡ reverse (take count self.now.items) }
    {
        &self.slots[self.top - count..self.top]
    }

    /// Drops the uppermost operands.
    #[inline]
    pub(crate) fn drop_top(&mut self, count: usize)
        requires { count ≤ length self.old.items }
        ensures { self.new ≡ with_items self.old (drop count self.old.items) }
    {
        self.top -= count;
    }
}
