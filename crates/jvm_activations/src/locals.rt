ghost use Rattle.std.specs.Prelude.{◌≡◌, ℕ, ◌+◌, ◌-◌, ◌<◌, ◌≤◌, List, [], ◌++◌, length, slice_index_or, slice_set, take, replicate, IfOk};
ghost use Rattle.jvm_definition.specs.declared.value.Value.TheVariants.{Unset as unset};
ghost use Rattle.jvm_activations.specs.Variables.{with_variables, numbered};

use crate::operands::NoMemory;
use jvm_definition::Value;
use std::alloc::Global;
use std::marker::Model;

/// The local variables of a frame (JVM Specification, 2.6.1), in room that `new` takes.
#[derive(Drop)]
pub struct Locals {
    values: Vec<Value, Global>,
    /// How many of the values are variables of the frame.
    count: usize,
}

impl Model for Locals {
    ghost use Rattle.std.specs.Prelude.{◌≤◌, length, take};
    ghost use Rattle.jvm_activations.specs.Variables.{Variables};

    ghost Value = { Variables };

    ghost view = { λ l. record {
      items = take l.count l.values.items;
      limit = length l.values.items;
    } };

    ghost invariant = { λ l. l.count ≤ length l.values.items };
}

impl Locals {
    /// No variables, and room for so many.
    pub fn new(alloc: Global, limit: usize) -> Result<Locals, NoMemory>
        ensures { IfOk result (λ locals. locals ≡ record { items = []; limit = limit }) }
    {
        let values = vec![in alloc; Value::Unset; limit]?;
        Ok(Locals { values, count: 0 })
    }

    #[inline]
    pub fn get(&self, i: usize) -> Value
        requires { i < length self.now.items }
        ensures { result ≡ numbered self.now.items i }
    {
        self.values[i]
    }

    #[inline]
    pub fn set(&mut self, i: usize, v: Value)
        requires { i < length self.old.items }
        ensures { self.new ≡ with_variables self.old (slice_set self.old.items i v) }
    {
        self.values[i] = v;
    }

    /// The variables with which a method is entered: its arguments, the first one in variable 0, and others that are not set.
    #[inline]
    pub fn enter(&mut self, arguments: &[Value], count: usize)
        requires arguments { length arguments.now ≤ count }
        requires room { count ≤ self.old.limit }
        ensures { self.new ≡ with_variables self.old (arguments.now
            ++ replicate (count - length arguments.now) unset) }
    {
        self.count = count;
        set_variables(&mut self.values, arguments, count);
    }
}

// The first values are the arguments, and then variables that are not set.
#[inline]
fn set_variables(values: &mut [Value], arguments: &[Value], count: usize)
    requires arguments { length arguments.now ≤ count }
    requires room { count ≤ length values.old }
    ensures first { take count values.new ≡ arguments.now
        ++ replicate (count - length arguments.now) unset }
    ensures len { length values.new ≡ length values.old }
{
    let (variables, _) = values.split_at_mut(count);
    let (first, others) = variables.split_at_mut(arguments.len());
    first.copy_from_slice(arguments);
    others.fill(Value::Unset);
}
