ghost use Rattle.std.specs.Prelude.{◌≡◌, ◌<◌, length, map, slice_index_or, slice_set, IfOk};
ghost use Rattle.jvm_definition.specs.declared.value.Value.TheVariants.{Unset as unset};
ghost use Rattle.jvm_definition.specs.Values.{zero_of};

use jvm_definition::{Kind, Value};
use std::alloc::{AllocError, Global};
use std::marker::Model;

/// The fields of all classes, by their numbers. All memory is taken by `new`.
#[derive(Drop)]
pub struct Fields {
    values: Vec<Value, Global>,
}

impl Model for Fields {
    ghost use Rattle.std.specs.Prelude.{List};
    ghost use Rattle.jvm_definition.specs.declared.value.Value.{Value as FieldValue};

    ghost Value = { List FieldValue };

    ghost view = { λ f. f.values.items };
}

impl Fields {
    /// Fields of these types, before anything is put into them.
    pub fn new(alloc: Global, kinds: &[Kind]) -> Result<Fields, AllocError>
        ensures { IfOk result (λ fields. fields ≡ map zero_of kinds.now) }
    {
        let mut values = Vec::with_capacity(alloc, kinds.len())?;
        for kind in kinds {
            values.push(zero_of(*kind))?;
        }
        Ok(Fields { values })
    }

    #[inline]
    pub fn get(&self, field: u32) -> Value
        requires { field < length self.now }
        ensures { result ≡ slice_index_or self.now field unset }
    {
        self.values[field as usize]
    }

    #[inline]
    pub fn set(&mut self, field: u32, v: Value)
        requires { field < length self.old }
        ensures { self.new ≡ slice_set self.old field v }
    {
        self.values[field as usize] = v;
    }

    /// Each field is again as it was before anything was put into it.
    pub fn reset(&mut self, kinds: &[Kind])
        requires { length kinds.now ≡ length self.old }
        ensures { self.new ≡ map zero_of kinds.now }
    {
        reset_values(&mut self.values, kinds);
    }
}

fn reset_values(values: &mut [Value], kinds: &[Kind])
    requires { length kinds.now ≡ length values.old }
    ensures { values.new ≡ map zero_of kinds.now }
{
    for i in 0..values.len() {
        values[i] = zero_of(kinds[i]);
    }
}

/// The value with which a field of a type begins (JVM Specification, 2.3 and 2.4).
fn zero_of(kind: Kind) -> Value
    ensures { result ≡ zero_of kind }
{
    match kind {
        Kind::Top => Value::Unset,
        Kind::Int => Value::Int(0),
        Kind::Long => Value::Long(0),
        Kind::Null | Kind::Ints | Kind::Pages | Kind::Text => Value::Null,
    }
}
