ghost use Rattle.std.specs.Prelude.{◌≡◌, ℕ, ◌<◌, ◌≤◌, ◌∷◌, drop, length, slice_index_or, IsTrue};
ghost use Rattle.jvm_definition.specs.declared.value.Value.TheVariants.{Unset as unset, Int as int};
ghost use Rattle.jvm_definition.specs.Values.{is_int, reference_value};
ghost use Rattle.jvm_activations.specs.Stack.{on_top};
ghost use Rattle.jvm_steps.specs.Hosting.{word_tests, is_array_or_null};

use jvm_activations::Operands;
use jvm_definition::Value;
use nv_events::Call;

/// What a call of the system finds among the operands.
#[derive(Clone, Copy)]
pub(crate) struct HostWords {
    /// The array of the pages that can be read; None for null.
    pub(crate) readable: Option<u32>,
    /// The array of the pages that may be written.
    pub(crate) writable: Option<u32>,
    pub(crate) call: Call,
}

impl HostWords {
    ghost use Rattle.jvm_steps.specs.Hosting.{host_items};

    /// The uppermost seven operands.
    pub(crate) fn of(operands: &Operands) -> HostWords
        requires { IsTrue (on_top word_tests operands.now.items) }
        ensures words { operands.now.items ≡ host_items result (drop 7 operands.now.items) }
    {
        HostWords {
            readable: table_at(operands, 6),
            writable: table_at(operands, 5),
            call: Call {
                number: int_at(operands, 4),
                a0: int_at(operands, 3),
                a1: int_at(operands, 2),
                a2: int_at(operands, 1),
                a3: int_at(operands, 0),
            },
        }
    }
}

/// The int that has k operands above it.
pub(crate) fn int_at(operands: &Operands, k: usize) -> u32
    requires within { k < length operands.now.items }
    requires int { IsTrue (is_int (slice_index_or operands.now.items k unset)) }
    ensures { slice_index_or operands.now.items k unset ≡ int result }
{
    match operands.peek(k) {
        Value::Int(n) => n,
        _ => unreachable!(),
    }
}

/// The array, or null, that has k operands above it.
fn table_at(operands: &Operands, k: usize) -> Option<u32>
    requires within { k < length operands.now.items }
    requires reference { IsTrue (is_array_or_null (slice_index_or operands.now.items k unset)) }
    ensures { slice_index_or operands.now.items k unset ≡ reference_value result }
{
    match operands.peek(k) {
        Value::Null => None,
        Value::Array(place) => Some(place),
        _ => unreachable!(),
    }
}

/// Drops the uppermost seven operands.
pub(crate) fn drop_words(operands: &mut Operands)
    requires { 7 ≤ length operands.old.items }
    ensures dropped { operands.new.items ≡ drop 7 operands.old.items }
    ensures limit { operands.new.limit ≡ operands.old.limit }
    ensures room { length operands.new.items < operands.new.limit }
{
    operands.pop();
    operands.pop();
    operands.pop();
    operands.pop();
    operands.pop();
    operands.pop();
    operands.pop();
}
