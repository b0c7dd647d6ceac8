//! Switches (JVM Specification, 2.11.7). A target goes by its number, and the default one is 0.
ghost use Rattle.std.specs.Prelude.{◌≡◌, ℕ, ◌-ℤ◌, List, [], ◌∷◌, IsTrue, length};
ghost use Rattle.jvm_definition.specs.declared.table_switch.TableSwitch.{TableSwitch};
ghost use Rattle.jvm_definition.specs.declared.lookup_switch.LookupSwitch.{LookupSwitch};
ghost use Rattle.jvm_definition.specs.declared.instruction.Instruction.TheVariants as instructions;
ghost use Rattle.jvm_definition.specs.Values.{is_int};
ghost use Rattle.jvm_definition.specs.Effect as effects;
ghost use Rattle.jvm_activations.specs.Stack.{on_top};
ghost use Rattle.jvm_activations.specs.Forms.{Jumps};
ghost use Rattle.jvm_activations.specs.Keys.{keys_of, rise, rise_from, number_of};

use crate::operands::Operands;
use nv_words::signed;

impl Operands {
    /// `tableswitch` with so many targets, for the keys from `low` on: the number of the target.
    #[inline]
    pub fn table_switch(&mut self, low: i32, count: usize) -> usize
        requires { IsTrue (on_top (is_int ∷ []) self.old.items) }
        ensures jumps { (s : TableSwitch) → s.low ≡ low → length s.targets ≡ count
            → Jumps (instructions.TableSwitch s) self.old.items result self.new.items }
        ensures limit { self.new.limit ≡ self.old.limit }
    {
        table_target(signed(self.pop_int()), low, count)
    }

    /// `lookupswitch` with these keys, which rise: the number of the target.
    #[inline]
    pub fn lookup_switch(&mut self, keys: &[i32]) -> usize
        requires operand { IsTrue (on_top (is_int ∷ []) self.old.items) }
        requires rise { IsTrue (rise keys.now) }
        ensures jumps { (s : LookupSwitch) → keys_of s.pairs ≡ keys.now
            → Jumps (instructions.LookupSwitch s) self.old.items result self.new.items }
        ensures limit { self.new.limit ≡ self.old.limit }
    {
        lookup_target(keys, signed(self.pop_int()))
    }
}

/// Whether each key is above the one before.
pub fn keys_rise(keys: &[i32]) -> bool
    ensures { result ≡ rise keys.now }
{
    match keys.split_first() {
        None => true,
        Some((key, others)) => keys_rise_from(*key, others),
    }
}

fn keys_rise_from(first: i32, keys: &[i32]) -> bool
    ensures { result ≡ rise_from first keys.now }
{
    let mut last = first;
    let mut rest = keys;
    while let Some((key, others)) = rest.split_first() {
        if last >= *key {
            return false;
        }
        last = *key;
        rest = others;
    }
    true
}

#[inline]
fn table_target(key: i32, low: i32, count: usize) -> usize
    ensures { result ≡ effects.table_target (key -ℤ low) count }
{
    let place = i64::from(key) - i64::from(low);
    if place < 0 {
        return 0;
    }
    let place = place as usize;
    if place < count { place + 1 } else { 0 }
}

#[inline]
fn lookup_target(keys: &[i32], key: i32) -> usize
    requires { IsTrue (rise keys.now) }
    ensures { result ≡ number_of keys.now key 1 }
{
    match keys.binary_search(&key) {
        Ok(place) => place + 1,
        Err(_) => 0,
    }
}
