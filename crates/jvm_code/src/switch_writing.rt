//! The operands of switches as bytes.
ghost use Rattle.std.specs.Prelude.{◌≡◌, ◌≤◌, ◌<◌, ◌^◌, ◌++◌, true, OnOk, length, replicate};
ghost use Rattle.std.specs.Int.{w32};
ghost use Rattle.class_definition.specs.Format.{fits_signed, chain_spelling};
ghost use Rattle.class_definition.specs.Targets.{wide};
ghost use Rattle.class_definition.specs.Switches as format;

use crate::encode::NoMemory;
use crate::number_writing::{append_signed_word, append_word};
use crate::switch_reading::pad_of;
use crate::target_writing::append_wide;
use jvm_definition::{LookupSwitch, Pair, TableSwitch};

/// Appends the operands of a `tableswitch` at a place.
pub fn append_table_switch(
    code: &mut Vec<u8>,
    at: u32,
    switch: &TableSwitch,
) -> Result<(), NoMemory>
    requires low { at < 2 ^ 16 }
    requires fits { (format.table_switch at).fits switch.now ≡ true }
    ensures { OnOk result (code.new.items ≡ code.old.items
        ++ (format.table_switch at).spell switch.now) }
{
    let last = last_key(switch);
    append_padding(code, at)?;
    append_wide(code, at, switch.default)?;
    append_signed_word(code, switch.low)?;
    append_signed_word(code, last)?;
    append_targets(code, at, switch.targets.as_slice())
}

// The greatest key.
fn last_key(switch: &TableSwitch) -> i32
    requires { fits_signed w32 (format.last_key switch.now) ≡ true }
    ensures { result ≡ format.last_key switch.now }
{
    let count = switch.targets.as_slice().len() as i64;
    (i64::from(switch.low) + count - 1) as i32
}

fn append_padding(code: &mut Vec<u8>, at: u32) -> Result<(), NoMemory>
    ensures { OnOk result (code.new.items ≡ code.old.items ++ replicate (format.pad_of at) 0) }
{
    for _ in 0..pad_of(at) {
        code.push(0)?;
    }
    Ok(())
}

fn append_targets(code: &mut Vec<u8>, at: u32, targets: &[u32]) -> Result<(), NoMemory>
    requires { at < 2 ^ 16 }
    ensures { OnOk result (code.new.items ≡ code.old.items
        ++ chain_spelling {S = Unit {0}} (λ _ _. wide at) (λ s _. s) tt targets.now) }
{
    let mut rest = targets;
    while let Some((target, others)) = rest.split_first() {
        append_wide(code, at, *target)?;
        rest = others;
    }
    Ok(())
}

/// Appends the operands of a `lookupswitch` at a place.
pub fn append_lookup_switch(
    code: &mut Vec<u8>,
    at: u32,
    switch: &LookupSwitch,
) -> Result<(), NoMemory>
    requires low { at < 2 ^ 16 }
    requires fits { (format.lookup_switch at).fits switch.now ≡ true }
    ensures { OnOk result (code.new.items ≡ code.old.items
        ++ (format.lookup_switch at).spell switch.now) }
{
    let pairs = switch.pairs.as_slice();
    append_padding(code, at)?;
    append_wide(code, at, switch.default)?;
    append_word(code, pairs.len() as u32)?;
    append_pairs(code, at, pairs)
}

fn append_pairs(code: &mut Vec<u8>, at: u32, pairs: &[Pair]) -> Result<(), NoMemory>
    requires { at < 2 ^ 16 }
    ensures { OnOk result (code.new.items ≡ code.old.items
        ++ chain_spelling {S = Unit {0}} (λ _ _. format.pair at) (λ s _. s) tt pairs.now) }
{
    let mut rest = pairs;
    while let Some((pair, others)) = rest.split_first() {
        append_pair(code, at, *pair)?;
        rest = others;
    }
    Ok(())
}

fn append_pair(code: &mut Vec<u8>, at: u32, pair: Pair) -> Result<(), NoMemory>
    requires { at < 2 ^ 16 }
    ensures { OnOk result (code.new.items ≡ code.old.items ++ (format.pair at).spell pair) }
{
    append_signed_word(code, pair.key)?;
    append_wide(code, at, pair.target)
}
