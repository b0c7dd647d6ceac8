//! The operands of switches from bytes.
ghost use Rattle.std.specs.Prelude.{◌≡◌, ◌<◌, ◌^◌, ◌&&◌, nat_lt};
ghost use Rattle.class_format.specs.Gives.{Gives};
ghost use Rattle.class_definition.specs.Format.{repeated};
ghost use Rattle.class_definition.specs.Targets.{wide};
ghost use Rattle.class_definition.specs.Switches as format;

use crate::reading::wide_of;
use class_format::{Failure, missed, raw_of, signed_word_of, word_of};
use jvm_definition::{LookupSwitch, Pair, Sequence, TableSwitch};
use std::alloc::Global;

const CUT: u32 = 2;

const SWITCH_KEYS: u32 = 4;

/// The operands of a `tableswitch` at a place.
#[tactic(auto, unfolding(class_definition::specs::Switches::table_switch))]
pub fn table_switch_of(
    alloc: Global,
    at: u32,
    bytes: &[u8],
) -> Result<(TableSwitch, &[u8]), Failure>
    requires { at < 2 ^ 16 }
    ensures { Gives (λ x. (x.0, x.1.now)) result ((format.table_switch at).read bytes.now) }
{
    let ((_, default, low, high), rest) = table_head_of(at, bytes)?;
    let (targets, rest) = targets_of(alloc, at, key_count(low, high), rest)?;
    let targets = Sequence::new(targets);
    Ok((
        TableSwitch {
            default,
            low,
            targets,
        },
        rest,
    ))
}

// The padding, the default target, and the least and the greatest key.
fn table_head_of(at: u32, bytes: &[u8]) -> Result<((&[u8], u32, i32, i32), &[u8]), Failure>
    requires { at < 2 ^ 16 }
    ensures { Gives (λ x. ((x.0.0.now, (x.0.1, (x.0.2, x.0.3))), x.1.now)) result
        ((format.table_head at).read bytes.now) }
{
    let (padding, rest) = raw_of(CUT, bytes, pad_of(at))?;
    let (default, rest) = wide_of(at, rest)?;
    let (low, rest) = signed_word_of(CUT, rest)?;
    let (high, rest) = signed_word_of(CUT, rest)?;
    if !is_table_head(padding, low, high) {
        return Err(missed(SWITCH_KEYS, bytes));
    }
    Ok(((padding, default, low, high), rest))
}

fn is_table_head(padding: &[u8], low: i32, high: i32) -> bool
    ensures { result ≡ (format.is_padding padding.now && nat_lt 0 (format.key_count low high)) }
{
    is_padding(padding) && 0 < key_count(low, high)
}

/// The number of padding bytes after a switch's opcode at a place.
pub fn pad_of(at: u32) -> usize
    ensures { result ≡ format.pad_of at }
{
    3 - (at % 4) as usize
}

fn is_padding(bytes: &[u8]) -> bool
    ensures { result ≡ format.is_padding bytes.now }
{
    let mut rest = bytes;
    while let Some((byte, others)) = rest.split_first() {
        if *byte != 0 {
            return false;
        }
        rest = others;
    }
    true
}

// How many keys there are from one to another.
fn key_count(low: i32, high: i32) -> u64
    ensures { result ≡ format.key_count low high }
{
    if low <= high {
        (i64::from(high) - i64::from(low)).cast_unsigned() + 1
    } else {
        0
    }
}

fn targets_of(
    alloc: Global,
    at: u32,
    count: u64,
    bytes: &[u8],
) -> Result<(Vec<u32>, &[u8]), Failure>
    requires { at < 2 ^ 16 }
    ensures { Gives (λ x. (x.0.items, x.1.now)) result ((repeated (wide at) count).read bytes.now) }
{
    let mut targets = Vec::new(alloc);
    let mut rest = bytes;
    let mut to_come = count;
    while to_come > 0 {
        to_come -= 1;
        let (target, others) = wide_of(at, rest)?;
        targets.push(target)?;
        rest = others;
    }
    Ok((targets, rest))
}

/// The operands of a `lookupswitch` at a place.
#[tactic(auto, unfolding(class_definition::specs::Switches::lookup_switch))]
pub fn lookup_switch_of(
    alloc: Global,
    at: u32,
    bytes: &[u8],
) -> Result<(LookupSwitch, &[u8]), Failure>
    requires { at < 2 ^ 16 }
    ensures { Gives (λ x. (x.0, x.1.now)) result ((format.lookup_switch at).read bytes.now) }
{
    let (padding, rest) = raw_of(CUT, bytes, pad_of(at))?;
    let (default, rest) = wide_of(at, rest)?;
    let (count, rest) = word_of(CUT, rest)?;
    if !(is_padding(padding) && count < 0x8000_0000) {
        return Err(missed(SWITCH_KEYS, bytes));
    }
    let (pairs, behind) = pairs_of(alloc, at, count, rest)?;
    if !rises(&pairs) {
        return Err(missed(SWITCH_KEYS, rest));
    }
    let pairs = Sequence::new(pairs);
    Ok((LookupSwitch { default, pairs }, behind))
}

fn pair_of(at: u32, bytes: &[u8]) -> Result<(Pair, &[u8]), Failure>
    requires { at < 2 ^ 16 }
    ensures { Gives (λ x. (x.0, x.1.now)) result ((format.pair at).read bytes.now) }
{
    let (key, rest) = signed_word_of(CUT, bytes)?;
    let (target, rest) = wide_of(at, rest)?;
    Ok((Pair { key, target }, rest))
}

fn pairs_of(alloc: Global, at: u32, count: u32, bytes: &[u8]) -> Result<(Vec<Pair>, &[u8]), Failure>
    requires { at < 2 ^ 16 }
    ensures { Gives (λ x. (x.0.items, x.1.now)) result
        ((repeated (format.pair at) count).read bytes.now) }
{
    let mut pairs = Vec::new(alloc);
    let mut rest = bytes;
    let mut to_come = count;
    while to_come > 0 {
        to_come -= 1;
        let (pair, others) = pair_of(at, rest)?;
        pairs.push(pair)?;
        rest = others;
    }
    Ok((pairs, rest))
}

// Whether each key is above the one before.
fn rises(pairs: &[Pair]) -> bool
    ensures { result ≡ format.rises pairs.now }
{
    match pairs.split_first() {
        None => true,
        Some((pair, others)) => rises_from(pair.key, others),
    }
}

fn rises_from(first: i32, pairs: &[Pair]) -> bool
    ensures { result ≡ format.rises_from first pairs.now }
{
    let mut key = first;
    let mut rest = pairs;
    while let Some((pair, others)) = rest.split_first() {
        if key >= pair.key {
            return false;
        }
        key = pair.key;
        rest = others;
    }
    true
}
