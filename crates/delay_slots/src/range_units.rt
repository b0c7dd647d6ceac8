ghost use Rattle.std.specs.Prelude.{◌≡◌, ◌+◌, ◌<◌, ◌≤◌, List, IfOk, IfSome, drop, length, slice_index_or, take};
ghost use Rattle.delay_slots.specs.declared.unit.Unit.{Unit};
ghost use Rattle.delay_slots.specs.declared.unit.Unit.TheVariants.{Call};
ghost use Rattle.delay_slots.specs.Units.{units_of};

use crate::builder::unit;
use crate::unit::Unit;
use mips_decode::decode;
use std::alloc::{AllocError, Global};
use std::marker::Model;

/// The units of the words of one whole range of code, one for each word in order.
///
/// It keeps the words, and a unit is worked out where it is asked for: all units would take five times as much memory. Those of some
/// words, of which much is asked at a time, can be kept beside them.
#[derive(Drop)]
pub struct RangeUnits {
    words: Vec<u32>,
    /// The first word whose unit is kept.
    first: usize,
    /// The units that are kept.
    kept: Vec<Unit>,
}

impl Model for RangeUnits {
    ghost Value = { List Unit };

    ghost view = { λ u. units_of u.words.items };

    ghost invariant = { λ u. u.kept.items
        ≡ take (length u.kept.items) (drop u.first (units_of u.words.items)) };
}

impl RangeUnits {
    /// Those of these words. None is kept.
    pub(crate) fn of(alloc: Global, words: Vec<u32>) -> RangeUnits
        ensures { result ≡ units_of words.items }
    {
        RangeUnits {
            words,
            first: 0,
            kept: Vec::new(alloc),
        }
    }

    /// How many there are.
    #[tactic(auto, using(crate::proofs::PartLemmas::unit_count))]
    pub fn len(&self) -> usize
        ensures { result ≡ length self.now }
    {
        self.words.len()
    }

    /// The unit of a word.
    #[tactic(auto, using(crate::proofs::PartLemmas::unit_count))]
    pub fn at(&self, k: usize) -> Unit
        requires { k < length self.now }
        ensures { result ≡ slice_index_or self.now k Call }
    {
        if self.first <= k && k - self.first < self.kept.len() {
            self.kept[k - self.first]
        } else {
            unit_at(self.words.as_slice(), k)
        }
    }

    /// The units of so many words from one on.
    ///
    /// # Errors
    /// Out of memory for them.
    #[tactic(auto, using(crate::proofs::PartLemmas::unit_count))]
    pub fn part(&self, alloc: Global, first: usize, count: usize) -> Result<Vec<Unit>, AllocError>
        requires { first + count ≤ length self.now }
        ensures { IfOk result (λ part. part.items ≡ take count (drop first self.now)) }
    {
        match self.kept_part(first, count) {
            Some(part) => Vec::from_slice(alloc, part),
            None => part_of(alloc, self.words.as_slice(), first, count),
        }
    }

    /// The units of so many words from one on, where all of them are kept.
    #[tactic(auto, using(crate::proofs::PartLemmas::part_kept))]
    fn kept_part(&self, first: usize, count: usize) -> Option<&[Unit]>
        ensures { IfSome result (λ part. part.now ≡ take count (drop first self.now)) }
    {
        let kept = self.kept.as_slice();
        if first < self.first {
            return None;
        }
        let from = first - self.first;
        if from <= kept.len() && count <= kept.len() - from {
            Some(&kept[from..from + count])
        } else {
            None
        }
    }

    /// Keeps the units of so many words from one on, in place of those that it kept.
    ///
    /// # Errors
    /// Out of memory for them; it keeps what it kept.
    #[tactic(auto, using(crate::proofs::PartLemmas::unit_count))]
    pub fn keep(&mut self, alloc: Global, first: usize, count: usize) -> Result<(), AllocError>
        requires { first + count ≤ length self.old }
        ensures { self.new ≡ self.old }
    {
        let kept = part_of(alloc, self.words.as_slice(), first, count)?;
        self.first = first;
        self.kept = kept;
        Ok(())
    }
}

/// The unit of a word among the words of a range.
fn unit_at(words: &[u32], k: usize) -> Unit
    requires { k < length words.now }
    ensures { result ≡ slice_index_or (units_of words.now) k Call }
{
    unit(decode(words[k]), &words[k + 1..])
}

/// The units of so many words from one on, among the words of a range.
#[tactic(auto, using(crate::proofs::PartLemmas::unit_count, crate::proofs::PartLemmas::part_more))]
fn part_of(
    alloc: Global,
    words: &[u32],
    first: usize,
    count: usize,
) -> Result<Vec<Unit>, AllocError>
    requires { first + count ≤ length words.now }
    ensures { IfOk result (λ part. part.items ≡ take count (drop first (units_of words.now))) }
{
    let mut part = Vec::with_capacity(alloc, count)?;
    for k in 0..count {
        part.push(unit_at(words, first + k))?;
    }
    Ok(part)
}
