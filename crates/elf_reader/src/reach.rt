//! Spans in rising order, so that one that holds given numbers is found at once.
ghost use Rattle.std.specs.Prelude.{◌≡◌, ℕ, ◌+◌, ◌≤◌, ◌<◌, length, IfOk, IsPermutation, slice_index_or};
ghost use Rattle.std.specs.List.Sorted.{IsNonDecreasingBy};
ghost use Rattle.elf_reader.specs.Spans.{are_within, AreRising, AreFilled, IsLeastFrom};
ghost use Rattle.elf_reader.specs.declared.span.Span.{Span};

use crate::span::Span;
use std::alloc::{AllocError, Global};

/// Spans that rise and hold the same stretches of numbers: those given by their first numbers, each reaching as far as the
/// furthest of those before it.
pub fn rising(alloc: Global, spans: Vec<Span>) -> Result<Vec<Span>, AllocError>
    ensures rise { IfOk result (λ v. AreRising v.items) }
    ensures filled { IfOk result (λ v. AreFilled spans.items → AreFilled v.items) }
    ensures same { IfOk result (λ v. (first behind : ℕ) → first < behind →
        are_within first behind v.items ≡ are_within first behind spans.items) }
{
    let sorted = by_first(spans)?;
    reaching(alloc, sorted.as_slice())
}

/// The spans by their first numbers.
fn by_first(mut spans: Vec<Span>) -> Result<Vec<Span>, AllocError>
    ensures rise { IfOk result (λ v. IsNonDecreasingBy (λ (s : Span). s.first) v.items) }
    ensures same { IfOk result (λ v. IsPermutation spans.items v.items) }
{
    spans.sort_by_key(|s| s.first)?;
    Ok(spans)
}

/// Each span with the furthest end up to it.
fn reaching(alloc: Global, spans: &[Span]) -> Result<Vec<Span>, AllocError>
    requires { IsNonDecreasingBy (λ (s : Span). s.first) spans.now }
    ensures rise { IfOk result (λ v. AreRising v.items) }
    ensures filled { IfOk result (λ v. AreFilled spans.now → AreFilled v.items) }
    ensures same { IfOk result (λ v. (first behind : ℕ) → first < behind →
        are_within first behind v.items ≡ are_within first behind spans.now) }
{
    let mut reaches = Vec::new(alloc);
    let mut furthest = 0;
    for s in spans {
        furthest = s.end.max(furthest);
        reaches.push(Span {
            first: s.first,
            end: furthest,
        })?;
    }
    Ok(reaches)
}

/// Whether the numbers from `first` up to `behind` lie in one of the rising spans.
pub fn are_within(spans: &[Span], first: u64, behind: u64) -> bool
    requires { AreRising spans.now }
    ensures { result ≡ are_within first behind spans.now }
{
    let begun = begun_at(spans, first);
    begun > 0 && behind <= spans[begun - 1].end
}

/// The least number from `at` on that lies in one of the rising spans.
pub fn next_within(spans: &[Span], at: u64) -> Option<u64>
    requires rise { AreRising spans.now }
    requires filled { AreFilled spans.now }
    ensures { IsLeastFrom at (λ n. are_within n (n + 1) spans.now) result }
{
    let begun = begun_at(spans, at);
    if begun > 0 && at < spans[begun - 1].end {
        return Some(at);
    }
    if begun < spans.len() {
        return Some(spans[begun].first);
    }
    None
}

/// How many of the rising spans begin at `at` or before.
fn begun_at(spans: &[Span], at: u64) -> usize
    requires { AreRising spans.now }
    ensures bound { result ≤ length spans.now }
    ensures begun { (k : ℕ) (d : Span) → k < result → (slice_index_or spans.now k d).first ≤ at }
    ensures later { (k : ℕ) (d : Span) → result ≤ k → k < length spans.now
        → at < (slice_index_or spans.now k d).first }
{
    spans.partition_point(|s| s.first <= at)
}
