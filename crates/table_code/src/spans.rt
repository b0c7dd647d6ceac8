//! Code that is cut into methods.
ghost use Rattle.std.specs.Prelude.{◌≡◌, ◌+◌, ◌≤◌, All, true};

use anyhow::{Result, ensure};
use method_splitter::{Span, cut};
use std::alloc::{AllocError, Global};
use std::fmt::Write;
use table_rows::{count, rest};

/// How many spans there are, and each as `FIRST+WORDS`, of words with these weights where a method has so many bytes: `cut LIMIT WEIGHTS`.
pub fn cut_row(alloc: Global, text: &mut String, row: &str) -> Result<()> {
    let weights = weights_of(alloc, rest(row, 2))?;
    push_cut(alloc, text, weights.as_slice(), count(row, 1))
}

fn weights_of(alloc: Global, words: &str) -> Result<Vec<u32>> {
    let mut weights = Vec::new(alloc);
    for word in words.split_whitespace() {
        weights.push(word.parse::<u32>()?)?;
    }
    Ok(weights)
}

fn push_cut(alloc: Global, text: &mut String, weights: &[u32], limit: u32) -> Result<()> {
    ensure!(weights.len() <= 12_288, "there are too many words");
    ensure!(each_fits(weights, limit), "a word is too heavy");
    let spans = cut(alloc, weights, limit)?;
    push_spans(text, spans.as_slice())?;
    Ok(())
}

fn push_spans(text: &mut String, spans: &[Span]) -> Result<(), AllocError> {
    let count = spans.len();
    write!(text, "{count}:")?;
    for span in spans {
        let (first, words) = (span.first, span.words);
        write!(text, " {first}+{words}")?;
    }
    Ok(())
}

fn each_fits(weights: &[u32], limit: u32) -> bool
    ensures { result ≡ true → All (λ w. 100 + w ≤ limit) weights.now }
{
    weights
        .iter()
        .all(|weight| 100 + u64::from(*weight) <= u64::from(limit))
}
