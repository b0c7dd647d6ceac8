use crate::linked::Answer;
use md5::{Digest, Md5};
use std::alloc::{AllocError, Global};
use std::fmt::Write;

/// What came of many links.
#[derive(Drop)]
pub struct Tally {
    /// How many are refused, by their kinds, and how many give a program, at 0.
    counts: [u32; 16],
    /// The digest of all answers, each in a line.
    digest: Md5,
}

impl Tally {
    pub fn new() -> Tally {
        Tally {
            counts: [0; 16],
            digest: Md5::new(),
        }
    }

    /// Counts an answer.
    pub fn add(&mut self, alloc: Global, answer: &Answer) -> Result<(), AllocError> {
        self.count(answer);
        let mut text = String::new(alloc);
        answer.push_to(alloc, &mut text)?;
        self.digest.update(text.as_bytes());
        self.digest.update(b"\n".as_slice());
        Ok(())
    }

    fn count(&mut self, answer: &Answer) {
        let kind = match answer {
            Answer::Refused(fault) => fault.kind,
            Answer::Program(_) | Answer::NoMemory | Answer::TooMuch => 0,
        };
        if let Some(count) = self.counts.get_mut(kind as usize) {
            *count = count.saturating_add(1);
        }
    }

    /// Puts the counts into a text, and the digest.
    pub fn push_to(self, alloc: Global, text: &mut String) -> Result<(), AllocError> {
        push_counts(text, &self.counts)?;
        let digits = hex::encode(alloc, self.digest.finalize().as_slice())?;
        write!(text, ", {digits}")
    }
}

fn push_counts(text: &mut String, counts: &[u32; 16]) -> Result<(), AllocError> {
    let programs = counts[0];
    write!(text, "programs {programs}")?;
    for (kind, count) in counts.iter().enumerate().skip(1) {
        if *count > 0 {
            write!(text, ", kind {kind} {count}")?;
        }
    }
    Ok(())
}
