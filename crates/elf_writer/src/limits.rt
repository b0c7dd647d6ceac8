ghost use Rattle.std.specs.Prelude.{◌≡◌, ◌≤◌, ◌↔◌, IsTrue, SomeIff, length};
ghost use Rattle.elf_writer.specs.Limits.{IsWritable};
ghost use Rattle.elf_definition.specs.FilePlaces.{contents_end, table_end};

use crate::place::{contents_place_of, next_aligned, part_end_of};
use elf_definition::{Part, Parts, Sec};

/// The greatest length of a written file, in bytes.
const MAX_FILE: u32 = 67_108_864;

/// The greatest number of segments, and of sections.
const MAX_HEADERS: usize = 65_534;

/// Whether a file may be written of these parts: 1 to 65,534 segments, at most 65,534 sections, and at most 67,108,864 bytes.
pub fn is_writable(parts: &Parts) -> bool
    ensures { IsTrue result ↔ IsWritable parts.now }
{
    let segments = parts.segments.as_slice();
    let sections = parts.sections.as_slice();
    if segments.is_empty() || segments.len() > MAX_HEADERS || sections.len() > MAX_HEADERS {
        return false;
    }
    match contents_end_within(contents_place_of(segments), segments) {
        None => false,
        Some(end) => table_end_of(end, sections) <= MAX_FILE,
    }
}

/// The end of the last segment's bytes, where what is before them ends at `start`, or `None` where that is too long a file.
#[tactic(auto, using(crate::proofs::PlaceLemmas::le_contents_end))]
fn contents_end_within(start: u32, segments: &[Part]) -> Option<u32>
    requires { start ≤ 67108864 }
    ensures { SomeIff result (contents_end start segments.now ≤ 67108864)
        (contents_end start segments.now) }
{
    let mut at = start;
    let mut rest = segments;
    while let Some((part, others)) = rest.split_first() {
        let room = MAX_FILE - next_aligned(at);
        if part.bytes.len() > room as usize {
            return None;
        }
        at = part_end_of(at, part);
        rest = others;
    }
    Some(at)
}

/// The end of the section header table in a file whose segments end at `end`.
fn table_end_of(end: u32, sections: &[Sec]) -> u32
    requires within { end ≤ 67108864 }
    requires few { length sections.now ≤ 65534 }
    ensures { result ≡ table_end end sections.now }
{
    match sections {
        [] => end,
        [_, ..] => next_aligned(end) + 40 * (1 + sections.len() as u32),
    }
}
