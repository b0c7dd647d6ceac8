//! Where the parts of a file are.
ghost use Rattle.std.specs.Prelude.{◌≡◌, ◌≤◌, length};
ghost use Rattle.elf_definition.specs.FilePlaces.{aligned, contents_place, contents_end, part_end, file_offset};

use elf_definition::Part;

/// The first multiple of 4 from `at` on.
pub fn next_aligned(at: u32) -> u32
    requires { at ≤ 67108864 }
    ensures { result ≡ aligned at }
{
    (at + 3) / 4 * 4
}

/// The place where the bytes of the first segment may begin: after the header and the program headers.
pub fn contents_place_of(segments: &[Part]) -> u32
    requires { length segments.now ≤ 65534 }
    ensures { result ≡ contents_place segments.now }
{
    52 + 32 * segments.len() as u32
}

/// The end of the last segment's bytes, where what is before them ends at `start`.
#[tactic(auto, using(crate::proofs::PlaceLemmas::le_contents_end))]
pub fn contents_end_of(start: u32, segments: &[Part]) -> u32
    requires { contents_end start segments.now ≤ 67108864 }
    ensures { result ≡ contents_end start segments.now }
{
    let mut at = start;
    let mut rest = segments;
    while let Some((part, others)) = rest.split_first() {
        at = part_end_of(at, part);
        rest = others;
    }
    at
}

/// The end of a segment's bytes, where what is before them ends at `at`.
pub fn part_end_of(at: u32, part: &Part) -> u32
    requires { part_end at part.now ≤ 67108864 }
    ensures { result ≡ part_end at part.now }
{
    next_aligned(at) + part.bytes.len() as u32
}

/// The file offset of an address in the first segment whose file part holds it, else 0, where what is before the segments'
/// bytes ends at `start`. It takes a look at each segment before that one.
#[tactic(auto, using(crate::proofs::PlaceLemmas::le_contents_end))]
pub fn file_offset_of(start: u32, segments: &[Part], address: u32) -> u32
    requires { contents_end start segments.now ≤ 67108864 }
    ensures { result ≡ file_offset start segments.now address }
{
    let mut at = start;
    let mut rest = segments;
    while let Some((part, others)) = rest.split_first() {
        if address >= part.vaddr && ((address - part.vaddr) as usize) < part.bytes.len() {
            return next_aligned(at) + (address - part.vaddr);
        }
        at = part_end_of(at, part);
        rest = others;
    }
    0
}
