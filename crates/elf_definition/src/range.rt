use crate::section_header::SectionHeader;
use crate::segment::Segment;

/// Instruction words that follow one another in memory.
#[derive(Clone, Copy, Debug, PartialEq, Eq)]
pub struct Range {
    /// The address of the first word, a multiple of 4.
    pub first: u32,
    /// The number of words.
    pub words: u32,
}

impl Range {
    ghost use Rattle.std.specs.Prelude.{◌≡◌, ◌+◌, ◌-◌, ◌*◌, ◌/◌, ◌^◌, ◌≤◌, max};
    ghost use Rattle.elf_definition.specs.Area.{range_end, section_range, segment_range};
    ghost use Rattle.elf_definition.specs.Segments.{file_end};

    /// The first address after it.
    pub fn end(&self) -> u64
        ensures { result ≡ range_end self.now }
    {
        u64::from(self.first) + 4 * u64::from(self.words)
    }

    /// The words of a code section.
    pub fn of_section(section: &SectionHeader) -> Range
        ensures { result ≡ section_range section.now }
    {
        Range {
            first: section.sh_addr,
            words: section.sh_size / 4,
        }
    }

    /// The words of a segment's bytes in the file.
    pub fn of_segment(segment: &Segment) -> Range
        requires { file_end segment.now ≤ 0x7F00_0000 }
        ensures { result ≡ segment_range segment.now }
    {
        let first = segment.vaddr.div_ceil(4);
        Range {
            first: first * 4,
            words: ((segment.file_end() / 4) as u32).saturating_sub(first),
        }
    }

    /// This range and one that begins in it or right after it, as one range.
    pub fn joined(self, next: Range) -> Range
        requires low { range_end self ≤ 2 ^ 32 }
        requires next_low { range_end next ≤ 2 ^ 32 }
        requires first { self.first ≤ next.first }
        ensures { result
            ≡ record {
              first = self.first;
              words = (max (range_end self) (range_end next) - self.first) / 4;
            } }
    {
        let end = self.end().max(next.end());
        Range {
            first: self.first,
            words: ((end - u64::from(self.first)) / 4) as u32,
        }
    }
}
