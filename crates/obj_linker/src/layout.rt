//! Where the sections of all objects are placed.
ghost use Rattle.std.specs.Prelude.{◌≡◌, ◌^◌, ◌<◌, ◌≤◌, IfOk, IfSome, SomeIff, is_none};
ghost use Rattle.obj_linker.specs.Cursor.{IsEnds};
ghost use Rattle.obj_linker.specs.Layout as spec;

use crate::cursors::Cursors;
use crate::group::Group;
use obj_reader::Section;
use std::alloc::{AllocError, Global};

/// The address at which the text begins, with the code.
pub const TEXT_START: u32 = 0x0040_0000;
/// The address at which the data begins.
pub const DATA_START: u32 = 0x1000_0000;
/// The greatest end of the text, which has at most 16,777,216 bytes.
const MAX_TEXT: u32 = 0x0140_0000;
/// The greatest end of the data, which has at most 16,777,216 bytes.
const MAX_DATA: u32 = 0x1100_0000;
/// The greatest end of the zeros after the data, which has at most 1,073,741,824 bytes with them.
const MAX_ZEROS: u32 = 0x5000_0000;

/// Where the groups of sections end.
#[derive(Clone, Copy)]
pub struct Ends {
    /// After the code.
    pub code: u32,
    /// After the constants, which are after the code.
    pub text: u32,
    /// After the data.
    pub data_end: u32,
    /// After the zeros, which are after the data.
    pub zeros: u32,
}

/// Where the groups of sections end, or `None` where a segment is too large.
#[tactic(auto, unfolding(crate::specs::Layout::is_too_large, crate::specs::Layout::code_end, crate::specs::Layout::text_end, crate::specs::Layout::data_end, crate::specs::Layout::zeros_end))]
pub fn ends_of(sections: &[Section]) -> Option<Ends>
    ensures large { is_none result ≡ spec.is_too_large sections.now }
    ensures ends { IfSome result (IsEnds sections.now) }
{
    let code = group_end(Group::Code, TEXT_START, MAX_TEXT, sections)?;
    let text = group_end(Group::Constants, code, MAX_TEXT, sections)?;
    let data_end = group_end(Group::Data, DATA_START, MAX_DATA, sections)?;
    let zeros = group_end(Group::Zeros, data_end, MAX_ZEROS, sections)?;
    Some(Ends {
        code,
        text,
        data_end,
        zeros,
    })
}

/// Where a group of sections ends that is placed after an address, or `None` where that is above a limit.
#[tactic(auto, using(crate::proofs::LayoutLemmas::le_group_end))]
fn group_end(group: Group, start: u32, limit: u32, sections: &[Section]) -> Option<u32>
    requires within { start ≤ limit }
    requires low { limit < 2 ^ 31 }
    ensures { SomeIff result (spec.group_end group start sections.now ≤ limit)
        (spec.group_end group start sections.now) }
{
    let mut at = start;
    let mut rest = sections;
    while let Some((s, others)) = rest.split_first() {
        at = next_end(group, at, limit, s)?;
        rest = others;
    }
    Some(at)
}

/// Where a group ends with one section more, or `None` where that is above a limit.
fn next_end(group: Group, at: u32, limit: u32, s: &Section) -> Option<u32>
    requires within { at ≤ limit }
    requires low { limit < 2 ^ 31 }
    ensures { SomeIff result (spec.next_end group at s.now ≤ limit) (spec.next_end group at s.now) }
{
    if !group.has(s) {
        return Some(at);
    }
    let end = section_start(at, s) + u64::from(s.sh_size);
    if end > u64::from(limit) {
        return None;
    }
    Some(end as u32)
}

/// Where a section begins that is placed after an address: at the next multiple of its alignment.
#[tactic(auto, using(crate::proofs::LayoutLemmas::rounded_within))]
pub fn section_start(at: u32, s: &Section) -> u64
    ensures value { result ≡ spec.section_start at s.now }
    ensures low { result < 2 ^ 33 }
{
    let alignment = u64::from(s.sh_addralign.max(1));
    (u64::from(at) + (alignment - 1)) / alignment * alignment
}

/// The place of each section, 0 where it gets none.
#[tactic(auto, unfolding(crate::specs::Layout::places_of))]
pub fn places_of(alloc: Global, sections: &[Section], ends: &Ends) -> Result<Vec<u32>, AllocError>
    requires { IsEnds sections.now ends.now }
    ensures { IfOk result (λ places. places.items ≡ spec.places_of sections.now) }
{
    let mut cursors = Cursors {
        code: TEXT_START,
        constants: ends.code,
        data_at: DATA_START,
        zeros: ends.data_end,
    };
    let mut places = Vec::new(alloc);
    for s in sections {
        places.push(cursors.place(s))?;
    }
    Ok(places)
}
