//! The bytes of the two segments, before anything is relocated.
ghost use Rattle.std.specs.Prelude.{◌≡◌, ◌+◌, ◌-◌, ◌^◌, ◌<◌, ◌≤◌, ◌++◌, ℕ, IfOk, OnOk, drop, length, take, replicate};
ghost use Rattle.obj_linker.specs.Cursor.{IsEnds};
ghost use Rattle.obj_reader.specs.Files.{files_of};
ghost use Rattle.obj_linker.specs.Image as spec;
ghost use Rattle.obj_linker.specs.Layout.{group_end, next_end};
ghost use Rattle.obj_linker.specs.Names.{object_bytes};

use crate::group::Group;
use crate::layout::{DATA_START, Ends, TEXT_START, section_start};
use obj_reader::Section;
use std::alloc::{AllocError, Global};

/// The bytes of the text, and after it those of the data.
#[tactic(auto, unfolding(crate::specs::Image::linked_bytes))]
pub fn image_of(
    alloc: Global,
    objects: &[Vec<u8>],
    sections: &[Section],
    ends: &Ends,
) -> Result<Vec<u8>, AllocError>
    requires { IsEnds sections.now ends.now }
    ensures bytes { IfOk result (λ image.
        image.items ≡ spec.linked_bytes (files_of objects.now) sections.now) }
    ensures short { IfOk result (λ image. length image.items ≤ 33554432) }
{
    let mut image = Vec::new(alloc);
    append_group(&mut image, objects, Group::Code, TEXT_START, sections)?;
    append_group(&mut image, objects, Group::Constants, ends.code, sections)?;
    append_group(&mut image, objects, Group::Data, DATA_START, sections)?;
    Ok(image)
}

/// Appends the sections of a group, where the first is placed after an address.
#[tactic(auto, using(crate::proofs::LayoutLemmas::le_group_end))]
fn append_group(
    image: &mut Vec<u8>,
    objects: &[Vec<u8>],
    group: Group,
    start: u32,
    sections: &[Section],
) -> Result<(), AllocError>
    requires { group_end group start sections.now < 2 ^ 31 }
    ensures { OnOk result (image.new.items
        ≡ image.old.items ++ spec.group_bytes (files_of objects.now) group start sections.now) }
{
    let mut at = start;
    let mut rest = sections;
    while let Some((s, others)) = rest.split_first() {
        at = append_section(image, objects, group, at, s)?;
        rest = others;
    }
    Ok(())
}

/// Appends a section, if it is one of the group, and gives where the group ends then.
#[tactic(auto, using(crate::proofs::LayoutLemmas::le_rounded))]
fn append_section(
    image: &mut Vec<u8>,
    objects: &[Vec<u8>],
    group: Group,
    at: u32,
    s: &Section,
) -> Result<u32, AllocError>
    requires { next_end group at s.now < 2 ^ 31 }
    ensures bytes { OnOk result (image.new.items
        ≡ image.old.items ++ spec.placed_bytes (files_of objects.now) group at s.now) }
    ensures end { IfOk result (λ end. end ≡ next_end group at s.now) }
{
    if !group.has(s) {
        return Ok(at);
    }
    let start = section_start(at, s) as u32;
    append_zeros(image, start - at)?;
    append_contents(image, objects, s)?;
    Ok(start + s.sh_size)
}

/// Appends what a section holds.
fn append_contents(image: &mut Vec<u8>, objects: &[Vec<u8>], s: &Section) -> Result<(), AllocError>
    ensures { OnOk result (image.new.items
        ≡ image.old.items ++ spec.contents_of (files_of objects.now) s.now) }
{
    if !s.has_bytes() {
        return append_zeros(image, s.sh_size);
    }
    let file = object_bytes(objects, s.object);
    let rest = rest_of(file, s.sh_offset as usize);
    image.extend_from_slice(front_of(rest, s.sh_size as usize))
}

/// The bytes of an object.
pub fn object_bytes(objects: &[Vec<u8>], object: u32) -> &[u8]
    ensures { result.now ≡ object_bytes (files_of objects.now) object }
{
    match objects.get(object as usize) {
        Some(file) => file.as_slice(),
        None => &[],
    }
}

/// The bytes from a place on, none where there are not so many.
pub fn rest_of(bytes: &[u8], first: usize) -> &[u8]
    ensures { result.now ≡ drop first bytes.now }
{
    match bytes.get(first..) {
        Some(rest) => rest,
        None => &[],
    }
}

/// The first bytes, at most so many.
pub fn front_of(bytes: &[u8], size: usize) -> &[u8]
    ensures { result.now ≡ take size bytes.now }
{
    match bytes.get(..size) {
        Some(front) => front,
        None => bytes,
    }
}

/// Appends zeros.
fn append_zeros(image: &mut Vec<u8>, size: u32) -> Result<(), AllocError>
    ensures { OnOk result (image.new.items ≡ image.old.items ++ replicate size 0) }
{
    for _ in 0..size {
        image.push(0)?;
    }
    Ok(())
}
