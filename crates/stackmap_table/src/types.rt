//! Types from bytes, and what they stand for.
ghost use Rattle.std.specs.Prelude.{◌≡◌, ◌+◌, length, option_map};
ghost use Rattle.class_format.specs.declared.failure.Failure.TheVariants.{Missed};
ghost use Rattle.class_format.specs.Gives.{Gives};
ghost use Rattle.class_definition.specs.Format.{form_by_tag, repeated};
ghost use Rattle.stackmap_table.specs.Meaning as meaning;
ghost use Rattle.stackmap_table.specs.Tables as format;
ghost use Rattle.stackmap_table.specs.declared.place.Place.TheVariants.{Local, Operand};

use crate::place::Place;
use crate::reading::NO_TABLE;
use crate::table_type::TableType;
use class_format::{Failure, Miss, byte_of, half_of, missed};
use constant_pool::{Entry, class_name_of};
use jvm_definition::Kind;
use std::alloc::Global;

/// `[I`.
pub const INTS: [u16; 2] = [91, 73];

/// `[[I`.
pub const PAGES: [u16; 3] = [91, 91, 73];

/// `java/lang/String`.
pub const STRING: [u16; 16] = [
    106, 97, 118, 97, 47, 108, 97, 110, 103, 47, 83, 116, 114, 105, 110, 103,
];

/// The type of the references to the class in a slot, if there are such references.
pub fn kind_at(pool: &[Entry], slot: u16) -> Option<Kind>
    ensures { result ≡ format.kind_at pool.now slot }
{
    reference_kind(class_name_of(pool, slot))
}

fn reference_kind(name: Option<&[u16]>) -> Option<Kind>
    ensures { result ≡ format.reference_kind (option_map (λ x. x.now) name.entry) }
{
    let name = name?;
    if name == INTS.as_slice() {
        Some(Kind::Ints)
    } else if name == PAGES.as_slice() {
        Some(Kind::Pages)
    } else if name == STRING.as_slice() {
        Some(Kind::Text)
    } else {
        None
    }
}

/// The type that one of a table stands for.
pub fn kind_of(pool: &[Entry], item: TableType) -> Kind
    ensures { result ≡ meaning.table_kind pool.now item }
{
    match item {
        TableType::Top => Kind::Top,
        TableType::Int => Kind::Int,
        TableType::Long => Kind::Long,
        TableType::Null => Kind::Null,
        TableType::Object(slot) => kind_at(pool, slot).unwrap_or(Kind::Top),
    }
}

/// So many types at the front.
pub fn types_of<'a>(
    alloc: Global,
    pool: &[Entry],
    place: Place,
    count: u16,
    bytes: &'a [u8],
) -> Result<(Vec<TableType>, &'a [u8]), Failure>
    ensures { Gives (λ x. (x.0.items, x.1.now)) result
        ((repeated (format.type_at pool.now place) count).read bytes.now) }
{
    let mut types = Vec::new(alloc);
    let mut rest = bytes;
    let mut to_come = count;
    while to_come > 0 {
        to_come -= 1;
        let (item, others) = type_of(pool, place, rest)?;
        types.push(item)?;
        rest = others;
    }
    Ok((types, rest))
}

/// The type at the front.
#[tactic(auto, unfolding(crate::specs::Tables::type_at))]
pub fn type_of<'a>(
    pool: &[Entry],
    place: Place,
    bytes: &'a [u8],
) -> Result<(TableType, &'a [u8]), Failure>
    ensures { Gives (λ x. (x.0, x.1.now)) result ((format.type_at pool.now place).read bytes.now) }
{
    let (tag, rest) = byte_of(NO_TABLE, bytes)?;
    match place {
        Place::Local => local_of(pool, tag, rest),
        Place::Operand => operand_of(pool, tag, rest),
    }
}

fn local_of<'a>(pool: &[Entry], tag: u8, bytes: &'a [u8]) -> Result<(TableType, &'a [u8]), Failure>
    ensures { Gives (λ x. (x.0, x.1.now)) result
        ((form_by_tag 1 (format.types_at pool.now Local) tag).read bytes.now) }
{
    match tag {
        0 => Ok((TableType::Top, bytes)),
        1 => Ok((TableType::Int, bytes)),
        5 => Ok((TableType::Null, bytes)),
        7 => reference_of(pool, bytes),
        _ => Err(missed_tag(bytes)),
    }
}

fn operand_of<'a>(
    pool: &[Entry],
    tag: u8,
    bytes: &'a [u8],
) -> Result<(TableType, &'a [u8]), Failure>
    ensures { Gives (λ x. (x.0, x.1.now)) result
        ((form_by_tag 1 (format.types_at pool.now Operand) tag).read bytes.now) }
{
    match tag {
        1 => Ok((TableType::Int, bytes)),
        4 => Ok((TableType::Long, bytes)),
        5 => Ok((TableType::Null, bytes)),
        7 => reference_of(pool, bytes),
        _ => Err(missed_tag(bytes)),
    }
}

fn reference_of<'a>(pool: &[Entry], bytes: &'a [u8]) -> Result<(TableType, &'a [u8]), Failure>
    ensures { Gives (λ x. (x.0, x.1.now)) result
        ((format.reference_row pool.now).form.read bytes.now) }
{
    let (slot, rest) = half_of(NO_TABLE, bytes)?;
    if kind_at(pool, slot).is_none() {
        return Err(missed(NO_TABLE, bytes));
    }
    Ok((TableType::Object(slot), rest))
}

/// A miss of the tag before these bytes.
pub fn missed_tag(bytes: &[u8]) -> Failure
    ensures { result ≡ Missed (record { kind = 1; left = length bytes.now + 1 }) }
{
    Failure::Missed(Miss {
        kind: NO_TABLE,
        left: bytes.len() + 1,
    })
}
