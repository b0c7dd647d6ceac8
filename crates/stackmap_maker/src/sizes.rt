//! How many bytes the files of classes with their tables have.
ghost use Rattle.std.specs.Prelude.{◌≡◌, ◌+◌, ◌-◌, ◌*◌, IfOk, length, if◌then◌else◌, ◌==◌};
ghost use Rattle.class_definition.specs.PoolChecks.{slot_size};
ghost use Rattle.stackmap_maker.specs.Sizes as sizes;

use constant_pool::{Entry, text_size};
use jvm_code::Method;
use std::alloc::AllocError;

/// The greatest number of bytes of a file.
pub const MOST: u64 = 67_108_864;

/// What is left of so many bytes.
pub fn left(most: u64, bytes: u64) -> u64
    ensures { result ≡ most - bytes }
{
    if bytes < most { most - bytes } else { 0 }
}

/// A number and some more; no memory has room for classes of which the bytes would not be counted.
pub fn more(number: u64, added: u64) -> Result<u64, AllocError>
    ensures { IfOk result (λ n. n ≡ number + added) }
{
    match number.checked_add(added) {
        Some(sum) => Ok(sum),
        None => Err(AllocError),
    }
}

/// How many bytes a class has but for its methods, if it has so many fields.
pub fn front_size(pool: &[Entry], fields: usize) -> Result<u64, AllocError>
    ensures { IfOk result (λ n. n ≡ 24 + sizes.pool_size pool.now + 8 * fields) }
{
    let fields = fields_size(fields)?;
    more(24, more(pool_size(pool)?, fields)?)
}

fn fields_size(fields: usize) -> Result<u64, AllocError>
    ensures { IfOk result (λ n. n ≡ 8 * fields) }
{
    match (fields as u64).checked_mul(8) {
        Some(size) => Ok(size),
        None => Err(AllocError),
    }
}

/// So many bytes, and those of a method whose table has a size.
pub fn with_method(bytes: u64, method: &Method, size: u64) -> Result<u64, AllocError>
    ensures { IfOk result (λ n. n
        ≡ bytes + (26 + length method.now.code + (if size == 0 then 0 else size + 6))) }
{
    let code = more(26, method.code.as_slice().len() as u64)?;
    more(bytes, more(code, table_size(size)?)?)
}

// By how many bytes a table of a size makes its method longer.
fn table_size(size: u64) -> Result<u64, AllocError>
    ensures { IfOk result (λ n. n ≡ (if size == 0 then 0 else size + 6)) }
{
    if size == 0 { Ok(0) } else { more(size, 6) }
}

fn pool_size(entries: &[Entry]) -> Result<u64, AllocError>
    ensures { IfOk result (λ n. n ≡ sizes.pool_size entries.now) }
{
    let mut size = 0;
    let mut rest = entries;
    while let Some((entry, others)) = rest.split_first() {
        size = more(size, slot_size(entry))?;
        rest = others;
    }
    Ok(size)
}

fn slot_size(entry: &Entry) -> u64
    ensures { result ≡ slot_size entry.now }
{
    match entry {
        Entry::Utf8(text) => 3 + text_size(text.as_slice()) as u64,
        Entry::Integer(_) | Entry::FieldRef(_, _) | Entry::MethodRef(_, _) | Entry::NameAnd(_, _) =>
            5,
        Entry::Long(_) => 9,
        Entry::LongRest => 0,
        Entry::ClassName(_) | Entry::Text(_) => 3,
    }
}
