//! Fields and methods as bytes (JVM Specification, 4.5 to 4.7).
ghost use Rattle.std.specs.Prelude.{◌≡◌, ◌+◌, ◌<◌, ◌^◌, ◌++◌, true, flat_map, OnOk};
ghost use Rattle.std.specs.List.{list_all};
ghost use Rattle.class_definition.specs.Tables.{table_size};
ghost use Rattle.class_writer.specs.Written.{field_bytes, code_bytes, method_bytes, has_short_code, table_bytes, framed_method_bytes, framed_methods_bytes, is_short_table};

use crate::error::NoMemory;
use crate::numbers::{append_halves, append_word};
use jvm_code::{Member, Method};
use jvm_definition::Sequence;

/// Public and static.
const FLAGS: u16 = 9;

/// Appends fields.
pub fn append_fields(bytes: &mut Vec<u8>, fields: &[Member]) -> Result<(), NoMemory>
    ensures { OnOk result (bytes.new.items ≡ bytes.old.items ++ flat_map field_bytes fields.now) }
{
    for field in fields {
        append_halves(bytes, &[FLAGS, field.name, field.desc, 0])?;
    }
    Ok(())
}

/// Appends methods.
pub fn append_methods(bytes: &mut Vec<u8>, methods: &[Method]) -> Result<(), NoMemory>
    requires { list_all has_short_code methods.now ≡ true }
    ensures { OnOk result (bytes.new.items ≡ bytes.old.items ++ flat_map method_bytes methods.now) }
{
    let mut rest = methods;
    while let Some((method, others)) = rest.split_first() {
        append_method(bytes, method)?;
        rest = others;
    }
    Ok(())
}

fn append_method(bytes: &mut Vec<u8>, method: &Method) -> Result<(), NoMemory>
    requires { has_short_code method.now ≡ true }
    ensures { OnOk result (bytes.new.items ≡ bytes.old.items ++ method_bytes method.now) }
{
    let length = method.code.as_slice().len() as u32;
    append_code(bytes, method, length + 12)?;
    append_halves(bytes, &[0, 0])
}

// Appends a method up to its code, the attribute of which is so long.
fn append_code(bytes: &mut Vec<u8>, method: &Method, size: u32) -> Result<(), NoMemory>
    requires { has_short_code method.now ≡ true }
    ensures { OnOk result (bytes.new.items ≡ bytes.old.items ++ code_bytes method.now size) }
{
    let code = method.code.as_slice();
    append_halves(bytes, &[FLAGS, method.name, method.desc, 1, method.attr])?;
    append_word(bytes, size)?;
    append_halves(bytes, &[method.stack, method.locals])?;
    append_word(bytes, code.len() as u32)?;
    bytes.extend_from_slice(code)?;
    Ok(())
}

/// Appends methods with their tables of frames, as many; `name` is the slot of the tables' name.
pub fn append_framed_methods(
    bytes: &mut Vec<u8>,
    name: u16,
    methods: &[Method],
    tables: &[Sequence<u8>],
) -> Result<(), NoMemory>
    requires codes { list_all has_short_code methods.now ≡ true }
    requires tables { list_all is_short_table tables.now ≡ true }
    ensures { OnOk result (bytes.new.items
        ≡ bytes.old.items ++ framed_methods_bytes name methods.now tables.now) }
{
    let mut rest = methods;
    let mut others = tables;
    while let Some((method, behind)) = rest.split_first() {
        let Some((table, more)) = others.split_first() else {
            return Ok(());
        };
        append_framed_method(bytes, name, method, table.as_slice())?;
        rest = behind;
        others = more;
    }
    Ok(())
}

fn append_framed_method(
    bytes: &mut Vec<u8>,
    name: u16,
    method: &Method,
    table: &[u8],
) -> Result<(), NoMemory>
    requires code { has_short_code method.now ≡ true }
    requires table { is_short_table table.now ≡ true }
    ensures { OnOk result (bytes.new.items
        ≡ bytes.old.items ++ framed_method_bytes name method.now table.now) }
{
    let length = method.code.as_slice().len() as u32;
    append_code(bytes, method, length + 12 + size_of_table(table))?;
    append_halves(bytes, &[0])?;
    append_table(bytes, name, table)
}

// By how many bytes a table makes its method's attribute longer.
fn size_of_table(table: &[u8]) -> u32
    requires { is_short_table table.now ≡ true }
    ensures size { result ≡ table_size table.now }
    ensures short { result < 2 ^ 31 + 6 }
{
    if table.is_empty() {
        0
    } else {
        table.len() as u32 + 6
    }
}

fn append_table(bytes: &mut Vec<u8>, name: u16, table: &[u8]) -> Result<(), NoMemory>
    requires { is_short_table table.now ≡ true }
    ensures { OnOk result (bytes.new.items ≡ bytes.old.items ++ table_bytes name table.now) }
{
    if table.is_empty() {
        return append_halves(bytes, &[0]);
    }
    append_halves(bytes, &[1, name])?;
    append_word(bytes, table.len() as u32)?;
    bytes.extend_from_slice(table)
}
