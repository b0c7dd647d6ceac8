//! The frames of a table as bytes (JVM Specification, Java SE 7 edition, 4.7.4).
ghost use Rattle.std.specs.Prelude.{◌≡◌, ◌≤◌, ◌++◌, length, OnOk};
ghost use Rattle.std.specs.Int.{w8, to_be_bytes};
ghost use Rattle.stackmap_table.specs.Written.{half, type_bytes, types_bytes, frame_bytes, IsShort};

use crate::table_frame::TableFrame;
use crate::table_type::TableType;
use std::alloc::AllocError;

/// Appends a frame.
pub fn append_frame(bytes: &mut Vec<u8>, frame: &TableFrame) -> Result<(), AllocError>
    requires { IsShort frame.now }
    ensures { OnOk result (bytes.new.items ≡ bytes.old.items ++ frame_bytes frame.now) }
{
    match frame {
        TableFrame::Same(delta) => append_byte(bytes, *delta),
        TableFrame::SameWithOperand(delta, operand) => {
            append_byte(bytes, 64 + *delta)?;
            append_type(bytes, *operand)
        }
        TableFrame::SameWithOperandExtended(delta, operand) => {
            append_head(bytes, 247, *delta)?;
            append_type(bytes, *operand)
        }
        TableFrame::Chop(delta, dropped) => append_head(bytes, 251 - *dropped, *delta),
        TableFrame::SameExtended(delta) => append_head(bytes, 251, *delta),
        TableFrame::Append(delta, types) => {
            append_head(bytes, 251 + types.as_slice().len() as u8, *delta)?;
            append_types(bytes, types.as_slice())
        }
        TableFrame::Full(delta, locals, operands) => {
            append_head(bytes, 255, *delta)?;
            append_counted(bytes, locals.as_slice())?;
            append_counted(bytes, operands.as_slice())
        }
    }
}

// A tag and a delta of two bytes.
fn append_head(bytes: &mut Vec<u8>, tag: u8, delta: u16) -> Result<(), AllocError>
    ensures { OnOk result (bytes.new.items
        ≡ bytes.old.items ++ (to_be_bytes w8 tag ++ half delta)) }
{
    append_byte(bytes, tag)?;
    append_half(bytes, delta)
}

fn append_byte(bytes: &mut Vec<u8>, byte: u8) -> Result<(), AllocError>
    ensures { OnOk result (bytes.new.items ≡ bytes.old.items ++ to_be_bytes w8 byte) }
{
    bytes.extend_from_slice(&byte.to_be_bytes())
}

/// Appends a number of two bytes.
pub fn append_half(bytes: &mut Vec<u8>, number: u16) -> Result<(), AllocError>
    ensures { OnOk result (bytes.new.items ≡ bytes.old.items ++ half number) }
{
    bytes.extend_from_slice(&number.to_be_bytes())
}

fn append_counted(bytes: &mut Vec<u8>, types: &[TableType]) -> Result<(), AllocError>
    requires { length types.now ≤ 65535 }
    ensures { OnOk result (bytes.new.items
        ≡ bytes.old.items ++ (half (length types.now) ++ types_bytes types.now)) }
{
    append_half(bytes, types.len() as u16)?;
    append_types(bytes, types)
}

fn append_types(bytes: &mut Vec<u8>, types: &[TableType]) -> Result<(), AllocError>
    ensures { OnOk result (bytes.new.items ≡ bytes.old.items ++ types_bytes types.now) }
{
    for item in types {
        append_type(bytes, *item)?;
    }
    Ok(())
}

fn append_type(bytes: &mut Vec<u8>, item: TableType) -> Result<(), AllocError>
    ensures { OnOk result (bytes.new.items ≡ bytes.old.items ++ type_bytes item) }
{
    match item {
        TableType::Top => Ok(bytes.push(0)?),
        TableType::Int => Ok(bytes.push(1)?),
        TableType::Long => Ok(bytes.push(4)?),
        TableType::Null => Ok(bytes.push(5)?),
        TableType::Object(slot) => {
            bytes.push(7)?;
            append_half(bytes, slot)
        }
    }
}
