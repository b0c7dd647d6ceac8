//! The helper methods of products and quotients.
ghost use Rattle.std.specs.Prelude.{◌≡◌, ◌++◌, ◌<◌, ◌^◌, OnOk, length};
ghost use Rattle.mem_helpers.specs.Products as emitted;

use crate::NoMemory;
use crate::parts::{load, stack};
use crate::stores::append_return;
use emit_instructions::{append_steps, fields, push_word, put_field};
use emit_steps::Step;
use jvm_definition::{
    BranchName, Constant, Conversion, Instruction, IntDivision, LongArithmetic, LongDivision,
    LongShift, StackName,
};

// A word as a long, with its sign.
fn append_signed(i: u8, code: &mut Vec<Step>) -> Result<(), NoMemory>
    ensures { OnOk result (code.new.items ≡ code.old.items ++ emitted.signed_long i) }
{
    append_steps(
        [load(i), Step::Does(Instruction::Convert(Conversion::I2l))],
        code,
    )
}

// A word as a long, without a sign.
fn append_plain(i: u8, code: &mut Vec<Step>) -> Result<(), NoMemory>
    ensures { OnOk result (code.new.items ≡ code.old.items ++ emitted.plain_long i) }
{
    append_signed(i, code)?;
    append_steps(
        [
            Step::Does(Instruction::Push(Constant::Long(0xffff_ffff))),
            Step::Does(Instruction::LongArithmetic(LongArithmetic::Land)),
        ],
        code,
    )
}

fn append_signed_longs(code: &mut Vec<Step>) -> Result<(), NoMemory>
    ensures { OnOk result (code.new.items ≡ code.old.items ++ emitted.signed_longs) }
{
    append_signed(0, code)?;
    append_signed(1, code)
}

fn append_plain_longs(code: &mut Vec<Step>) -> Result<(), NoMemory>
    ensures { OnOk result (code.new.items ≡ code.old.items ++ emitted.plain_longs) }
{
    append_plain(0, code)?;
    append_plain(1, code)
}

// The low word of a long goes to a field.
fn append_low_to(field: u32, code: &mut Vec<Step>) -> Result<(), NoMemory>
    ensures { OnOk result (code.new.items ≡ code.old.items ++ emitted.low_to field) }
{
    append_steps(
        [
            Step::Does(Instruction::Convert(Conversion::L2i)),
            put_field(field),
        ],
        code,
    )
}

// The product of two longs goes to HI and LO.
fn append_multiplied(code: &mut Vec<Step>) -> Result<(), NoMemory>
    ensures { OnOk result (code.new.items ≡ code.old.items ++ emitted.multiplied_code) }
{
    append_steps(
        [
            Step::Does(Instruction::LongArithmetic(LongArithmetic::Lmul)),
            stack(StackName::Dup2),
        ],
        code,
    )?;
    append_low_to(fields::LO, code)?;
    append_steps(
        [
            push_word(32),
            Step::Does(Instruction::LongShift(LongShift::Lushr)),
        ],
        code,
    )?;
    append_low_to(fields::HI, code)?;
    append_return(code)
}

/// MULT.
pub fn append_mult(code: &mut Vec<Step>) -> Result<(), NoMemory>
    ensures { OnOk result (code.new.items ≡ code.old.items ++ emitted.mult_method) }
{
    append_signed_longs(code)?;
    append_multiplied(code)
}

/// MULTU.
pub fn append_multu(code: &mut Vec<Step>) -> Result<(), NoMemory>
    ensures { OnOk result (code.new.items ≡ code.old.items ++ emitted.multu_method) }
{
    append_plain_longs(code)?;
    append_multiplied(code)
}

// By 0, LO is FFFFFFFF (hexadecimal) and HI the dividend.
fn append_by_zero(code: &mut Vec<Step>) -> Result<(), NoMemory>
    ensures { OnOk result (code.new.items ≡ code.old.items ++ emitted.by_zero_code) }
{
    append_steps(
        [
            load(1),
            Step::Skips(BranchName::Ifne, 5),
            push_word(0xffff_ffff),
            put_field(fields::LO),
            load(0),
            put_field(fields::HI),
        ],
        code,
    )?;
    append_return(code)
}

fn append_int_divided(name: IntDivision, field: u32, code: &mut Vec<Step>) -> Result<(), NoMemory>
    ensures { OnOk result (code.new.items ≡ code.old.items ++ emitted.int_divided name field) }
{
    append_steps(
        [
            load(0),
            load(1),
            Step::Does(Instruction::IntDivision(name)),
            put_field(field),
        ],
        code,
    )
}

fn append_long_divided(name: LongDivision, field: u32, code: &mut Vec<Step>) -> Result<(), NoMemory>
    ensures { OnOk result (code.new.items ≡ code.old.items ++ emitted.long_divided name field) }
{
    append_plain_longs(code)?;
    append_long_quotient(name, field, code)
}

fn append_long_quotient(
    name: LongDivision,
    field: u32,
    code: &mut Vec<Step>,
) -> Result<(), NoMemory>
    ensures { OnOk result (code.new.items ≡ code.old.items ++ emitted.long_quotient name field) }
{
    code.push(Step::Does(Instruction::LongDivision(name)))?;
    append_low_to(field, code)
}

/// DIV.
pub fn append_div(code: &mut Vec<Step>) -> Result<(), NoMemory>
    ensures { OnOk result (code.new.items ≡ code.old.items ++ emitted.div_method) }
{
    append_by_zero(code)?;
    append_int_divided(IntDivision::Idiv, fields::LO, code)?;
    append_int_divided(IntDivision::Irem, fields::HI, code)?;
    append_return(code)
}

/// DIVU.
pub fn append_divu(code: &mut Vec<Step>) -> Result<(), NoMemory>
    ensures { OnOk result (code.new.items ≡ code.old.items ++ emitted.divu_method) }
{
    append_by_zero(code)?;
    append_long_divided(LongDivision::Ldiv, fields::LO, code)?;
    append_long_divided(LongDivision::Lrem, fields::HI, code)?;
    append_return(code)
}
