ghost use Rattle.std.specs.Prelude.{◌≡◌};
ghost use Rattle.class_definition.specs.Instructions.{opcode};

use crate::names::array_name::opcode_of_array_name;
use crate::names::branch_name::opcode_of_branch_name;
use crate::names::conversion::opcode_of_conversion;
use crate::names::iconst::opcode_of_iconst;
use crate::names::int_arithmetic::opcode_of_int_arithmetic;
use crate::names::int_division::opcode_of_int_division;
use crate::names::int_shift::opcode_of_int_shift;
use crate::names::local_name::opcode_of_local_name;
use crate::names::long_arithmetic::opcode_of_long_arithmetic;
use crate::names::long_division::opcode_of_long_division;
use crate::names::long_shift::opcode_of_long_shift;
use crate::names::pool_name::opcode_of_pool_name;
use crate::names::return_name::opcode_of_return_name;
use crate::names::short_index::opcode_of_short;
use crate::names::stack_name::opcode_of_stack_name;
use class_definition::Op;

/// The opcode of an instruction (JVM Specification, 6.5).
pub fn opcode_of(op: &Op) -> u8
    ensures { result ≡ opcode op.now }
{
    match op {
        Op::Nop => 0,
        Op::AconstNull => 1,
        Op::Iconst(name) => opcode_of_iconst(*name),
        Op::Bipush(_) => 16,
        Op::Sipush(_) => 17,
        Op::Ldc(_) => 18,
        Op::Pool(name, _) => opcode_of_pool_name(*name),
        Op::Local(name, _) => opcode_of_local_name(*name),
        Op::ShortLocal(name, index) => opcode_of_short(*name, *index),
        Op::Array(name) => opcode_of_array_name(*name),
        Op::Stack(name) => opcode_of_stack_name(*name),
        Op::IntArithmetic(name) => opcode_of_int_arithmetic(*name),
        Op::IntDivision(name) => opcode_of_int_division(*name),
        Op::IntShift(name) => opcode_of_int_shift(*name),
        Op::LongArithmetic(name) => opcode_of_long_arithmetic(*name),
        Op::LongDivision(name) => opcode_of_long_division(*name),
        Op::LongShift(name) => opcode_of_long_shift(*name),
        Op::Iinc(_, _) => 132,
        Op::Convert(name) => opcode_of_conversion(*name),
        Op::Lcmp => 148,
        Op::Branch(name, _) => opcode_of_branch_name(*name),
        Op::GotoW(_) => 200,
        Op::TableSwitch(_) => 170,
        Op::LookupSwitch(_) => 171,
        Op::Give(name) => opcode_of_return_name(*name),
        Op::Newarray => 188,
        Op::Arraylength => 190,
    }
}
