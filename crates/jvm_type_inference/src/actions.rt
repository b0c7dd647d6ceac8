//! What each instruction takes and gives (JVM Specification, 4.10.1.9 and 6.5).
ghost use Rattle.std.specs.Prelude.{◌≡◌, IsTrue, ◌↔◌};
ghost use Rattle.jvm_definition.specs.Program.{Program};
ghost use Rattle.jvm_definition.specs.Typing as typing;
ghost use Rattle.jvm_definition.specs.declared.instruction.Instruction.TheVariants as instructions;
ghost use Rattle.jvm_type_inference.specs.Actions.{effect_of};

use crate::action::Action;
use jvm_definition::{
    ArrayKind, ArrayName, BranchName, Constant, Conversion, Instruction, Kind, ReturnName,
};

const INT: Option<Kind> = Some(Kind::Int);

const LONG: Option<Kind> = Some(Kind::Long);

/// The action of an instruction.
pub fn action_of(instruction: &Instruction) -> Action
    ensures { (program : Program) → effect_of program result
        ≡ typing.type_effect program instruction.now }
{
    match instruction {
        Instruction::Nop => Action::Exchanges(&[], None),
        Instruction::Push(constant) => Action::Exchanges(&[], Some(constant_kind(*constant))),
        Instruction::Load(moved, index) => Action::Loads(*moved, *index),
        Instruction::Store(moved, index) => Action::Stores(*moved, *index),
        Instruction::Array(name) => access_action(*name),
        Instruction::Stack(name) => Action::Shuffles(*name),
        Instruction::IntArithmetic(_) | Instruction::IntDivision(_) | Instruction::IntShift(_) => {
            Action::Exchanges(&[Kind::Int, Kind::Int], INT)
        }
        Instruction::LongArithmetic(_) | Instruction::LongDivision(_) => {
            Action::Exchanges(&[Kind::Long, Kind::Long], LONG)
        }
        Instruction::LongShift(_) => Action::Exchanges(&[Kind::Int, Kind::Long], LONG),
        Instruction::Increment(index, _) => Action::Increments(*index),
        Instruction::Convert(name) => conversion_action(*name),
        Instruction::LongCompare => Action::Exchanges(&[Kind::Long, Kind::Long], INT),
        Instruction::Branch(name, _) => branch_action(*name),
        Instruction::TableSwitch(_) | Instruction::LookupSwitch(_) => {
            Action::Exchanges(&[Kind::Int], None)
        }
        Instruction::Get(_, kind) => Action::Exchanges(&[], Some(*kind)),
        Instruction::Put(_, kind) => Action::Takes(*kind),
        Instruction::Length => Action::Exchanges(&[Kind::Text], INT),
        Instruction::CharAt => Action::Exchanges(&[Kind::Int, Kind::Text], INT),
        Instruction::Call(number) => Action::Calls(*number),
        Instruction::CallHost => host_call_action(),
        Instruction::FaultHost => Action::Exchanges(&[Kind::Int, Kind::Int, Kind::Int], None),
        Instruction::Return(name) => return_action(*name),
        Instruction::NewArray(kind) => Action::Exchanges(&[Kind::Int], Some(array_kind(*kind))),
        Instruction::ArrayLength => Action::TakesArray,
        Instruction::Wrong => Action::Never,
    }
}

fn constant_kind(constant: Constant) -> Kind
    ensures { result ≡ typing.constant_kind constant }
{
    match constant {
        Constant::Null => Kind::Null,
        Constant::Int(_) => Kind::Int,
        Constant::Long(_) => Kind::Long,
        Constant::Text(_, _) => Kind::Text,
    }
}

fn array_kind(kind: ArrayKind) -> Kind
    ensures { result ≡ typing.array_type kind }
{
    match kind {
        ArrayKind::Ints => Kind::Ints,
        ArrayKind::Pages => Kind::Pages,
    }
}

fn access_action(name: ArrayName) -> Action
    ensures { (program : Program) → effect_of program result ≡ typing.access_type name }
{
    match name {
        ArrayName::Iaload => Action::Exchanges(&[Kind::Int, Kind::Ints], INT),
        ArrayName::Aaload => Action::Exchanges(&[Kind::Int, Kind::Pages], Some(Kind::Ints)),
        ArrayName::Iastore => Action::Exchanges(&[Kind::Int, Kind::Int, Kind::Ints], None),
        ArrayName::Aastore => Action::Exchanges(&[Kind::Ints, Kind::Int, Kind::Pages], None),
    }
}

fn conversion_action(name: Conversion) -> Action
    ensures { (program : Program) → effect_of program result ≡ typing.conversion_type name }
{
    match name {
        Conversion::I2l => Action::Exchanges(&[Kind::Int], LONG),
        Conversion::L2i => Action::Exchanges(&[Kind::Long], INT),
        Conversion::I2b | Conversion::I2c | Conversion::I2s => {
            Action::Exchanges(&[Kind::Int], INT)
        }
    }
}

fn branch_action(name: BranchName) -> Action
    ensures { (program : Program) → effect_of program result ≡ typing.branch_type name }
{
    match name {
        BranchName::Ifeq
        | BranchName::Ifne
        | BranchName::Iflt
        | BranchName::Ifge
        | BranchName::Ifgt
        | BranchName::Ifle => Action::Exchanges(&[Kind::Int], None),
        BranchName::IfIcmpeq
        | BranchName::IfIcmpne
        | BranchName::IfIcmplt
        | BranchName::IfIcmpge
        | BranchName::IfIcmpgt
        | BranchName::IfIcmple => Action::Exchanges(&[Kind::Int, Kind::Int], None),
        BranchName::Goto => Action::Exchanges(&[], None),
        BranchName::Ifnull | BranchName::Ifnonnull => Action::TakesReference,
    }
}

// `Host.call` takes two arrays of arrays and, above them, five ints.
fn host_call_action() -> Action
    ensures { (program : Program) → effect_of program result
        ≡ typing.type_effect program instructions.CallHost }
{
    let kinds = &[
        Kind::Int,
        Kind::Int,
        Kind::Int,
        Kind::Int,
        Kind::Int,
        Kind::Pages,
        Kind::Pages,
    ];
    Action::Exchanges(kinds, INT)
}

fn return_action(name: ReturnName) -> Action
    ensures { (program : Program) → effect_of program result ≡ typing.return_type name }
{
    match name {
        ReturnName::Ireturn => Action::Exchanges(&[Kind::Int], None),
        ReturnName::Return => Action::Exchanges(&[], None),
    }
}

/// Whether the local variable that an action names is one of so many.
pub fn is_local_within(action: &Action, count: u16) -> bool
    ensures { (program : Program)
        → (IsTrue result ↔ typing.local_within (effect_of program action.now) count) }
{
    match action {
        Action::Loads(_, index) => u16::from(*index) < count,
        Action::Stores(_, index) => u16::from(*index) < count,
        Action::Increments(index) => u16::from(*index) < count,
        _ => true,
    }
}
