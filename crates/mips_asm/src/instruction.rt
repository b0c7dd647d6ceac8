//! The instruction of a line.
ghost use Rattle.std.specs.Prelude.{◌≡◌};
ghost use Rattle.asm_lines.specs.declared.mnemonic.Mnemonic.TheVariants as mnemonic;
ghost use Rattle.mips_asm.specs.Instructions.{instruction_word};
ghost use Rattle.mips_asm.specs.Shapes.{word_or_kind};

use crate::half_form::HalfForm;
use crate::operands::Operands;
use asm_lines::Mnemonic;
use mips_decode::{
    ArithmeticImmediateName, ArithmeticName, BranchEqualName, BranchSignName, BranchZeroName, HiLo,
    Inst, JumpName, LoadName, LogicalImmediateName, ProductName, ShiftName, StoreName,
    TrapImmediateName, TrapName, VariableShiftName,
};

/// The instruction of a mnemonic with operands, or the lowest kind of their faults.
pub fn instruction_of(mnemonic: Mnemonic, operands: &Operands<'_, '_>) -> Result<Inst, u32>
    ensures { word_or_kind result
        ≡ instruction_word operands.now.labels.now operands.now.at mnemonic operands.now.text.now }
{
    match mnemonic {
        Mnemonic::Arithmetic(name) => arithmetic(name, operands),
        Mnemonic::VariableShift(name) => variable_shift(name, operands),
        Mnemonic::Shift(name) => shift(name, operands),
        Mnemonic::JumpRegister => jump_register(operands),
        Mnemonic::JumpAndLinkRegister => jump_and_link_register(operands),
        Mnemonic::Syscall => syscall(operands),
        Mnemonic::Break => breakpoint(operands),
        Mnemonic::MoveFrom(name) => move_from(name, operands),
        Mnemonic::MoveTo(name) => move_to(name, operands),
        Mnemonic::Product(name) => product(name, operands),
        Mnemonic::BranchSign(name) => branch_sign(name, operands),
        Mnemonic::Jump(name) => jump(name, operands),
        Mnemonic::BranchEqual(name) => branch_equal(name, operands),
        Mnemonic::BranchZero(name) => branch_zero(name, operands),
        Mnemonic::ArithmeticImmediate(name) => arithmetic_immediate(name, operands),
        Mnemonic::LogicalImmediate(name) => logical_immediate(name, operands),
        Mnemonic::LoadUpper => load_upper(operands),
        Mnemonic::Load(name) => load(name, operands),
        Mnemonic::Store(name) => store(name, operands),
        Mnemonic::Trap(name) => trap(name, operands),
        Mnemonic::TrapImmediate(name) => trap_immediate(name, operands),
        Mnemonic::Sync => sync(operands),
        Mnemonic::LoadLinked => load_linked(operands),
        Mnemonic::StoreConditional => store_conditional(operands),
    }
}

fn arithmetic(name: ArithmeticName, operands: &Operands<'_, '_>) -> Result<Inst, u32>
    ensures { word_or_kind result
        ≡ instruction_word operands.now.labels.now operands.now.at (mnemonic.Arithmetic name)
        operands.now.text.now }
{
    match operands.three_registers() {
        Ok((rd, (rs, rt))) => Ok(Inst::Arithmetic { name, rs, rt, rd }),
        Err(kind) => Err(kind),
    }
}

fn variable_shift(name: VariableShiftName, operands: &Operands<'_, '_>) -> Result<Inst, u32>
    ensures { word_or_kind result
        ≡ instruction_word operands.now.labels.now operands.now.at (mnemonic.VariableShift name)
        operands.now.text.now }
{
    match operands.three_registers() {
        Ok((rd, (rt, rs))) => Ok(Inst::VariableShift { name, rs, rt, rd }),
        Err(kind) => Err(kind),
    }
}

fn shift(name: ShiftName, operands: &Operands<'_, '_>) -> Result<Inst, u32>
    ensures { word_or_kind result
        ≡ instruction_word operands.now.labels.now operands.now.at (mnemonic.Shift name)
        operands.now.text.now }
{
    match operands.two_registers_and_amount() {
        Ok((rd, (rt, sa))) => Ok(Inst::Shift { name, rt, rd, sa }),
        Err(kind) => Err(kind),
    }
}

fn jump_register(operands: &Operands<'_, '_>) -> Result<Inst, u32>
    ensures { word_or_kind result
        ≡ instruction_word operands.now.labels.now operands.now.at mnemonic.JumpRegister
        operands.now.text.now }
{
    match operands.one_register() {
        Ok(rs) => Ok(Inst::JumpRegister { rs }),
        Err(kind) => Err(kind),
    }
}

fn jump_and_link_register(operands: &Operands<'_, '_>) -> Result<Inst, u32>
    ensures { word_or_kind result
        ≡ instruction_word operands.now.labels.now operands.now.at mnemonic.JumpAndLinkRegister
        operands.now.text.now }
{
    match operands.two_registers() {
        Ok((rd, rs)) => Ok(Inst::JumpAndLinkRegister { rs, rd }),
        Err(kind) => Err(kind),
    }
}

fn syscall(operands: &Operands<'_, '_>) -> Result<Inst, u32>
    ensures { word_or_kind result
        ≡ instruction_word operands.now.labels.now operands.now.at mnemonic.Syscall
        operands.now.text.now }
{
    match operands.one_code() {
        Ok(code) => Ok(Inst::Syscall { code }),
        Err(kind) => Err(kind),
    }
}

fn breakpoint(operands: &Operands<'_, '_>) -> Result<Inst, u32>
    ensures { word_or_kind result
        ≡ instruction_word operands.now.labels.now operands.now.at mnemonic.Break
        operands.now.text.now }
{
    match operands.one_code() {
        Ok(code) => Ok(Inst::Break { code }),
        Err(kind) => Err(kind),
    }
}

fn move_from(name: HiLo, operands: &Operands<'_, '_>) -> Result<Inst, u32>
    ensures { word_or_kind result
        ≡ instruction_word operands.now.labels.now operands.now.at (mnemonic.MoveFrom name)
        operands.now.text.now }
{
    match operands.one_register() {
        Ok(rd) => Ok(Inst::MoveFrom { name, rd }),
        Err(kind) => Err(kind),
    }
}

fn move_to(name: HiLo, operands: &Operands<'_, '_>) -> Result<Inst, u32>
    ensures { word_or_kind result
        ≡ instruction_word operands.now.labels.now operands.now.at (mnemonic.MoveTo name)
        operands.now.text.now }
{
    match operands.one_register() {
        Ok(rs) => Ok(Inst::MoveTo { name, rs }),
        Err(kind) => Err(kind),
    }
}

fn product(name: ProductName, operands: &Operands<'_, '_>) -> Result<Inst, u32>
    ensures { word_or_kind result
        ≡ instruction_word operands.now.labels.now operands.now.at (mnemonic.Product name)
        operands.now.text.now }
{
    match operands.two_registers() {
        Ok((rs, rt)) => Ok(Inst::Product { name, rs, rt }),
        Err(kind) => Err(kind),
    }
}

fn branch_sign(name: BranchSignName, operands: &Operands<'_, '_>) -> Result<Inst, u32>
    ensures { word_or_kind result
        ≡ instruction_word operands.now.labels.now operands.now.at (mnemonic.BranchSign name)
        operands.now.text.now }
{
    match operands.register_and_half(HalfForm::Near) {
        Ok((rs, imm)) => Ok(Inst::BranchSign { name, rs, imm }),
        Err(kind) => Err(kind),
    }
}

fn jump(name: JumpName, operands: &Operands<'_, '_>) -> Result<Inst, u32>
    ensures { word_or_kind result
        ≡ instruction_word operands.now.labels.now operands.now.at (mnemonic.Jump name)
        operands.now.text.now }
{
    match operands.one_index() {
        Ok(index) => Ok(Inst::Jump { name, index }),
        Err(kind) => Err(kind),
    }
}

fn branch_equal(name: BranchEqualName, operands: &Operands<'_, '_>) -> Result<Inst, u32>
    ensures { word_or_kind result
        ≡ instruction_word operands.now.labels.now operands.now.at (mnemonic.BranchEqual name)
        operands.now.text.now }
{
    match operands.two_registers_and_half(HalfForm::Near) {
        Ok((rs, (rt, imm))) => Ok(Inst::BranchEqual { name, rs, rt, imm }),
        Err(kind) => Err(kind),
    }
}

fn branch_zero(name: BranchZeroName, operands: &Operands<'_, '_>) -> Result<Inst, u32>
    ensures { word_or_kind result
        ≡ instruction_word operands.now.labels.now operands.now.at (mnemonic.BranchZero name)
        operands.now.text.now }
{
    match operands.register_and_half(HalfForm::Near) {
        Ok((rs, imm)) => Ok(Inst::BranchZero { name, rs, imm }),
        Err(kind) => Err(kind),
    }
}

fn arithmetic_immediate(
    name: ArithmeticImmediateName,
    operands: &Operands<'_, '_>,
) -> Result<Inst, u32>
    ensures { word_or_kind result
        ≡ instruction_word operands.now.labels.now operands.now.at
        (mnemonic.ArithmeticImmediate name) operands.now.text.now }
{
    match operands.two_registers_and_half(HalfForm::Signed) {
        Ok((rt, (rs, imm))) => Ok(Inst::ArithmeticImmediate { name, rs, rt, imm }),
        Err(kind) => Err(kind),
    }
}

fn logical_immediate(name: LogicalImmediateName, operands: &Operands<'_, '_>) -> Result<Inst, u32>
    ensures { word_or_kind result
        ≡ instruction_word operands.now.labels.now operands.now.at (mnemonic.LogicalImmediate name)
        operands.now.text.now }
{
    match operands.two_registers_and_half(HalfForm::Unsigned) {
        Ok((rt, (rs, imm))) => Ok(Inst::LogicalImmediate { name, rs, rt, imm }),
        Err(kind) => Err(kind),
    }
}

fn load_upper(operands: &Operands<'_, '_>) -> Result<Inst, u32>
    ensures { word_or_kind result
        ≡ instruction_word operands.now.labels.now operands.now.at mnemonic.LoadUpper
        operands.now.text.now }
{
    match operands.register_and_half(HalfForm::Unsigned) {
        Ok((rt, imm)) => Ok(Inst::LoadUpper { rt, imm }),
        Err(kind) => Err(kind),
    }
}

fn load(name: LoadName, operands: &Operands<'_, '_>) -> Result<Inst, u32>
    ensures { word_or_kind result
        ≡ instruction_word operands.now.labels.now operands.now.at (mnemonic.Load name)
        operands.now.text.now }
{
    match operands.register_and_memory() {
        Ok((rt, (imm, rs))) => Ok(Inst::Load { name, rs, rt, imm }),
        Err(kind) => Err(kind),
    }
}

fn store(name: StoreName, operands: &Operands<'_, '_>) -> Result<Inst, u32>
    ensures { word_or_kind result
        ≡ instruction_word operands.now.labels.now operands.now.at (mnemonic.Store name)
        operands.now.text.now }
{
    match operands.register_and_memory() {
        Ok((rt, (imm, rs))) => Ok(Inst::Store { name, rs, rt, imm }),
        Err(kind) => Err(kind),
    }
}

fn trap(name: TrapName, operands: &Operands<'_, '_>) -> Result<Inst, u32>
    ensures { word_or_kind result
        ≡ instruction_word operands.now.labels.now operands.now.at (mnemonic.Trap name)
        operands.now.text.now }
{
    match operands.two_registers_and_half(HalfForm::TrapCode) {
        Ok((rs, (rt, code))) => Ok(Inst::Trap { name, rs, rt, code }),
        Err(kind) => Err(kind),
    }
}

fn trap_immediate(name: TrapImmediateName, operands: &Operands<'_, '_>) -> Result<Inst, u32>
    ensures { word_or_kind result
        ≡ instruction_word operands.now.labels.now operands.now.at (mnemonic.TrapImmediate name)
        operands.now.text.now }
{
    match operands.register_and_half(HalfForm::Signed) {
        Ok((rs, imm)) => Ok(Inst::TrapImmediate { name, rs, imm }),
        Err(kind) => Err(kind),
    }
}

fn sync(operands: &Operands<'_, '_>) -> Result<Inst, u32>
    ensures { word_or_kind result
        ≡ instruction_word operands.now.labels.now operands.now.at mnemonic.Sync
        operands.now.text.now }
{
    match operands.one_amount() {
        Ok(sa) => Ok(Inst::Sync { sa }),
        Err(kind) => Err(kind),
    }
}

fn load_linked(operands: &Operands<'_, '_>) -> Result<Inst, u32>
    ensures { word_or_kind result
        ≡ instruction_word operands.now.labels.now operands.now.at mnemonic.LoadLinked
        operands.now.text.now }
{
    match operands.register_and_memory() {
        Ok((rt, (imm, rs))) => Ok(Inst::LoadLinked { rs, rt, imm }),
        Err(kind) => Err(kind),
    }
}

fn store_conditional(operands: &Operands<'_, '_>) -> Result<Inst, u32>
    ensures { word_or_kind result
        ≡ instruction_word operands.now.labels.now operands.now.at mnemonic.StoreConditional
        operands.now.text.now }
{
    match operands.register_and_memory() {
        Ok((rt, (imm, rs))) => Ok(Inst::StoreConditional { rs, rt, imm }),
        Err(kind) => Err(kind),
    }
}
