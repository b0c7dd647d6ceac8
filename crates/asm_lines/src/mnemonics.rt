//! The texts of the mnemonics.
ghost use Rattle.std.specs.Prelude.{◌≡◌};
ghost use Rattle.asm_lines.specs.Mnemonics as texts;
ghost use Rattle.mips_definition.specs.Mnemonics as names;

use crate::mnemonic::Mnemonic;
use mips_decode::{
    ArithmeticImmediateName, ArithmeticName, BranchEqualName, BranchSignName, BranchZeroName, HiLo,
    JumpName, LoadName, LogicalImmediateName, ProductName, ShiftName, StoreName, TrapImmediateName,
    TrapName, VariableShiftName,
};

/// Every mnemonic.
const MNEMONICS: [Mnemonic; 81] = [
    Mnemonic::Arithmetic(ArithmeticName::Add),
    Mnemonic::Arithmetic(ArithmeticName::Addu),
    Mnemonic::Arithmetic(ArithmeticName::Sub),
    Mnemonic::Arithmetic(ArithmeticName::Subu),
    Mnemonic::Arithmetic(ArithmeticName::And),
    Mnemonic::Arithmetic(ArithmeticName::Or),
    Mnemonic::Arithmetic(ArithmeticName::Xor),
    Mnemonic::Arithmetic(ArithmeticName::Nor),
    Mnemonic::Arithmetic(ArithmeticName::Slt),
    Mnemonic::Arithmetic(ArithmeticName::Sltu),
    Mnemonic::VariableShift(VariableShiftName::Sllv),
    Mnemonic::VariableShift(VariableShiftName::Srlv),
    Mnemonic::VariableShift(VariableShiftName::Srav),
    Mnemonic::Shift(ShiftName::Sll),
    Mnemonic::Shift(ShiftName::Srl),
    Mnemonic::Shift(ShiftName::Sra),
    Mnemonic::JumpRegister,
    Mnemonic::JumpAndLinkRegister,
    Mnemonic::Syscall,
    Mnemonic::Break,
    Mnemonic::MoveFrom(HiLo::Hi),
    Mnemonic::MoveFrom(HiLo::Lo),
    Mnemonic::MoveTo(HiLo::Hi),
    Mnemonic::MoveTo(HiLo::Lo),
    Mnemonic::Product(ProductName::Mult),
    Mnemonic::Product(ProductName::Multu),
    Mnemonic::Product(ProductName::Div),
    Mnemonic::Product(ProductName::Divu),
    Mnemonic::BranchSign(BranchSignName::Bltz),
    Mnemonic::BranchSign(BranchSignName::Bgez),
    Mnemonic::BranchSign(BranchSignName::Bltzal),
    Mnemonic::BranchSign(BranchSignName::Bgezal),
    Mnemonic::BranchSign(BranchSignName::Bltzl),
    Mnemonic::BranchSign(BranchSignName::Bgezl),
    Mnemonic::BranchSign(BranchSignName::Bltzall),
    Mnemonic::BranchSign(BranchSignName::Bgezall),
    Mnemonic::Jump(JumpName::J),
    Mnemonic::Jump(JumpName::Jal),
    Mnemonic::BranchEqual(BranchEqualName::Beq),
    Mnemonic::BranchEqual(BranchEqualName::Bne),
    Mnemonic::BranchEqual(BranchEqualName::Beql),
    Mnemonic::BranchEqual(BranchEqualName::Bnel),
    Mnemonic::BranchZero(BranchZeroName::Blez),
    Mnemonic::BranchZero(BranchZeroName::Bgtz),
    Mnemonic::BranchZero(BranchZeroName::Blezl),
    Mnemonic::BranchZero(BranchZeroName::Bgtzl),
    Mnemonic::ArithmeticImmediate(ArithmeticImmediateName::Addi),
    Mnemonic::ArithmeticImmediate(ArithmeticImmediateName::Addiu),
    Mnemonic::ArithmeticImmediate(ArithmeticImmediateName::Slti),
    Mnemonic::ArithmeticImmediate(ArithmeticImmediateName::Sltiu),
    Mnemonic::LogicalImmediate(LogicalImmediateName::Andi),
    Mnemonic::LogicalImmediate(LogicalImmediateName::Ori),
    Mnemonic::LogicalImmediate(LogicalImmediateName::Xori),
    Mnemonic::LoadUpper,
    Mnemonic::Load(LoadName::Lb),
    Mnemonic::Load(LoadName::Lh),
    Mnemonic::Load(LoadName::Lwl),
    Mnemonic::Load(LoadName::Lw),
    Mnemonic::Load(LoadName::Lbu),
    Mnemonic::Load(LoadName::Lhu),
    Mnemonic::Load(LoadName::Lwr),
    Mnemonic::Store(StoreName::Sb),
    Mnemonic::Store(StoreName::Sh),
    Mnemonic::Store(StoreName::Swl),
    Mnemonic::Store(StoreName::Sw),
    Mnemonic::Store(StoreName::Swr),
    Mnemonic::Trap(TrapName::Tge),
    Mnemonic::Trap(TrapName::Tgeu),
    Mnemonic::Trap(TrapName::Tlt),
    Mnemonic::Trap(TrapName::Tltu),
    Mnemonic::Trap(TrapName::Teq),
    Mnemonic::Trap(TrapName::Tne),
    Mnemonic::TrapImmediate(TrapImmediateName::Tgei),
    Mnemonic::TrapImmediate(TrapImmediateName::Tgeiu),
    Mnemonic::TrapImmediate(TrapImmediateName::Tlti),
    Mnemonic::TrapImmediate(TrapImmediateName::Tltiu),
    Mnemonic::TrapImmediate(TrapImmediateName::Teqi),
    Mnemonic::TrapImmediate(TrapImmediateName::Tnei),
    Mnemonic::Sync,
    Mnemonic::LoadLinked,
    Mnemonic::StoreConditional,
];

/// The mnemonic that a word is.
pub fn mnemonic_of(word: &[u8]) -> Option<Mnemonic>
    ensures { result ≡ texts.mnemonic_of word.now }
{
    mnemonic_among(MNEMONICS.as_slice(), word)
}

/// The first of the mnemonics whose text a word is.
fn mnemonic_among(mnemonics: &[Mnemonic], word: &[u8]) -> Option<Mnemonic>
    ensures { result ≡ texts.mnemonic_among mnemonics.now word.now }
{
    let mut left = mnemonics;
    while let Some((first, rest)) = left.split_first() {
        if text_of(*first) == word {
            return Some(*first);
        }
        left = rest;
    }
    None
}

/// The text of a mnemonic.
fn text_of(mnemonic: Mnemonic) -> &'static [u8]
    ensures { result.now ≡ texts.mnemonic_text mnemonic }
{
    match mnemonic {
        Mnemonic::Arithmetic(name) => arithmetic_text(name),
        Mnemonic::VariableShift(name) => variable_shift_text(name),
        Mnemonic::Shift(name) => shift_text(name),
        Mnemonic::JumpRegister => b"jr",
        Mnemonic::JumpAndLinkRegister => b"jalr",
        Mnemonic::Syscall => b"syscall",
        Mnemonic::Break => b"break",
        Mnemonic::MoveFrom(HiLo::Hi) => b"mfhi",
        Mnemonic::MoveFrom(HiLo::Lo) => b"mflo",
        Mnemonic::MoveTo(HiLo::Hi) => b"mthi",
        Mnemonic::MoveTo(HiLo::Lo) => b"mtlo",
        Mnemonic::Product(name) => product_text(name),
        Mnemonic::BranchSign(name) => branch_sign_text(name),
        Mnemonic::Jump(name) => jump_text(name),
        Mnemonic::BranchEqual(name) => branch_equal_text(name),
        Mnemonic::BranchZero(name) => branch_zero_text(name),
        Mnemonic::ArithmeticImmediate(name) => arithmetic_immediate_text(name),
        Mnemonic::LogicalImmediate(name) => logical_immediate_text(name),
        Mnemonic::LoadUpper => b"lui",
        Mnemonic::Load(name) => load_text(name),
        Mnemonic::Store(name) => store_text(name),
        Mnemonic::Trap(name) => trap_text(name),
        Mnemonic::TrapImmediate(name) => trap_immediate_text(name),
        Mnemonic::Sync => b"sync",
        Mnemonic::LoadLinked => b"ll",
        Mnemonic::StoreConditional => b"sc",
    }
}

fn arithmetic_text(name: ArithmeticName) -> &'static [u8]
    ensures { result.now ≡ names.arithmetic_text name }
{
    match name {
        ArithmeticName::Add => b"add",
        ArithmeticName::Addu => b"addu",
        ArithmeticName::Sub => b"sub",
        ArithmeticName::Subu => b"subu",
        ArithmeticName::And => b"and",
        ArithmeticName::Or => b"or",
        ArithmeticName::Xor => b"xor",
        ArithmeticName::Nor => b"nor",
        ArithmeticName::Slt => b"slt",
        ArithmeticName::Sltu => b"sltu",
    }
}

fn variable_shift_text(name: VariableShiftName) -> &'static [u8]
    ensures { result.now ≡ names.variable_shift_text name }
{
    match name {
        VariableShiftName::Sllv => b"sllv",
        VariableShiftName::Srlv => b"srlv",
        VariableShiftName::Srav => b"srav",
    }
}

fn shift_text(name: ShiftName) -> &'static [u8]
    ensures { result.now ≡ names.shift_text name }
{
    match name {
        ShiftName::Sll => b"sll",
        ShiftName::Srl => b"srl",
        ShiftName::Sra => b"sra",
    }
}

fn product_text(name: ProductName) -> &'static [u8]
    ensures { result.now ≡ names.product_text name }
{
    match name {
        ProductName::Mult => b"mult",
        ProductName::Multu => b"multu",
        ProductName::Div => b"div",
        ProductName::Divu => b"divu",
    }
}

fn branch_sign_text(name: BranchSignName) -> &'static [u8]
    ensures { result.now ≡ names.branch_sign_text name }
{
    match name {
        BranchSignName::Bltz => b"bltz",
        BranchSignName::Bgez => b"bgez",
        BranchSignName::Bltzal => b"bltzal",
        BranchSignName::Bgezal => b"bgezal",
        BranchSignName::Bltzl => b"bltzl",
        BranchSignName::Bgezl => b"bgezl",
        BranchSignName::Bltzall => b"bltzall",
        BranchSignName::Bgezall => b"bgezall",
    }
}

fn jump_text(name: JumpName) -> &'static [u8]
    ensures { result.now ≡ names.jump_text name }
{
    match name {
        JumpName::J => b"j",
        JumpName::Jal => b"jal",
    }
}

fn branch_equal_text(name: BranchEqualName) -> &'static [u8]
    ensures { result.now ≡ names.branch_equal_text name }
{
    match name {
        BranchEqualName::Beq => b"beq",
        BranchEqualName::Bne => b"bne",
        BranchEqualName::Beql => b"beql",
        BranchEqualName::Bnel => b"bnel",
    }
}

fn branch_zero_text(name: BranchZeroName) -> &'static [u8]
    ensures { result.now ≡ names.branch_zero_text name }
{
    match name {
        BranchZeroName::Blez => b"blez",
        BranchZeroName::Bgtz => b"bgtz",
        BranchZeroName::Blezl => b"blezl",
        BranchZeroName::Bgtzl => b"bgtzl",
    }
}

fn arithmetic_immediate_text(name: ArithmeticImmediateName) -> &'static [u8]
    ensures { result.now ≡ names.arithmetic_immediate_text name }
{
    match name {
        ArithmeticImmediateName::Addi => b"addi",
        ArithmeticImmediateName::Addiu => b"addiu",
        ArithmeticImmediateName::Slti => b"slti",
        ArithmeticImmediateName::Sltiu => b"sltiu",
    }
}

fn logical_immediate_text(name: LogicalImmediateName) -> &'static [u8]
    ensures { result.now ≡ names.logical_immediate_text name }
{
    match name {
        LogicalImmediateName::Andi => b"andi",
        LogicalImmediateName::Ori => b"ori",
        LogicalImmediateName::Xori => b"xori",
    }
}

fn load_text(name: LoadName) -> &'static [u8]
    ensures { result.now ≡ names.load_text name }
{
    match name {
        LoadName::Lb => b"lb",
        LoadName::Lh => b"lh",
        LoadName::Lwl => b"lwl",
        LoadName::Lw => b"lw",
        LoadName::Lbu => b"lbu",
        LoadName::Lhu => b"lhu",
        LoadName::Lwr => b"lwr",
    }
}

fn store_text(name: StoreName) -> &'static [u8]
    ensures { result.now ≡ names.store_text name }
{
    match name {
        StoreName::Sb => b"sb",
        StoreName::Sh => b"sh",
        StoreName::Swl => b"swl",
        StoreName::Sw => b"sw",
        StoreName::Swr => b"swr",
    }
}

fn trap_text(name: TrapName) -> &'static [u8]
    ensures { result.now ≡ names.trap_text name }
{
    match name {
        TrapName::Tge => b"tge",
        TrapName::Tgeu => b"tgeu",
        TrapName::Tlt => b"tlt",
        TrapName::Tltu => b"tltu",
        TrapName::Teq => b"teq",
        TrapName::Tne => b"tne",
    }
}

fn trap_immediate_text(name: TrapImmediateName) -> &'static [u8]
    ensures { result.now ≡ names.trap_immediate_text name }
{
    match name {
        TrapImmediateName::Tgei => b"tgei",
        TrapImmediateName::Tgeiu => b"tgeiu",
        TrapImmediateName::Tlti => b"tlti",
        TrapImmediateName::Tltiu => b"tltiu",
        TrapImmediateName::Teqi => b"teqi",
        TrapImmediateName::Tnei => b"tnei",
    }
}
