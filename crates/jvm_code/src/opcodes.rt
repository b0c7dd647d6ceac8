//! Instructions without operands, and names, from opcodes.
ghost use Rattle.std.specs.Prelude.{◌≡◌};
ghost use Rattle.class_definition.specs.Opcodes.{row_of, constants, short_locals, move_opcodes, arithmetic_opcodes, others, plain_of, local_names, branch_names, pool_names};

use class_definition::{Iconst, LocalName, Op, PoolName, ShortIndex};
use jvm_definition::{
    ArrayName, BranchName, Conversion, IntArithmetic, IntDivision, IntShift, LongArithmetic,
    LongDivision, LongShift, ReturnName, StackName,
};

/// The instruction without operands of an opcode.
pub fn plain_by_opcode(opcode: u8) -> Option<Op>
    ensures { result ≡ plain_of opcode }
{
    if let Some(op) = constants_of(opcode) {
        return Some(op);
    }
    if let Some(op) = short_locals_of(opcode) {
        return Some(op);
    }
    if let Some(op) = moves_of(opcode) {
        return Some(op);
    }
    if let Some(op) = arithmetic_of(opcode) {
        return Some(op);
    }
    others_of(opcode)
}

fn constants_of(opcode: u8) -> Option<Op>
    ensures { result ≡ row_of opcode constants }
{
    Some(match opcode {
        0 => Op::Nop,
        1 => Op::AconstNull,
        2 => Op::Iconst(Iconst::M1),
        3 => Op::Iconst(Iconst::Zero),
        4 => Op::Iconst(Iconst::One),
        5 => Op::Iconst(Iconst::Two),
        6 => Op::Iconst(Iconst::Three),
        7 => Op::Iconst(Iconst::Four),
        8 => Op::Iconst(Iconst::Five),
        _ => return None,
    })
}

fn short_locals_of(opcode: u8) -> Option<Op>
    ensures { result ≡ row_of opcode short_locals }
{
    Some(match opcode {
        26 => Op::ShortLocal(LocalName::Iload, ShortIndex::Zero),
        27 => Op::ShortLocal(LocalName::Iload, ShortIndex::One),
        28 => Op::ShortLocal(LocalName::Iload, ShortIndex::Two),
        29 => Op::ShortLocal(LocalName::Iload, ShortIndex::Three),
        42 => Op::ShortLocal(LocalName::Aload, ShortIndex::Zero),
        43 => Op::ShortLocal(LocalName::Aload, ShortIndex::One),
        44 => Op::ShortLocal(LocalName::Aload, ShortIndex::Two),
        45 => Op::ShortLocal(LocalName::Aload, ShortIndex::Three),
        59 => Op::ShortLocal(LocalName::Istore, ShortIndex::Zero),
        60 => Op::ShortLocal(LocalName::Istore, ShortIndex::One),
        61 => Op::ShortLocal(LocalName::Istore, ShortIndex::Two),
        62 => Op::ShortLocal(LocalName::Istore, ShortIndex::Three),
        75 => Op::ShortLocal(LocalName::Astore, ShortIndex::Zero),
        76 => Op::ShortLocal(LocalName::Astore, ShortIndex::One),
        77 => Op::ShortLocal(LocalName::Astore, ShortIndex::Two),
        78 => Op::ShortLocal(LocalName::Astore, ShortIndex::Three),
        _ => return None,
    })
}

fn moves_of(opcode: u8) -> Option<Op>
    ensures { result ≡ row_of opcode move_opcodes }
{
    Some(match opcode {
        46 => Op::Array(ArrayName::Iaload),
        50 => Op::Array(ArrayName::Aaload),
        79 => Op::Array(ArrayName::Iastore),
        83 => Op::Array(ArrayName::Aastore),
        87 => Op::Stack(StackName::Pop),
        88 => Op::Stack(StackName::Pop2),
        89 => Op::Stack(StackName::Dup),
        90 => Op::Stack(StackName::DupX1),
        91 => Op::Stack(StackName::DupX2),
        92 => Op::Stack(StackName::Dup2),
        95 => Op::Stack(StackName::Swap),
        _ => return None,
    })
}

fn arithmetic_of(opcode: u8) -> Option<Op>
    ensures { result ≡ row_of opcode arithmetic_opcodes }
{
    Some(match opcode {
        96 => Op::IntArithmetic(IntArithmetic::Iadd),
        100 => Op::IntArithmetic(IntArithmetic::Isub),
        104 => Op::IntArithmetic(IntArithmetic::Imul),
        126 => Op::IntArithmetic(IntArithmetic::Iand),
        128 => Op::IntArithmetic(IntArithmetic::Ior),
        130 => Op::IntArithmetic(IntArithmetic::Ixor),
        108 => Op::IntDivision(IntDivision::Idiv),
        112 => Op::IntDivision(IntDivision::Irem),
        120 => Op::IntShift(IntShift::Ishl),
        122 => Op::IntShift(IntShift::Ishr),
        124 => Op::IntShift(IntShift::Iushr),
        97 => Op::LongArithmetic(LongArithmetic::Ladd),
        105 => Op::LongArithmetic(LongArithmetic::Lmul),
        127 => Op::LongArithmetic(LongArithmetic::Land),
        109 => Op::LongDivision(LongDivision::Ldiv),
        113 => Op::LongDivision(LongDivision::Lrem),
        121 => Op::LongShift(LongShift::Lshl),
        123 => Op::LongShift(LongShift::Lshr),
        125 => Op::LongShift(LongShift::Lushr),
        _ => return None,
    })
}

fn others_of(opcode: u8) -> Option<Op>
    ensures { result ≡ row_of opcode others }
{
    Some(match opcode {
        133 => Op::Convert(Conversion::I2l),
        136 => Op::Convert(Conversion::L2i),
        145 => Op::Convert(Conversion::I2b),
        146 => Op::Convert(Conversion::I2c),
        147 => Op::Convert(Conversion::I2s),
        148 => Op::Lcmp,
        172 => Op::Give(ReturnName::Ireturn),
        177 => Op::Give(ReturnName::Return),
        190 => Op::Arraylength,
        _ => return None,
    })
}

/// The name of an opcode, if it is one of these.
pub fn local_name_of(opcode: u8) -> Option<LocalName>
    ensures { result ≡ row_of opcode local_names }
{
    Some(match opcode {
        21 => LocalName::Iload,
        25 => LocalName::Aload,
        54 => LocalName::Istore,
        58 => LocalName::Astore,
        _ => return None,
    })
}

/// The name of an opcode, if it is one of these.
pub fn branch_name_of(opcode: u8) -> Option<BranchName>
    ensures { result ≡ row_of opcode branch_names }
{
    Some(match opcode {
        153 => BranchName::Ifeq,
        154 => BranchName::Ifne,
        155 => BranchName::Iflt,
        156 => BranchName::Ifge,
        157 => BranchName::Ifgt,
        158 => BranchName::Ifle,
        159 => BranchName::IfIcmpeq,
        160 => BranchName::IfIcmpne,
        161 => BranchName::IfIcmplt,
        162 => BranchName::IfIcmpge,
        163 => BranchName::IfIcmpgt,
        164 => BranchName::IfIcmple,
        167 => BranchName::Goto,
        198 => BranchName::Ifnull,
        199 => BranchName::Ifnonnull,
        _ => return None,
    })
}

/// The name of an opcode, if it is one of these.
pub fn pool_name_of(opcode: u8) -> Option<PoolName>
    ensures { result ≡ row_of opcode pool_names }
{
    Some(match opcode {
        19 => PoolName::LdcW,
        20 => PoolName::Ldc2W,
        178 => PoolName::Getstatic,
        179 => PoolName::Putstatic,
        182 => PoolName::Invokevirtual,
        184 => PoolName::Invokestatic,
        189 => PoolName::Anewarray,
        _ => return None,
    })
}
