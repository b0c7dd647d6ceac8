//! Constant pools as they are made, and steps that are assembled to the code of a method.
ghost use Rattle.std.specs.Prelude.{◌≡◌, IfOk, false};
ghost use Rattle.constant_pool.specs.Slots.{is_rest};

use crate::pools::push_entry;
use anyhow::{Result, bail, ensure};
use constant_pool::{Entry, Pool};
use emit_assembly::{References, is_code, method_code};
use emit_steps::Step;
use jvm_definition::{
    BranchName, Constant, Instruction, IntArithmetic, Kind, LocalKind, ReturnName, Sequence,
    StackName,
};
use std::alloc::{AllocError, Global};
use std::fmt::Write;
use table_rows::hex_of;

/// The slots that texts and longs get in a new pool, one after the other, how many are left, and the pool: `added ENTRIES`, each as
/// `text:HEX` or `long:NUMBER`.
pub fn added_row(alloc: Global, text: &mut String, entries: &str) -> Result<()> {
    let mut pool = Pool::new(alloc);
    for word in entries.split(' ') {
        push_added(alloc, text, &mut pool, word)?;
    }
    let left = pool.left();
    write!(text, "and {left} left; ")?;
    push_pool(alloc, text, pool)?;
    Ok(())
}

fn push_added(alloc: Global, text: &mut String, pool: &mut Pool, word: &str) -> Result<()> {
    match pool.add(entry_of(alloc, word)?) {
        Ok(slot) => write!(text, "{slot} ")?,
        Err(error) => bail!("{error:?}"),
    }
    Ok(())
}

fn entry_of(alloc: Global, word: &str) -> Result<Entry, AllocError>
    ensures { IfOk result (λ entry. is_rest entry ≡ false) }
{
    let (kind, value) = word.split_once(':').unwrap_or((word, ""));
    match kind {
        "long" => Ok(Entry::Long(value.parse::<i64>().unwrap_or(0))),
        _ => {
            let character = u16::from_str_radix(value, 16).unwrap_or(0);
            Ok(Entry::Utf8(Sequence::new(vec![in alloc; character]?)))
        }
    }
}

fn push_pool(alloc: Global, text: &mut String, pool: Pool) -> Result<(), AllocError> {
    let all = pool.entries(alloc)?;
    for entry in all.as_slice() {
        push_entry(text, entry)?;
    }
    Ok(())
}

/// The bytes of the steps below, and how many slots are left of a new pool. The int takes one slot, although it is pushed twice, and the
/// long two.
pub fn assembled_row(alloc: Global, text: &mut String) -> Result<()> {
    let code = [
        Step::Does(Instruction::Push(Constant::Int(0xFFFF_FFFF))),
        Step::Does(Instruction::Store(LocalKind::Int, 3)),
        Step::Does(Instruction::Push(Constant::Int(300))),
        Step::Does(Instruction::Store(LocalKind::Int, 4)),
        Step::Does(Instruction::Push(Constant::Int(100_000))),
        Step::Does(Instruction::Load(LocalKind::Int, 4)),
        Step::Skips(BranchName::IfIcmplt, 2),
        Step::Does(Instruction::Increment(4, 0xFFFF_FFFF)),
        Step::Leaves(0),
        Step::Does(Instruction::Push(Constant::Long(5))),
        Step::Does(Instruction::Stack(StackName::Pop2)),
        Step::Does(Instruction::Get(1, Kind::Int)),
        Step::Does(Instruction::Push(Constant::Int(100_000))),
        Step::Does(Instruction::IntArithmetic(IntArithmetic::Iadd)),
        Step::Does(Instruction::Call(7)),
        Step::Does(Instruction::Return(ReturnName::Return)),
    ];
    push_assembled(alloc, text, &code)
}

/// The bytes of steps. That they are code of a method is tested, and not proved: to a proof they would be all their parts.
fn push_assembled(alloc: Global, text: &mut String, code: &[Step]) -> Result<()> {
    let references = references(alloc)?;
    ensure!(is_code(alloc, code, &references)?, "no code of a method");
    let mut pool = Pool::new(alloc);
    match method_code(alloc, code, &references, &mut pool) {
        Ok(bytes) => push_bytes(alloc, text, bytes.as_slice(), pool.left()),
        Err(error) => bail!("{error:?}"),
    }
}

fn references(alloc: Global) -> Result<References, AllocError> {
    Ok(References {
        fields: Sequence::new(vec![in alloc; 9, 10]?),
        first_method: 6,
        methods: Sequence::new(vec![in alloc; 20, 21]?),
        host_call: 30,
        host_fault: 31,
        string_length: 32,
        string_char_at: 33,
        ints_class: 34,
    })
}

fn push_bytes(alloc: Global, text: &mut String, bytes: &[u8], left: u32) -> Result<()> {
    let digits = hex_of(alloc, bytes)?;
    write!(text, "{digits}, {left} left")?;
    Ok(())
}
