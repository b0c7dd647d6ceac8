//! Trees of comparisons.
ghost use Rattle.std.specs.Prelude.{◌≡◌, ◌++◌, ◌<◌, ◌≤◌, ◌^◌, OnOk, length};
ghost use Rattle.trampoline.specs.Trees as emitted;

use crate::start::Start;
use emit_instructions::{append_steps, push_word};
use emit_steps::Step;
use jvm_definition::{BranchName, Instruction, LocalKind};
use std::alloc::AllocError;

/// Out of memory, the one error of this crate.
pub type NoMemory = AllocError;

/// The address in local variable 0 is not below a start: that many of the following steps are passed over.
pub fn append_reached(first: u32, over: u32, code: &mut Vec<Step>) -> Result<(), NoMemory>
    ensures { OnOk result (code.new.items ≡ code.old.items ++ emitted.reached_code first over) }
{
    append_steps(
        [
            Step::Does(Instruction::Load(LocalKind::Int, 0)),
            push_word(first),
            Step::Skips(BranchName::IfIcmpge, over),
        ],
        code,
    )
}

/// The tree of the starts, over the address in local variable 0: the method of the last start that is not above it is called, or that of
/// the first one where all are.
pub fn append_tree(starts: &[Start], code: &mut Vec<Step>) -> Result<(), NoMemory>
    requires few { length starts.now ≤ 2048 }
    ensures { OnOk result (code.new.items ≡ code.old.items ++ emitted.tree starts.now) }
{
    match starts {
        [] => Ok(()),
        [start] => Ok(code.push(Step::Does(Instruction::Call(start.method)))?),
        _ => {
            let (below, from) = starts.split_at(starts.len() / 2);
            append_reached(first_of(from), tree_steps(below) + 1, code)?;
            append_tree(below, code)?;
            code.push(Step::Skips(BranchName::Goto, tree_steps(from)))?;
            append_tree(from, code)
        }
    }
}

/// Where the part of the first start begins.
pub fn first_of(starts: &[Start]) -> u32
    ensures { result ≡ emitted.first_of starts.now }
{
    match starts.first() {
        None => 0,
        Some(start) => start.first,
    }
}

// How many steps a tree has: one call for each start, and four steps between each two.
#[tactic(auto, using(crate::proofs::TreeLemmas::tree_steps_are))]
fn tree_steps(starts: &[Start]) -> u32
    requires few { length starts.now ≤ 2048 }
    ensures value { result ≡ length (emitted.tree starts.now) }
    ensures few { result < 2 ^ 16 }
{
    match starts.len() as u32 {
        0 => 0,
        count => 5 * count - 4,
    }
}
