//! The assembly text of instructions.
ghost use Rattle.std.specs.Prelude.{◌≡◌, IfOk, string_bytes};
ghost use Rattle.mips_decode.specs.Text.{text_of};

use crate::hexadecimal::Hexadecimal;
use crate::targets::{branch_target, jump_target, signed};
use mips_definition::Inst;
use std::alloc::{AllocError, Global};

/// The error of a call that found no memory.
pub type NoMemory = AllocError;

/// The assembly text of the instruction at the address `at`, as `addiu $2,$0,1`. Targets are addresses.
///
/// # Errors
/// Only if memory runs out.
pub fn print_inst(alloc: Global, inst: &Inst, at: u32) -> Result<String, NoMemory>
    ensures { IfOk result (λ text. string_bytes text ≡ text_of inst.now at) }
{
    match *inst {
        Inst::Arithmetic { name, rs, rt, rd } => format!(in alloc; "{name} ${rd},${rs},${rt}"),
        Inst::VariableShift { name, rs, rt, rd } => format!(in alloc; "{name} ${rd},${rt},${rs}"),
        Inst::Shift { name, rt, rd, sa } => format!(in alloc; "{name} ${rd},${rt},{sa}"),
        Inst::JumpRegister { rs } => format!(in alloc; "jr ${rs}"),
        Inst::JumpAndLinkRegister { rs, rd } => format!(in alloc; "jalr ${rd},${rs}"),
        Inst::Syscall { code } => format!(in alloc; "syscall {code}"),
        Inst::Break { code } => format!(in alloc; "break {code}"),
        Inst::MoveFrom { name, rd } => format!(in alloc; "mf{name} ${rd}"),
        Inst::MoveTo { name, rs } => format!(in alloc; "mt{name} ${rs}"),
        Inst::Product { name, rs, rt } => format!(in alloc; "{name} ${rs},${rt}"),
        Inst::BranchSign { name, rs, imm } => {
            let to = Hexadecimal(branch_target(at, imm));
            format!(in alloc; "{name} ${rs},{to}")
        }
        Inst::Jump { name, index } => {
            let to = Hexadecimal(jump_target(at, index));
            format!(in alloc; "{name} {to}")
        }
        Inst::BranchEqual { name, rs, rt, imm } => {
            let to = Hexadecimal(branch_target(at, imm));
            format!(in alloc; "{name} ${rs},${rt},{to}")
        }
        Inst::BranchZero { name, rs, imm } => {
            let to = Hexadecimal(branch_target(at, imm));
            format!(in alloc; "{name} ${rs},{to}")
        }
        Inst::ArithmeticImmediate { name, rs, rt, imm } => {
            let value = signed(imm);
            format!(in alloc; "{name} ${rt},${rs},{value}")
        }
        Inst::LogicalImmediate { name, rs, rt, imm } => format!(in alloc;
            "{name} ${rt},${rs},{imm}"
        ),
        Inst::LoadUpper { rt, imm } => format!(in alloc; "lui ${rt},{imm}"),
        Inst::Load { name, rs, rt, imm } => {
            let offset = signed(imm);
            format!(in alloc; "{name} ${rt},{offset}(${rs})")
        }
        Inst::Store { name, rs, rt, imm } => {
            let offset = signed(imm);
            format!(in alloc; "{name} ${rt},{offset}(${rs})")
        }
        Inst::Trap { name, rs, rt, code } => format!(in alloc; "{name} ${rs},${rt},{code}"),
        Inst::TrapImmediate { name, rs, imm } => {
            let right = signed(imm);
            format!(in alloc; "{name} ${rs},{right}")
        }
        Inst::Sync { sa } => format!(in alloc; "sync {sa}"),
        Inst::LoadLinked { rs, rt, imm } => {
            let offset = signed(imm);
            format!(in alloc; "ll ${rt},{offset}(${rs})")
        }
        Inst::StoreConditional { rs, rt, imm } => {
            let offset = signed(imm);
            format!(in alloc; "sc ${rt},{offset}(${rs})")
        }
        Inst::Reserved(word) | Inst::Float(word) => {
            let word = Hexadecimal(word);
            format!(in alloc; ".word {word}")
        }
    }
}
