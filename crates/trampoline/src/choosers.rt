//! The methods that choose by the address at which the guest is.
ghost use Rattle.std.specs.Prelude.{◌≡◌, ◌++◌, ◌≤◌, OnOk, length};
ghost use Rattle.emit_steps.specs.Returning.{returns};
ghost use Rattle.trampoline.specs.Choosers as emitted;
ghost use Rattle.trampoline.specs.Trees.{tree, first_of};

use crate::start::Start;
use crate::trees::{NoMemory, append_reached, append_tree, first_of};
use emit_instructions::{append_steps, arithmetic, fields, get_field, push_word};
use emit_steps::Step;
use jvm_definition::{BranchName, Instruction, IntArithmetic, LocalKind, ReturnName};
use meter::{LEFT, SPENT};
use mips_decode::fault_kinds::{FETCH, PC_ALIGN};

/// Appends the code of the method by which a class chooses among its methods, which take no arguments, as the method itself does. As long
/// as field pc is one of the addresses from `first` to before `end` and is a multiple of 4, the method of the last start that is not above
/// it is called; then the method returns. Field pc is read anew after each call.
///
/// There are 1 to 2,048 starts, which rise from `first` on. `end` is below 80000000 (hexadecimal). The code is to be that of a whole
/// method, from offset 0 on.
///
/// # Errors
/// Out of memory for the code.
pub fn append_class_chooser(
    starts: &[Start],
    first: u32,
    end: u32,
    code: &mut Vec<Step>,
) -> Result<(), NoMemory>
    requires some { 1 ≤ length starts.now }
    requires few { length starts.now ≤ 2048 }
    ensures { OnOk result (code.new.items ≡ code.old.items
        ++ emitted.class_chooser starts.now first end) }
{
    append_address(code)?;
    append_within(first, end, code)?;
    append_chosen(starts, code)
}

/// Appends the code of the method by which the main class chooses for ever, which takes no arguments. If field pc is no multiple of 4
/// or is below all starts, the method `missing` is called, and otherwise the method of the last start that is not above it. Field pc is read
/// anew after each call.
///
/// There are 1 to 2,048 starts, which rise. After the end of each range of code a start names the method `missing`. The code is to be that
/// of a whole method, from offset 0 on.
///
/// # Errors
/// Out of memory for the code.
pub fn append_main_chooser(
    starts: &[Start],
    missing: u32,
    code: &mut Vec<Step>,
) -> Result<(), NoMemory>
    requires some { 1 ≤ length starts.now }
    requires few { length starts.now ≤ 2048 }
    ensures { OnOk result (code.new.items ≡ code.old.items
        ++ emitted.main_chooser starts.now missing) }
{
    append_address(code)?;
    append_strayed(starts, missing, code)?;
    append_chosen(starts, code)
}

/// Appends the code of the method for a guest that is outside all code, which takes no arguments. The run ends in the fault of an
/// unaligned pc (2) where field pc is no multiple of 4, and otherwise in that of a fetch (1), with pc as the fault's pc and value. If the program
/// has a meter on which no turn is left, it ends in the fault of a spent meter instead, with pc as the fault's pc.
///
/// # Errors
/// Out of memory for the code.
pub fn append_missing(metered: bool, code: &mut Vec<Step>) -> Result<(), NoMemory>
    ensures { OnOk result (code.new.items ≡ code.old.items ++ emitted.missing_method metered) }
{
    if metered {
        append_spent(code)?;
    }
    append_stray(code)
}

// Where no turn is left on the meter, the run ends in the fault of a spent meter.
fn append_spent(code: &mut Vec<Step>) -> Result<(), NoMemory>
    ensures { OnOk result (code.new.items ≡ code.old.items ++ emitted.spent_code) }
{
    append_steps(
        [
            get_field(LEFT),
            push_word(1),
            Step::Skips(BranchName::IfIcmpge, 4),
            push_word(SPENT),
            get_field(fields::PC),
            push_word(0),
            Step::Does(Instruction::FaultHost),
        ],
        code,
    )
}

// The run ends in the fault of a guest that stands outside all code.
fn append_stray(code: &mut Vec<Step>) -> Result<(), NoMemory>
    ensures { OnOk result (code.new.items ≡ code.old.items ++ emitted.missing_code) }
{
    append_address(code)?;
    append_unaligned(2, code)?;
    append_steps(
        [
            push_word(FETCH),
            Step::Skips(BranchName::Goto, 1),
            push_word(PC_ALIGN),
            load_address(),
            load_address(),
            Step::Does(Instruction::FaultHost),
            returns(),
        ],
        code,
    )
}

fn load_address() -> Step
    ensures { result ≡ emitted.load_address }
{
    Step::Does(Instruction::Load(LocalKind::Int, 0))
}

fn returns() -> Step
    ensures { result ≡ returns }
{
    Step::Does(Instruction::Return(ReturnName::Return))
}

// The guest's address is put into local variable 0.
fn append_address(code: &mut Vec<Step>) -> Result<(), NoMemory>
    ensures { OnOk result (code.new.items ≡ code.old.items ++ emitted.address_code) }
{
    append_steps(
        [
            get_field(fields::PC),
            Step::Does(Instruction::Store(LocalKind::Int, 0)),
        ],
        code,
    )
}

// The address is no multiple of 4: that many of the following steps are passed over.
fn append_unaligned(over: u32, code: &mut Vec<Step>) -> Result<(), NoMemory>
    ensures { OnOk result (code.new.items ≡ code.old.items ++ emitted.unaligned_code over) }
{
    append_steps(
        [
            load_address(),
            push_word(3),
            arithmetic(IntArithmetic::Iand),
            Step::Skips(BranchName::Ifne, over),
        ],
        code,
    )
}

// The address is below another one: that many of the following steps are passed over.
fn append_below(bound: u32, over: u32, code: &mut Vec<Step>) -> Result<(), NoMemory>
    ensures { OnOk result (code.new.items ≡ code.old.items ++ emitted.below_code bound over) }
{
    append_steps(
        [
            load_address(),
            push_word(bound),
            Step::Skips(BranchName::IfIcmplt, over),
        ],
        code,
    )
}

// The method returns where the address is not at a word from `first` to before `end`.
fn append_within(first: u32, end: u32, code: &mut Vec<Step>) -> Result<(), NoMemory>
    ensures { OnOk result (code.new.items ≡ code.old.items ++ emitted.within_code first end) }
{
    append_unaligned(6, code)?;
    append_below(first, 3, code)?;
    append_below(end, 1, code)?;
    code.push(returns())?;
    Ok(())
}

// The method `missing` is called where the address is no multiple of 4 or is below all starts.
fn append_strayed(starts: &[Start], missing: u32, code: &mut Vec<Step>) -> Result<(), NoMemory>
    ensures { OnOk result (code.new.items ≡ code.old.items
        ++ emitted.strayed_code (first_of starts.now) missing) }
{
    append_unaligned(3, code)?;
    append_reached(first_of(starts), 2, code)?;
    append_steps(
        [Step::Does(Instruction::Call(missing)), Step::Leaves(0)],
        code,
    )
}

fn append_chosen(starts: &[Start], code: &mut Vec<Step>) -> Result<(), NoMemory>
    requires few { length starts.now ≤ 2048 }
    ensures { OnOk result (code.new.items ≡ code.old.items ++ emitted.chosen_code starts.now) }
{
    append_tree(starts, code)?;
    code.push(Step::Leaves(0))?;
    Ok(())
}
