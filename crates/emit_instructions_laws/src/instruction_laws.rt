//! What the code of instructions follows. Each call here does nothing: its contract is the law.

ghost use Rattle.std.specs.Prelude.{ℕ};
ghost use Rattle.mips_definition.specs.declared.inst.Inst.TheVariants as inst;
ghost use Rattle.mips_definition.specs.declared.names.arithmetic_name.ArithmeticName.{ArithmeticName};
ghost use Rattle.mips_definition.specs.declared.names.shift_name.ShiftName.{ShiftName};
ghost use Rattle.mips_definition.specs.declared.names.variable_shift_name.VariableShiftName.{VariableShiftName};
ghost use Rattle.mips_definition.specs.declared.names.arithmetic_immediate_name.ArithmeticImmediateName.{ArithmeticImmediateName};
ghost use Rattle.mips_definition.specs.declared.names.logical_immediate_name.LogicalImmediateName.{LogicalImmediateName};
ghost use Rattle.mips_definition.specs.declared.names.hi_lo.HiLo.{HiLo};
ghost use Rattle.mips_definition.specs.declared.names.trap_name.TrapName.{TrapName};
ghost use Rattle.mips_definition.specs.declared.names.trap_immediate_name.TrapImmediateName.{TrapImmediateName};
ghost use Rattle.emit_instructions_laws.specs.Instructions.{InstructionFollows};

use emit_simulation_laws::laws::code_is_paths;

/// The code of the instructions that compute from two registers follows them.
pub fn arithmetic_is_followed()
    ensures { (name : ArithmeticName) (rs rt rd : ℕ)
        → InstructionFollows (inst.Arithmetic name rs rt rd) }
{
    code_is_paths();
}

/// The code of shifts by an amount in the instruction follows them.
pub fn shifts_are_followed()
    ensures { (name : ShiftName) (rt rd sa : ℕ) → InstructionFollows (inst.Shift name rt rd sa) }
{
    code_is_paths();
}

/// The code of shifts by an amount in a register follows them.
pub fn variable_shifts_are_followed()
    ensures { (name : VariableShiftName) (rs rt rd : ℕ)
        → InstructionFollows (inst.VariableShift name rs rt rd) }
{
    code_is_paths();
}

/// The code of the instructions that compute from a register and a signed immediate follows them.
pub fn arithmetic_immediates_are_followed()
    ensures { (name : ArithmeticImmediateName) (rs rt imm : ℕ)
        → InstructionFollows (inst.ArithmeticImmediate name rs rt imm) }
{
    code_is_paths();
}

/// The code of the instructions that combine the bits of a register with those of an immediate follows them.
pub fn logical_immediates_are_followed()
    ensures { (name : LogicalImmediateName) (rs rt imm : ℕ)
        → InstructionFollows (inst.LogicalImmediate name rs rt imm) }
{
    code_is_paths();
}

/// The code of LUI follows it.
pub fn load_upper_is_followed()
    ensures { (rt imm : ℕ) → InstructionFollows (inst.LoadUpper rt imm) }
{
    code_is_paths();
}

/// The code of moves from HI and LO follows them.
pub fn moves_from_are_followed()
    ensures { (name : HiLo) (rd : ℕ) → InstructionFollows (inst.MoveFrom name rd) }
{
    code_is_paths();
}

/// The code of moves to HI and LO follows them.
pub fn moves_to_are_followed()
    ensures { (name : HiLo) (rs : ℕ) → InstructionFollows (inst.MoveTo name rs) }
{
    code_is_paths();
}

/// The code of traps that compare two registers follows them.
pub fn traps_are_followed()
    ensures { (name : TrapName) (rs rt code : ℕ) → InstructionFollows (inst.Trap name rs rt code) }
{
    code_is_paths();
}

/// The code of traps that compare a register with an immediate follows them.
pub fn trap_immediates_are_followed()
    ensures { (name : TrapImmediateName) (rs imm : ℕ)
        → InstructionFollows (inst.TrapImmediate name rs imm) }
{
    code_is_paths();
}

/// The code of BREAK follows it.
pub fn breaks_are_followed()
    ensures { (code : ℕ) → InstructionFollows (inst.Break code) }
{
    code_is_paths();
}

/// The code of a word that is no instruction follows it.
pub fn reserved_words_are_followed()
    ensures { (word : ℕ) → InstructionFollows (inst.Reserved word) }
{
    code_is_paths();
}

/// The code of SYNC follows it.
pub fn syncs_are_followed()
    ensures { (sa : ℕ) → InstructionFollows (inst.Sync sa) }
{
    code_is_paths();
}
