//! What the code of units follows. Each call here does nothing: its contract is the law.

ghost use Rattle.std.specs.Prelude.{ℕ};
ghost use Rattle.mips_definition.specs.declared.inst.Inst.TheVariants as inst;
ghost use Rattle.emit_instructions_laws.specs.Instructions.{InstructionFollows};
ghost use Rattle.emit_instructions_laws.specs.Units.{AllFollow, AllUnitsFollow};
ghost use Rattle.emit_instructions_laws.specs.Past.{SlotsArePassedOver};

use emit_simulation_laws::laws::code_is_paths;

/// The code of SYSCALL follows it. It asks what the guest asks, and goes on with each answer that fits.
pub fn calls_are_followed()
    ensures { (code : ℕ) → InstructionFollows (inst.Syscall code) }
{
    code_is_paths();
}

/// The code of a unit follows the unit's turns.
pub fn units_are_followed()
    ensures { AllFollow → AllUnitsFollow }
{
    code_is_paths();
}

/// Where a branch with a delay slot has one turn alone, which passes the slot over, its code follows that turn, and nothing of the slot's code
/// is counted.
pub fn slots_are_passed_over()
    ensures { SlotsArePassedOver }
{
    code_is_paths();
}
