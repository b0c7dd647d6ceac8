//! What holds of code that is typed. Each call here does nothing: its contract is the law.

ghost use Rattle.std.specs.Prelude.{◌≡◌, false};
ghost use Rattle.mips_definition.specs.declared.inst.Inst.{Inst};
ghost use Rattle.delay_slots.specs.Units.{is_branch};
ghost use Rattle.emit_types_laws.specs.Knowing.{InstructionTyped};
ghost use Rattle.emit_types_laws.specs.Laws.{ColdPartsAreTyped, ExitsAreTyped, GuardsAreTyped, PiecesAreTyped, UnitsAreTyped, WarmPartsAreTyped, WordsAreTyped};

use emit_simulation_laws::unit_laws::{
    gained_is_membership, is_in_is_membership, needed_is_known, units_are_lawful,
};

/// The code of an instruction that is no branch and no jump is typed.
pub fn instructions_are_typed()
    ensures { (i : Inst) → is_branch i ≡ false → InstructionTyped i }
{}

/// The code of a unit is typed, a branch with the code of its delay slot too.
pub fn units_are_typed()
    ensures { UnitsAreTyped }
{}

/// The code of a piece is typed, from where nothing is known of local variables to where the way from its last unit begins.
pub fn pieces_are_typed()
    ensures pieces { PiecesAreTyped }
    ensures words { WordsAreTyped }
{
    units_are_lawful();
    is_in_is_membership();
    gained_is_membership();
    needed_is_known();
}

/// The guard that is before a unit in a span with a meter is typed.
pub fn guards_are_typed()
    ensures { GuardsAreTyped }
{}

/// The exit after a unit is typed.
pub fn exits_are_typed()
    ensures { ExitsAreTyped }
{}

/// The parts of a span are typed: pieces with their exits, and words over fields with theirs.
pub fn parts_of_spans_are_typed()
    ensures warm { WarmPartsAreTyped }
    ensures cold { ColdPartsAreTyped }
{
    units_are_lawful();
    is_in_is_membership();
    gained_is_membership();
    needed_is_known();
}
