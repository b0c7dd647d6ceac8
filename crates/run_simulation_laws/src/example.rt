//! A small translation that meets the laws.

ghost use Rattle.std.specs.Prelude.{ℕ};
ghost use Rattle.run_simulation_laws.specs.Turns.{Translates, LawOfMarks};
ghost use Rattle.run_simulation_laws.specs.Example.{load, fill, example, rests, at_piece};

use crate::translation::Translation;

/// A guest with a branch and its slot, a call of the system and a loop; classes with a choice of the span to enter.
pub struct Example {}

impl Translation for Example {
    ghost use Rattle.run_simulation_laws.specs.Example.{Guest, Classes, rests, at_piece};

    ghost Guest = { Guest };

    ghost Classes = { Classes };

    ghost Counted = { Unit {0} };

    ghost rests = { rests };

    ghost at_place = { at_piece };
}

/// Its turns follow one another, four of the classes at most for one of the guest. Each entry of a span is paid for by a crossing,
/// but for the first one.
pub fn example_follows()
    ensures translates { Translates example rests 4 0 (λ i. 1) load fill }
    ensures marks { LawOfMarks example rests at_piece 4 }
{}
