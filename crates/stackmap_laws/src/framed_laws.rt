//! What holds of framed classes. Each call here does nothing: its contract is the law.
ghost use Rattle.std.specs.Prelude.{◌≡◌, ℕ, Bool, List, None, All};
ghost use Rattle.run_definition.specs.Question.{Question};
ghost use Rattle.run_definition.specs.Answer.{Answer};
ghost use Rattle.run_definition.specs.Turn.{Turn};
ghost use Rattle.class_definition.specs.declared.class.Class.{Class};
ghost use Rattle.class_names.specs.Kept.{IsClass};
ghost use Rattle.class_definition.specs.LinkFault.{link_fault};
ghost use Rattle.jvm_definition.specs.Step.{jvm_start, jvm_turn};
ghost use Rattle.class_definition.specs.Linking.{Accepted, program_of};
ghost use Rattle.run_simulation_laws.specs.Runs.{SameRuns};
ghost use Rattle.frame_maps.specs.Checked.{HaveTables, AreTyped};
ghost use Rattle.stackmap_laws.specs.Framed.{AreFramed, AreTables};

use nv_events::{Machine, Server};

/// Framed classes keep the rules of class files, link, and are accepted as those of version 48.0 are.
pub fn framed_classes_are_accepted()
    ensures kept { (classes framed : List Class) → All IsClass classes → AreFramed classes framed
        → All IsClass framed }
    ensures accepted { (classes framed : List Class) → All IsClass classes
        → link_fault classes ≡ None → AreFramed classes framed → Accepted framed }
{}

/// Each of their methods is typed by the frames that its table lists: they pass `check`.
pub fn framed_classes_pass()
    ensures have { (classes framed : List Class) (tables : List (List (List ℕ)))
        → All IsClass classes → AreFramed classes framed → AreTables classes framed tables
        → HaveTables framed tables }
    ensures typed { (classes framed : List Class) (tables : List (List (List ℕ)))
        → All IsClass classes → AreFramed classes framed → AreTables classes framed tables
        → AreTyped framed tables }
{}

/// They run as the classes before, in each number of words, over each system and to each bound: what runs the same as these runs the
/// same as the framed ones.
pub fn framed_classes_run_the_same<M: Machine, V: Server>()
    ensures { (classes framed : List Class) (words : ℕ) (guest : M.State → Turn M.State)
        (allowance : ℕ → ℕ) (g : M.State) (k : V.State) → All IsClass classes
        → AreFramed classes framed
        → SameRuns guest (jvm_turn (program_of classes) words) V.reply allowance g
        (jvm_start (program_of classes)) k
        → SameRuns guest (jvm_turn (program_of framed) words) V.reply allowance g
        (jvm_start (program_of framed)) k }
{}

/// Framed classes are determined by the classes before, and their tables by both.
pub fn framed_classes_are_determined()
    ensures classes { (classes first second : List Class) → AreFramed classes first
        → AreFramed classes second → first ≡ second }
    ensures tables { (classes framed : List Class) (first second : List (List (List ℕ)))
        → AreTables classes framed first → AreTables classes framed second → first ≡ second }
{}
