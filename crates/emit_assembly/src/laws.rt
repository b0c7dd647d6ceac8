//! What holds of code that is put together of parts. Each call here does nothing: its contract is the law.
ghost use Rattle.std.specs.Prelude.{◌≡◌, ℕ, ◌+◌, ◌++◌, ◌&&◌, ◌||◌, Bool, List, is_some, IsTrue};
ghost use Rattle.jvm_definition.specs.Program.{line_in};
ghost use Rattle.class_definition.specs.declared.class.Class.{Class};
ghost use Rattle.emit_steps.specs.declared.step.Step.{Step};
ghost use Rattle.emit_steps.specs.Outcomes.{stays_within};
ghost use Rattle.emit_steps.specs.Placing.{laid};
ghost use Rattle.emit_steps.specs.Widths.{size};
ghost use Rattle.emit_steps.specs.Switches.{switches_are_placed};
ghost use Rattle.emit_assembly.specs.declared.references.References.{References};
ghost use Rattle.emit_assembly.specs.Assembling.{have_operations, AreKnown};

/// The bytes of two parts are those of the one and those of the other.
pub fn parts_have_their_bytes()
    ensures { (first second : List Step) → size (first ++ second) ≡ size first + size second }
{}

/// Steps have operations where those of both parts have them, if no branch of the first part goes past its end.
pub fn parts_have_operations()
    ensures { (r : References) (first second : List Step) → IsTrue (stays_within first)
        → have_operations r (first ++ second)
        ≡ (have_operations r first && have_operations r second) }
{}

/// No switch needs padding where none does in the first part, and none in the second one after it.
pub fn parts_have_placed_switches()
    ensures { (at : ℕ) (first second : List Step)
        → switches_are_placed at (first ++ second)
        ≡ (switches_are_placed at first && switches_are_placed (at + size first) second) }
{}

/// The lines of two parts are those of the first one and, from its end on, those of the second, if no branch of the first part goes past
/// its end.
pub fn parts_have_their_lines()
    ensures { (at : ℕ) (first second : List Step) → IsTrue (stays_within first)
        → laid at (first ++ second) ≡ laid at first ++ laid (at + size first) second }
{}

/// A step is at an offset where one of either part does, if no branch of the first part goes past its end.
pub fn parts_have_their_starts()
    ensures { (at target : ℕ) (first second : List Step) → IsTrue (stays_within first)
        → is_some (line_in (laid at (first ++ second)) target)
        ≡ (is_some (line_in (laid at first) target)
        || is_some (line_in (laid (at + size first) second) target)) }
{}

/// Of two parts, the first of which has no branch past its own end, no branch goes past the end where that holds of the second one.
pub fn parts_stay_within()
    ensures { (first second : List Step) → IsTrue (stays_within first)
        → stays_within (first ++ second) ≡ stays_within second }
{}

/// A class that knows what each part names knows what both name.
pub fn parts_are_known()
    ensures { (r : References) (classes : List Class) (number : ℕ) (c : Class) (gives : Bool)
        (first second : List Step) → AreKnown r classes number c gives first
        → AreKnown r classes number c gives second
        → AreKnown r classes number c gives (first ++ second) }
{}
