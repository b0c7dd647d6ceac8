//! What holds of code that is typed. Each call here does nothing: its contract is the law.

ghost use Rattle.std.specs.Prelude.{◌≡◌, ℕ, ◌++◌, [], All, List, Some, slice_get};
ghost use Rattle.std.specs.List.{flat_map};
ghost use Rattle.jvm_definition.specs.declared.linked_method.LinkedMethod.{LinkedMethod};
ghost use Rattle.jvm_definition.specs.Typing.{Below, TypeFrame, Typed};
ghost use Rattle.emit_steps.specs.declared.step.Step.{Step};
ghost use Rattle.emit_types_laws.specs.Judging.{EitherWayIsTyped, Leads, Meets, PartsTyped, RedirectedCodeIsTyped, Rules, TypesFrom};
ghost use Rattle.emit_types_laws.specs.Flowing.{Ahead, Flows, FlowsFrom};
ghost use Rattle.emit_types_laws.specs.Bodies.{BodyTypes, HasBody, HasParts, IsAhead};

/// A method whose body is code that is typed has a typing.
pub fn bodies_are_typed()
    ensures { (rules : Rules) (method : LinkedMethod) (code : List Step) → HasBody rules method code
        → Typed rules.program method }
{}

/// Code that passes the test is typed.
pub fn flows_are_typed()
    ensures { (rules : Rules) (code : List Step) (from : TypeFrame) (behind : List TypeFrame)
        → FlowsFrom rules code from behind → TypesFrom rules code from behind }
{}

/// A body that passes the test is typed, where what it owes at offsets is ahead there from the beginning.
pub fn loops_are_typed()
    ensures { (rules : Rules) (code : List Step) (from : TypeFrame) (ahead : Ahead)
        → Flows rules code [] (Some from) ahead
        → ((at : ℕ) (f : TypeFrame) → rules.owes at ≡ Some f → IsAhead code ahead at f)
        → BodyTypes rules code from }
{}

/// Code and other code after it are typed one after the other.
pub fn typed_codes_follow_each_other()
    ensures { (rules : Rules) (first second : List Step) (from between : TypeFrame)
        (behind : List TypeFrame)
        → Leads rules first from between → TypesFrom rules second between behind
        → TypesFrom rules (first ++ second) from behind }
{}

/// A branch over code for one of its ways, which goes over the code for the other one, is typed where both are.
pub fn either_way_is_typed()
    ensures { EitherWayIsTyped }
{}

/// Code may be entered with a frame below, and may be left with one above.
pub fn frames_may_be_moved()
    ensures entered { (rules : Rules) (code : List Step) (below from : TypeFrame)
        (behind : List TypeFrame)
        → Below below from → TypesFrom rules code from behind
        → TypesFrom rules code below behind }
    ensures left { (rules : Rules) (code : List Step) (from to above : TypeFrame)
        → Below to above → Leads rules code from to
        → Leads rules code from above }
{}

/// Code without a switch may leave to other offsets, where above what is owed is owed there.
pub fn redirected_code_is_typed()
    ensures { RedirectedCodeIsTyped }
{}

/// Parts that are entered and left with one frame are typed one after the other, and each begins with that frame.
pub fn parts_are_typed()
    ensures { (rules : Rules) (part : ℕ → List Step) (parts : List ℕ) (f : TypeFrame)
        (behind : List TypeFrame)
        → Meets f (slice_get behind 0) → All (λ k. Leads rules (part k) f f) parts
        → PartsTyped rules part parts f behind }
{}

/// A body of parts is typed, where it leaves to offsets between its parts alone.
pub fn bodies_of_parts_are_typed()
    ensures { (rules : Rules) (front : List Step) (part : ℕ → List Step) (parts : List ℕ)
        (back : List Step) (entry f : TypeFrame)
        → HasParts rules front part parts back entry f
        → BodyTypes rules (front ++ (flat_map part parts ++ back)) entry }
{}
