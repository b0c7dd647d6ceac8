//! What holds of pruned code. Each call here does nothing: its contract is the law.
ghost use Rattle.std.specs.Prelude.{◌≡◌, ◌≤◌, ℕ, Bool, List, length, map};
ghost use Rattle.class_definition.specs.declared.method.Method.{Method};
ghost use Rattle.jvm_definition.specs.declared.instruction.Instruction.{Instruction};
ghost use Rattle.jvm_definition.specs.declared.linked_method.LinkedMethod.{LinkedMethod};
ghost use Rattle.jvm_definition.specs.Program.{Program, LaidFrom};
ghost use Rattle.jvm_definition.specs.Typing.{Frames, type_effect};
ghost use Rattle.jvm_type_inference.specs.declared.frame.Frame.{Frame};
ghost use Rattle.jvm_type_inference.specs.Verdict.{AreLeast};
ghost use Rattle.type_verifier.specs.Typings.{IsListed};
ghost use Rattle.stackmap_table.specs.Shortest.{trimmed_frame};
ghost use Rattle.frame_maps.specs.Framed.{Framed};
ghost use Rattle.stackmap_prune.specs.Code.{IsPrunedMethod, is_listed};
ghost use Rattle.stackmap_prune.specs.Listing.{listing_of};
ghost use Rattle.stackmap_prune.specs.Pruned.{IsPruned, IsListing};

/// Code of which all that is not reached became returns is typed by the frames of the least typing, if they are listed exactly
/// where they have to be.
pub fn pruned_code_is_framed()
    ensures { (program after : Program) (method pruned : LinkedMethod) (frames : Frames)
        → AreLeast program method frames → LaidFrom 0 method.lines → IsPruned method pruned
        → ((i : Instruction) → type_effect after i ≡ type_effect program i)
        → (listed : Frames) → IsListing method pruned frames listed
        → Framed after pruned listed }
{}

/// A method is pruned in one way, and what its table lists is determined: two lists of a method's least typing differ at most in local
/// variables at the ends of frames of which nothing is known.
pub fn pruning_is_determined()
    ensures pruned { (program : Program) (method : LinkedMethod) (gives_int : Bool)
        (own first second : Method) (reached others : List (ℕ × Frame))
        → length first.code ≤ 65535
        → IsListed program method reached → IsListed program method others
        → IsPrunedMethod (is_listed reached) gives_int own first
        → IsPrunedMethod (is_listed others) gives_int own second
        → first ≡ second }
    ensures listed { (program : Program) (method pruned : LinkedMethod)
        (reached others : List (ℕ × Frame))
        → IsListed program method reached → IsListed program method others
        → map trimmed_frame (listing_of pruned reached)
        ≡ map trimmed_frame (listing_of pruned others) }
{}
