//! What holds of such classes. The call here does nothing: its contract is the law.
ghost use Rattle.std.specs.Prelude.{◌≡◌, ℕ, List, None, IsSome};
ghost use Rattle.class_definition.specs.PoolChecks.{text_at};
ghost use Rattle.class_definition.specs.declared.class.Class.{Class};
ghost use Rattle.class_definition.specs.LinkFault.{link_fault};
ghost use Rattle.class_definition.specs.MemberNames.{slot_text};
ghost use Rattle.class_definition.specs.Linking.{field_kinds, first_method};
ghost use Rattle.stackmap_laws.specs.Like.{IsLike, AreLikeIn};

/// They link where the classes before did, to the same fields and the same first method; a slot that had a text has it.
pub fn like_classes_link()
    ensures links { (old new : List Class) → AreLikeIn old new → link_fault old ≡ None
        → link_fault new ≡ None }
    ensures fields { (old new : List Class) → AreLikeIn old new
        → field_kinds new ≡ field_kinds old }
    ensures first { (old new : List Class) → AreLikeIn old new
        → first_method new ≡ first_method old }
    ensures texts { (old new : Class) (slot : ℕ) → IsLike old new
        → IsSome (text_at old.pool slot) → slot_text new slot ≡ slot_text old slot }
{}
