//! What holds of such pools. The call here does nothing: its contract is the law.
ghost use Rattle.std.specs.Prelude.{◌≡◌, ◌≤◌, List, true, length, unwrap_or, codes, IsSome};
ghost use Rattle.class_definition.specs.declared.entry.Entry.{Entry};
ghost use Rattle.class_definition.specs.PoolChecks.{pool};
ghost use Rattle.class_definition.specs.Tables.{table_slot};
ghost use Rattle.stackmap_table.specs.declared.reference_slots.ReferenceSlots.{ReferenceSlots};
ghost use Rattle.stackmap_table.specs.Shortest.{AreReferences};
ghost use Rattle.stackmap_pool.specs.Longer.{framed_pool, class_slot};

/// A pool of a class file is one with these entries too, if there are not too many: it has the name of the tables' attribute, and
/// names the types of references.
pub fn framed_pools_are_sound()
    ensures fits { (entries : List Entry) → pool.fits entries ≡ true
        → length (framed_pool entries) ≤ 65534 → pool.fits (framed_pool entries) ≡ true }
    ensures named { (entries : List Entry) → IsSome (table_slot (framed_pool entries)) }
    ensures references { (entries : List Entry) (slots : ReferenceSlots)
        → pool.fits entries ≡ true → length (framed_pool entries) ≤ 65534
        → slots.ints ≡ unwrap_or (class_slot (codes "[I") (framed_pool entries)) 0
        → slots.pages ≡ unwrap_or (class_slot (codes "[[I") (framed_pool entries)) 0
        → slots.text ≡ unwrap_or (class_slot (codes "java/lang/String") (framed_pool entries)) 0
        → AreReferences (framed_pool entries) slots }
{}
