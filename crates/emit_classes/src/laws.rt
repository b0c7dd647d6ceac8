//! What the slots of a class that was made mean to the instructions of its methods, once it is linked, and what its pool names. Each call
//! here does nothing: its contract is the law.
ghost use Rattle.std.specs.Prelude.{◌≡◌, ℕ, Bool, true, List, Some, codes, flat_map, option_and_then, option_to_list};
ghost use Rattle.std.specs.List.{list_all};
ghost use Rattle.class_definition.specs.declared.entry.Entry.{Entry};
ghost use Rattle.class_definition.specs.NameGrammar.{same_text};
ghost use Rattle.class_definition.specs.PoolEntries.{class_entry_name};
ghost use Rattle.class_definition.specs.PoolChecks.{text_at};
ghost use Rattle.constant_pool.specs.Slots.{IsAt};
ghost use Rattle.class_definition.specs.declared.class.Class.{Class};
ghost use Rattle.class_definition.specs.declared.pool_name.PoolName.TheVariants as names;
ghost use Rattle.jvm_definition.specs.declared.array_kind.ArrayKind.TheVariants.{Pages};
ghost use Rattle.jvm_definition.specs.declared.instruction.Instruction.TheVariants as instructions;
ghost use Rattle.class_definition.specs.MemberNames.{signature, reference_to, string_name, host_name, field_number};
ghost use Rattle.class_definition.specs.Linking.{descriptor_kind, pool_instruction};
ghost use Rattle.emit_assembly.specs.Assembling.{Extends};
ghost use Rattle.emit_classes.specs.Named.{IsClassAt, IsFieldAt, IsMethodAt};
ghost use Rattle.emit_classes.specs.Sound.{IsPool};
ghost use Rattle.emit_classes.specs.Laws.{MethodsAreMeant};
ghost use Rattle.emit_classes.specs.Mentioned.{Mention, Mentions, classes_among, mentions_in, once};

/// `getstatic` and `putstatic` with the slot of a field, in a class whose pool goes on after the one in which the slot was taken.
pub fn fields_are_meant()
    ensures get { (classes : List Class) (number : ℕ) (c : Class) (pool : List Entry)
        (slot class n : ℕ) (owner name descriptor : List ℕ) → Extends pool c.pool
        → IsClassAt pool class owner → IsFieldAt pool slot class name descriptor
        → field_number classes (reference_to owner (signature name descriptor)) ≡ Some n
        → pool_instruction classes number c names.Getstatic slot
        ≡ instructions.Get n (descriptor_kind descriptor) }
    ensures put { (classes : List Class) (number : ℕ) (c : Class) (pool : List Entry)
        (slot class n : ℕ) (owner name descriptor : List ℕ) → Extends pool c.pool
        → IsClassAt pool class owner → IsFieldAt pool slot class name descriptor
        → field_number classes (reference_to owner (signature name descriptor)) ≡ Some n
        → pool_instruction classes number c names.Putstatic slot
        ≡ instructions.Put n (descriptor_kind descriptor) }
{}

/// `invokestatic` with the slot of a method of the classes.
pub fn methods_are_meant()
    ensures { MethodsAreMeant }
{}

/// `invokestatic` with the slot of a method of the host.
pub fn host_is_meant()
    ensures call { (classes : List Class) (number : ℕ) (c : Class) (pool : List Entry)
        (slot class : ℕ) → Extends pool c.pool → IsClassAt pool class host_name
        → IsMethodAt pool slot class (codes "call") (codes "([[I[[IIIIII)I")
        → pool_instruction classes number c names.Invokestatic slot ≡ instructions.CallHost }
    ensures fault { (classes : List Class) (number : ℕ) (c : Class) (pool : List Entry)
        (slot class : ℕ) → Extends pool c.pool → IsClassAt pool class host_name
        → IsMethodAt pool slot class (codes "fault") (codes "(III)V")
        → pool_instruction classes number c names.Invokestatic slot ≡ instructions.FaultHost }
{}

/// `invokevirtual` with the slot of a method of strings.
pub fn strings_are_meant()
    ensures length { (classes : List Class) (number : ℕ) (c : Class) (pool : List Entry)
        (slot class : ℕ) → Extends pool c.pool → IsClassAt pool class string_name
        → IsMethodAt pool slot class (codes "length") (codes "()I")
        → pool_instruction classes number c names.Invokevirtual slot ≡ instructions.Length }
    ensures char_at { (classes : List Class) (number : ℕ) (c : Class) (pool : List Entry)
        (slot class : ℕ) → Extends pool c.pool → IsClassAt pool class string_name
        → IsMethodAt pool slot class (codes "charAt") (codes "(I)C")
        → pool_instruction classes number c names.Invokevirtual slot ≡ instructions.CharAt }
{}

/// `anewarray` with the slot of `[I`.
pub fn arrays_are_meant()
    ensures { (classes : List Class) (number : ℕ) (c : Class) (pool : List Entry) (slot : ℕ)
        → Extends pool c.pool → IsClassAt pool slot (codes "[I")
        → pool_instruction classes number c names.Anewarray slot ≡ instructions.NewArray Pages }
{}

/// If all that a pool names passes a test, so does what each of its entries names.
pub fn entries_pass()
    ensures { (pool : List Entry) (names : List Mention) (test : Mention → Bool) (slot : ℕ)
        (e : Entry) → Mentions pool names → list_all test names ≡ true → IsAt pool slot e
        → list_all test (mentions_in pool e) ≡ true }
{}

/// The classes that the entries of a pool ask for, each where it is first, are those among what the pool names.
pub fn classes_are_asked_for()
    ensures { (pool : List Entry) (names : List Mention) → IsPool pool → Mentions pool names
        → once same_text
        (flat_map (λ e. option_to_list (option_and_then (text_at pool) (class_entry_name e))) pool)
        ≡ once same_text (classes_among names) }
{}
