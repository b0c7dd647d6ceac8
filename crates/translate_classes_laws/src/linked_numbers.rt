//! Where the fields and methods of classes are in the program that the classes are. Each call here does nothing: its contract is the law.

ghost use Rattle.std.specs.Prelude.{◌≡◌, ℕ, ◌+◌, ◌^◌, ◌≤◌, Bool, true, false, List, [], ◌∷◌, All, map, length, slice_get, Some, None};
ghost use Rattle.std.specs.List.{AllZip, IsDistinct};
ghost use Rattle.jvm_definition.specs.declared.linked_method.LinkedMethod.{LinkedMethod};
ghost use Rattle.class_definition.specs.NameGrammar.{same_text};
ghost use Rattle.class_definition.specs.declared.class.Class.{Class};
ghost use Rattle.class_definition.specs.declared.member.Member.{Member};
ghost use Rattle.class_definition.specs.declared.method.Method.{Method};
ghost use Rattle.class_definition.specs.MemberNames.{Signature, reference_to, own_name, is_known, known_methods, fields_of, methods_of, fields_named, methods_named, field_number, method_number};
ghost use Rattle.class_definition.specs.LinkFault.{no_field, no_method, has_equal, is_known_class, member_fault, run_signature, link_fault};
ghost use Rattle.class_definition.specs.Linking.{field_kind, linked_method, program_of};
ghost use Rattle.emit_classes.specs.Named.{IsClassAt};
ghost use Rattle.emit_classes.specs.Built.{IsNamed};
ghost use Rattle.translate_classes.specs.Making.{Plan, IsMade};
ghost use Rattle.translate_classes_laws.specs.Before.{fields_before, methods_before};
ghost use Rattle.translate_classes_laws.specs.Members.{EntriesName, SlotsMeanFields, SlotsMeanMethods, StandOnce};
ghost use Rattle.translate_classes_laws.specs.Places.{IsMethodOf};
ghost use Rattle.translate_classes_laws.specs.Distinct.{HasDistinctMembers};
ghost use Rattle.translate_classes_laws.specs.Planned.{planned, numbered};
ghost use Rattle.translate_classes_laws.specs.Translated.{class_names, fields_of_main, methods_of_main, methods_of_code, methods_of_data};

use emit_classes::{fields_are_meant, methods_are_meant};

/// A method of a class has the number of the methods before those of its class and of those before it in its class, and there the program
/// has it.
pub fn methods_have_numbers()
    ensures number { (classes : List Class) (n k : ℕ) (c : Class) (s : Signature)
        → StandOnce classes
        → slice_get classes n ≡ Some c → slice_get (methods_of c) k ≡ Some s
        → method_number classes (reference_to (own_name c) s)
        ≡ Some (methods_before classes n + k) }
    ensures linked { (classes : List Class) (n k : ℕ) (c : Class) (m : Method)
        → slice_get classes n ≡ Some c → slice_get c.methods k ≡ Some m
        → (program_of classes).method (methods_before classes n + k)
        ≡ Some (linked_method classes n c m) }
{}

/// Each method of the program is one of a class.
pub fn methods_are_of_classes()
    ensures { (classes : List Class) (number : ℕ) (m : LinkedMethod)
        → (program_of classes).method number ≡ Some m → IsMethodOf classes number m }
{}

/// A field of a class has the number of the fields before those of its class and of those before it in its class, and there the program
/// has its type.
pub fn fields_have_numbers()
    ensures number { (classes : List Class) (n k : ℕ) (c : Class) (s : Signature)
        → StandOnce classes
        → slice_get classes n ≡ Some c → slice_get (fields_of c) k ≡ Some s
        → field_number classes (reference_to (own_name c) s) ≡ Some (fields_before classes n + k) }
    ensures typed { (classes : List Class) (n k : ℕ) (c : Class) (f : Member)
        → slice_get classes n ≡ Some c → slice_get c.fields k ≡ Some f
        → (program_of classes).field (fields_before classes n + k) ≡ Some (field_kind c f) }
{}

/// The methods and fields of the first class have their numbers in that class. If no other class has fields, these are all.
pub fn members_of_the_first_class_have_numbers()
    ensures method { (c : Class) (others : List Class) (k : ℕ) (s : Signature)
        → StandOnce (c ∷ others) → slice_get (methods_of c) k ≡ Some s
        → method_number (c ∷ others) (reference_to (own_name c) s) ≡ Some k }
    ensures field { (c : Class) (others : List Class) (k : ℕ) (s : Signature)
        → StandOnce (c ∷ others) → slice_get (fields_of c) k ≡ Some s
        → field_number (c ∷ others) (reference_to (own_name c) s) ≡ Some k }
    ensures all { (c : Class) (others : List Class) (k : ℕ)
        → All (λ (d : Class). d.fields ≡ []) others
        → (program_of (c ∷ others)).field k ≡ slice_get (map (field_kind c) c.fields) k }
{
    methods_have_numbers();
    fields_have_numbers();
}

/// Before the methods of the first class are none, and before those of the next class those of one class more.
pub fn methods_are_counted()
    ensures first { (classes : List Class) → methods_before classes 0 ≡ 0 }
    ensures next { (classes : List Class) (n : ℕ) (c : Class)
        → slice_get classes n ≡ Some c
        → methods_before classes (n + 1) ≡ methods_before classes n + length c.methods }
{}

/// A class that is made has the name that it was to have, and its members have the names and descriptors that they were to have.
pub fn members_are_as_planned()
    ensures class { (c : Class) (name : List ℕ)
        → IsClassAt c.pool c.this_class name
        → own_name c ≡ name }
    ensures methods { (c : Class) (plans : List Plan)
        → AllZip (IsMade c.pool) c.methods plans
        → methods_of c ≡ map planned plans }
    ensures fields { (c : Class) (name descriptor : ℕ → List ℕ) (numbers : List ℕ)
        → AllZip (λ (f : Member) k. IsNamed c.pool f (name k) (descriptor k)) c.fields numbers
        → fields_of c ≡ map (numbered name descriptor) numbers }
{}

/// The classes of a translation have different names. None of them is the name of a known class if that of the main class is not.
pub fn names_of_classes_differ()
    ensures distinct { (main : List ℕ) (code_classes data_classes : ℕ)
        → code_classes ≤ 2 ^ 64 → data_classes ≤ 2 ^ 64
        → IsDistinct same_text (class_names main code_classes data_classes) }
    ensures unknown { (main : List ℕ) (code_classes data_classes : ℕ)
        → is_known main ≡ false
        → All (λ name. is_known name ≡ false) (class_names main code_classes data_classes) }
{}

/// The members of each class of a translation are different.
pub fn members_of_classes_differ()
    ensures main_fields { (metered : Bool) → has_equal (fields_of_main metered) ≡ false }
    ensures main_methods { has_equal methods_of_main ≡ false }
    ensures code { (spans : ℕ) → spans ≤ 2 ^ 64 → has_equal (methods_of_code spans) ≡ false }
    ensures data { has_equal methods_of_data ≡ false }
{}

/// No name is twice in classes with different names that are not known ones, each with different members.
pub fn nothing_stands_twice()
    ensures { (classes : List Class)
        → IsDistinct same_text (map own_name classes)
        → All (λ name. is_known name ≡ false) (map own_name classes)
        → All HasDistinctMembers classes
        → StandOnce classes }
{}

/// So it is with classes that have the names of a translation.
pub fn nothing_stands_twice_in_a_translation()
    ensures { (main : List ℕ) (code_classes data_classes : ℕ) (classes : List Class)
        → code_classes ≤ 2 ^ 64 → data_classes ≤ 2 ^ 64 → is_known main ≡ false
        → map own_name classes ≡ class_names main code_classes data_classes
        → All HasDistinctMembers classes
        → StandOnce classes }
{
    names_of_classes_differ();
    nothing_stands_twice();
}

/// An instruction with the slot of a member of a class means the member of the number that this has.
pub fn members_are_meant()
    ensures fields { SlotsMeanFields }
    ensures methods { SlotsMeanMethods }
{
    fields_are_meant();
    methods_are_meant();
    fields_have_numbers();
    methods_have_numbers();
}

/// The names of a class and of its members find these. A known class has the methods that are known of it.
pub fn names_find_what_they_name()
    ensures class { (classes : List Class) (n : ℕ) (c : Class)
        → slice_get classes n ≡ Some c
        → is_known_class classes (own_name c) ≡ true }
    ensures field { (classes : List Class) (n k : ℕ) (c : Class) (s : Signature)
        → StandOnce classes
        → slice_get classes n ≡ Some c → slice_get (fields_of c) k ≡ Some s
        → member_fault no_field (fields_named classes (own_name c)) s ≡ None }
    ensures method { (classes : List Class) (n k : ℕ) (c : Class) (s : Signature)
        → StandOnce classes
        → slice_get classes n ≡ Some c → slice_get (methods_of c) k ≡ Some s
        → member_fault no_method (methods_named classes (own_name c)) s ≡ None }
    ensures known { (classes : List Class) (name : List ℕ)
        → StandOnce classes → is_known name ≡ true
        → methods_named classes name ≡ known_methods name }
{}

/// Classes link if they are few, nothing is twice in them, each entry of their pools names what is there, and the first class has a
/// method `run`. With this the program begins.
pub fn classes_link()
    ensures links { (c : Class) (others : List Class) (k : ℕ)
        → length (c ∷ others) ≤ 1024 → StandOnce (c ∷ others) → EntriesName (c ∷ others)
        → slice_get (methods_of c) k ≡ Some run_signature
        → link_fault (c ∷ others) ≡ None }
    ensures first { (c : Class) (others : List Class) (k : ℕ)
        → StandOnce (c ∷ others) → slice_get (methods_of c) k ≡ Some run_signature
        → (program_of (c ∷ others)).first ≡ k }
{
    members_of_the_first_class_have_numbers();
}
