ghost use Rattle.std.specs.Prelude.{◌≡◌, ◌++◌, nat_eq};
ghost use Rattle.std.specs.Hash as fed;
ghost use Rattle.std.specs.Cmp.Lexicographic.{pointwise};
ghost use Rattle.std.specs.Ordering.{on, eq_of_both, int_eq};
ghost use Rattle.std.specs.Cmp.Rules.{comparing, hashing};
ghost use Rattle.std.proofs.Common.{rules};
ghost use Rattle.class_definition.specs.EntryParts.{tag_of, text_part, number_part, first_part, second_part};

use jvm_definition::Sequence;
use std::hash::{Hash, Hasher};

/// What is in a slot of a constant pool (JVM Specification, 4.4). Slots are counted from 1.
#[derive(Drop)]
pub enum Entry {
    /// `CONSTANT_Utf8`: a text of 16-bit characters.
    Utf8(Sequence<u16>),
    /// `CONSTANT_Integer`.
    Integer(i32),
    /// `CONSTANT_Long`, which takes two slots.
    Long(i64),
    /// The second slot of a Long.
    LongRest,
    /// `CONSTANT_Class`: the slot of its name.
    ClassName(u16),
    /// `CONSTANT_String`: the slot of its text.
    Text(u16),
    /// `CONSTANT_Fieldref`: the slots of a class, and of a name and descriptor.
    FieldRef(u16, u16),
    /// `CONSTANT_Methodref`: the slots of a class, and of a name and descriptor.
    MethodRef(u16, u16),
    /// `CONSTANT_NameAndType`: the slots of a name and of a descriptor.
    NameAnd(u16, u16),
}

// Entries are the same where all their parts are: what an entry does not have is the same in all such entries.
impl Entry {
    fn tag(&self) -> u8
        ensures { result ≡ tag_of self.now }
    {
        match self {
            Entry::Utf8(_) => 1,
            Entry::Integer(_) => 3,
            Entry::Long(_) => 5,
            Entry::LongRest => 0,
            Entry::ClassName(_) => 7,
            Entry::Text(_) => 8,
            Entry::FieldRef(_, _) => 9,
            Entry::MethodRef(_, _) => 10,
            Entry::NameAnd(_, _) => 12,
        }
    }

    fn text_part(&self) -> &[u16]
        ensures { result.now ≡ text_part self.now }
    {
        match self {
            Entry::Utf8(text) => text.as_slice(),
            _ => &[],
        }
    }

    fn number_part(&self) -> i64
        ensures { result ≡ number_part self.now }
    {
        match self {
            Entry::Integer(n) => i64::from(*n),
            Entry::Long(n) => *n,
            _ => 0,
        }
    }

    fn first_part(&self) -> u16
        ensures { result ≡ first_part self.now }
    {
        match self {
            Entry::ClassName(slot) | Entry::Text(slot) => *slot,
            Entry::FieldRef(class, _) | Entry::MethodRef(class, _) => *class,
            Entry::NameAnd(name, _) => *name,
            _ => 0,
        }
    }

    fn second_part(&self) -> u16
        ensures { result ≡ second_part self.now }
    {
        match self {
            Entry::FieldRef(_, name) | Entry::MethodRef(_, name) => *name,
            Entry::NameAnd(_, descriptor) => *descriptor,
            _ => 0,
        }
    }
}

impl PartialEq for Entry {
    ghost eq = { eq_of_both (on tag_of nat_eq)
        (eq_of_both (on text_part (pointwise nat_eq))
        (eq_of_both (on number_part int_eq)
        (eq_of_both (on first_part nat_eq) (on second_part nat_eq)))) };

    ghost laws = { Prim.search (comparing, rules) };

    fn eq(&self, other: &Entry) -> bool {
        self.tag() == other.tag()
            && self.text_part() == other.text_part()
            && self.number_part() == other.number_part()
            && self.first_part() == other.first_part()
            && self.second_part() == other.second_part()
    }
}

impl Eq for Entry {
    ghost laws = { Prim.search (comparing, rules) };
}

impl Hash for Entry {
    ghost hash_input = { λ e. fed.slice fed.u16 (text_part e) ++ fed.i64 (number_part e)
        ++ fed.u16 (first_part e) ++ fed.u16 (second_part e) };

    ghost respects_eq = { Prim.search (hashing, rules) };

    fn hash<H: Hasher>(&self, state: &mut H) {
        self.text_part().hash(state);
        self.number_part().hash(state);
        self.first_part().hash(state);
        self.second_part().hash(state);
    }
}
