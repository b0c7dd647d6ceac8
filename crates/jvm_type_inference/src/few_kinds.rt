ghost use Rattle.std.specs.Prelude.{◌≡◌, ◌<◌, ◌++◌, ◌∷◌, [], true, length, MatchOption};

use jvm_definition::Kind;
use std::marker::Model;

/// The greatest number of types.
pub const ROOM: usize = 30;

/// At most 30 types in order, which cost no memory.
#[derive(Drop)]
pub struct FewKinds {
    kinds: [Kind; ROOM],
    count: u8,
}

impl Model for FewKinds {
    ghost use Rattle.std.specs.Prelude.{List, ◌≤◌, take};
    ghost use Rattle.jvm_definition.specs.declared.kind.Kind.{Kind};

    ghost Value = { List Kind };

    ghost view = { λ k. take k.count k.kinds };

    ghost invariant = { λ k. k.count ≤ 30 };
}

impl FewKinds {
    #[inline(always)]
    pub fn new() -> FewKinds
        ensures { result ≡ [] }
    {
        FewKinds {
            kinds: [Kind::Top; ROOM],
            count: 0,
        }
    }

    /// The same types once more.
    #[inline(always)]
    pub fn copied(&self) -> FewKinds
        ensures { result ≡ self.now }
    {
        FewKinds {
            kinds: self.kinds,
            count: self.count,
        }
    }

    /// The types, to be read.
    #[inline(always)]
    pub fn as_slice(&self) -> &[Kind]
        ensures { result.now ≡ self.now }
    {
        &self.kinds[..usize::from(self.count)]
    }

    /// Whether there is room for one more.
    #[inline(always)]
    pub fn has_room(&self) -> bool
        ensures { result ≡ true → length self.now < 30 }
    {
        usize::from(self.count) < ROOM
    }

    /// Adds a type after the others.
    #[inline(always)]
    pub fn push(&mut self, kind: Kind)
        requires { length self.old < 30 }
        ensures { self.new ≡ self.old ++ kind ∷ [] }
    {
        self.kinds[usize::from(self.count)] = kind;
        self.count += 1;
    }

    /// Takes the last type, where there is one.
    #[inline(always)]
    pub fn pop(&mut self) -> Option<Kind>
        ensures { MatchOption result ((self.old ≡ []) × (self.new ≡ []))
            (λ k. self.old ≡ self.new ++ k ∷ []) }
    {
        if self.count == 0 {
            return None;
        }
        self.count -= 1;
        Some(self.kinds[usize::from(self.count)])
    }
}
