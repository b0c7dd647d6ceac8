ghost use Rattle.std.specs.Prelude.{◌++◌, nat_eq};
ghost use Rattle.std.specs.Hash as fed;
ghost use Rattle.std.specs.Ordering.{on, eq_of_both};
ghost use Rattle.std.specs.Cmp.Rules.{comparing, hashing};
ghost use Rattle.std.proofs.Common.{rules};

use std::hash::{Hash, Hasher};

/// A text that is not empty: its first byte, and the number of the rest.
#[derive(Clone, Copy)]
pub struct Letter {
    pub byte: u8,
    pub rest: usize,
}

impl PartialEq for Letter {
    ghost eq = { eq_of_both (on (λ l. l.byte) nat_eq) (on (λ l. l.rest) nat_eq) };

    ghost laws = { Prim.search (comparing, rules) };

    fn eq(&self, other: &Letter) -> bool {
        self.byte == other.byte && self.rest == other.rest
    }
}

impl Eq for Letter {
    ghost laws = { Prim.search (comparing, rules) };
}

impl Hash for Letter {
    ghost hash_input = { λ l. fed.u8 l.byte ++ fed.usize l.rest };

    ghost respects_eq = { Prim.search (hashing, rules) };

    fn hash<H: Hasher>(&self, state: &mut H) {
        self.byte.hash(state);
        self.rest.hash(state);
    }
}
