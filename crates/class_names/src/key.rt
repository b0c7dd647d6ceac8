ghost use Rattle.std.specs.Prelude.{◌++◌, nat_eq};
ghost use Rattle.std.specs.Hash as fed;
ghost use Rattle.std.specs.Ordering.{on, eq_of_both};
ghost use Rattle.std.specs.Cmp.Rules.{comparing, hashing};
ghost use Rattle.std.proofs.Common.{rules};

use std::hash::{Hash, Hasher};

/// What names a field or method: the numbers of its class's name, of its name and of its descriptor.
#[derive(Clone, Copy)]
pub struct Key {
    pub class: usize,
    pub name: usize,
    pub descriptor: usize,
}

impl PartialEq for Key {
    ghost eq = { eq_of_both (on (λ k. k.class) nat_eq)
        (eq_of_both (on (λ k. k.name) nat_eq) (on (λ k. k.descriptor) nat_eq)) };

    ghost laws = { Prim.search (comparing, rules) };

    fn eq(&self, other: &Key) -> bool {
        self.class == other.class && self.name == other.name && self.descriptor == other.descriptor
    }
}

impl Eq for Key {
    ghost laws = { Prim.search (comparing, rules) };
}

impl Hash for Key {
    ghost hash_input = { λ k. fed.usize k.class ++ fed.usize k.name ++ fed.usize k.descriptor };

    ghost respects_eq = { Prim.search (hashing, rules) };

    fn hash<H: Hasher>(&self, state: &mut H) {
        self.class.hash(state);
        self.name.hash(state);
        self.descriptor.hash(state);
    }
}
