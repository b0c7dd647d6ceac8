ghost use Rattle.std.specs.Prelude.{◌≡◌, length, IfOk};
ghost use Rattle.std.specs.Cmp.Lexicographic.{pointwise};
ghost use Rattle.std.specs.Hash as fed;
ghost use Rattle.std.specs.Cmp.Rules.{comparing};
ghost use Rattle.std.specs.Hash.{items_Alike};
ghost use Rattle.std.proofs.Common.{rules};

use std::alloc::Global;
use std::hash::{Hash, Hasher};
use std::marker::Model;

/// Values in order. It is a `Vec` that contracts see as the list of its values, whatever room it has.
#[derive(Drop)]
pub struct Sequence<T> {
    values: Vec<T, Global>,
}

impl<T> Model for Sequence<T> {
    ghost use Rattle.std.specs.Prelude.{List};

    ghost Value = { List T };

    ghost view = { λ s. s.values.items };
}

impl<T> Sequence<T> {
    /// The values of a `Vec`. It takes no memory.
    pub fn new(values: Vec<T, Global>) -> Sequence<T>
        ensures { result ≡ values.items }
    {
        Sequence { values }
    }

    /// The values, to be read.
    pub fn as_slice(&self) -> &[T]
        ensures { result.now ≡ self.now }
    {
        self.values.as_slice()
    }

    /// The `Vec` with these values. It takes no memory.
    pub fn into_vec(self) -> Vec<T, Global>
        ensures { result.items ≡ self }
    {
        self.values
    }
}

impl<T: PartialEq> PartialEq for Sequence<T> {
    ghost eq = { pointwise T.eq };

    ghost laws = { Prim.search (comparing, rules) };

    fn eq(&self, other: &Sequence<T>) -> bool {
        self.values == other.values
    }
}

impl<T: Eq> Eq for Sequence<T> {
    ghost laws = { Prim.search (comparing, rules) };
}

impl<T: Hash> Hash for Sequence<T> {
    ghost hash_input = { fed.slice T.hash_input };

    ghost respects_eq = { (items_Alike (record { fed = T.respects_eq })).fed };

    fn hash<H: Hasher>(&self, state: &mut H) {
        self.values.hash(state);
    }
}
