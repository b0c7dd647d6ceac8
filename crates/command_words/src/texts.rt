ghost use Rattle.std.specs.Prelude.{◌≡◌, map, string_bytes};

use std::marker::Model;

/// Texts that the words give, in order. A contract sees them as the list of their bytes.
#[derive(Debug, Drop)]
pub struct Texts {
    texts: Vec<String>,
}

impl Model for Texts {
    ghost use Rattle.std.specs.Prelude.{List, ℕ, map, string_bytes};

    ghost Value = { List (List ℕ) };

    ghost view = { λ t. map string_bytes t.texts.items };
}

impl Texts {
    pub(crate) fn new(texts: Vec<String>) -> Texts
        ensures { result ≡ map string_bytes texts.items }
    {
        Texts { texts }
    }

    /// The texts, in order.
    pub fn as_slice(&self) -> &[String]
        ensures { map string_bytes result.now ≡ self.now }
    {
        self.texts.as_slice()
    }
}
