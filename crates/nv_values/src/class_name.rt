ghost use Rattle.std.specs.Prelude.{◌≡◌, string_bytes};
ghost use Rattle.nv_values.specs.Names.{IsClassName, is_class_name, lawful_name};

use crate::characters::{all_letters_or_digits, is_letter};
use std::marker::Model;

/// A name of a class: a letter, then letters and digits, in ASCII, 64 at most. A contract sees it as its bytes.
#[derive(Debug, Drop)]
pub struct ClassName {
    text: String,
}

impl Model for ClassName {
    ghost use Rattle.std.specs.Prelude.{List, ℕ, string_bytes};
    ghost use Rattle.nv_values.specs.Names.{IsClassName};

    ghost Value = { List ℕ };

    ghost view = { λ n. string_bytes n.text };

    ghost invariant = { λ n. IsClassName (string_bytes n.text) };
}

impl ClassName {
    /// The text as a name, None where it is none.
    pub fn new(text: String) -> Option<ClassName>
        ensures { result ≡ lawful_name (string_bytes text) }
    {
        if is_class_name(text.as_bytes()) {
            Some(ClassName { text })
        } else {
            None
        }
    }

    /// Does nothing: it tells that the text is a name of a class.
    pub fn laws(&self)
        ensures { IsClassName self.now }
    {
        let _ = &self.text;
    }

    /// The text.
    pub fn as_str(&self) -> &str
        ensures value { result.now ≡ self.now }
        ensures lawful { IsClassName self.now }
    {
        self.text.as_str()
    }
}

fn is_class_name(text: &[u8]) -> bool
    ensures { result ≡ is_class_name text.now }
{
    match text.split_first() {
        Some((first, rest)) => is_letter(*first) && all_letters_or_digits(rest) && rest.len() < 64,
        None => false,
    }
}
