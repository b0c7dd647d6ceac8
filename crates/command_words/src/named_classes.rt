ghost use Rattle.std.specs.Prelude.{◌≡◌};

use crate::named_class::NamedClass;
use std::marker::Model;

/// Classes that the words name, in order. A contract sees them as a list.
#[derive(Debug, Drop)]
pub struct NamedClasses {
    classes: Vec<NamedClass>,
}

impl Model for NamedClasses {
    ghost use Rattle.std.specs.Prelude.{List};
    ghost use Rattle.command_words.specs.declared.named_class.NamedClass as class;

    ghost Value = { List class.NamedClass };

    ghost view = { λ c. c.classes.items };
}

impl NamedClasses {
    pub(crate) fn new(classes: Vec<NamedClass>) -> NamedClasses
        ensures { result ≡ classes.items }
    {
        NamedClasses { classes }
    }

    /// The classes, in order.
    pub fn as_slice(&self) -> &[NamedClass]
        ensures { result.now ≡ self.now }
    {
        self.classes.as_slice()
    }
}
