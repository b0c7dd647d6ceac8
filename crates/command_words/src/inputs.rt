ghost use Rattle.std.specs.Prelude.{◌≡◌};

use crate::named::Named;
use std::marker::Model;

/// Files that the words name, in order. A contract sees them as a list.
#[derive(Debug, Drop)]
pub struct Inputs {
    inputs: Vec<Named>,
}

impl Model for Inputs {
    ghost use Rattle.std.specs.Prelude.{List};
    ghost use Rattle.command_words.specs.declared.named.Named as name;

    ghost Value = { List name.Named };

    ghost view = { λ i. i.inputs.items };
}

impl Inputs {
    pub(crate) fn new(inputs: Vec<Named>) -> Inputs
        ensures { result ≡ inputs.items }
    {
        Inputs { inputs }
    }

    /// The files, in order.
    pub fn as_slice(&self) -> &[Named]
        ensures { result.now ≡ self.now }
    {
        self.inputs.as_slice()
    }
}
