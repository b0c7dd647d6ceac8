//! Names as tables for code.
ghost use Rattle.std.specs.Prelude.{◌≡◌};
ghost use Rattle.translate_classes.specs.Tables.{references_of};

use crate::names::Names;
use emit_assembly::References;
use jvm_definition::Sequence;

impl Names {
    /// All of them, with the slots of methods whose numbers in the program follow each other from a first one on.
    pub fn with_methods(self, first_method: u32, methods: Vec<u16>) -> References
        ensures { result ≡ references_of self first_method methods.items }
    {
        References {
            fields: Sequence::new(self.fields),
            first_method,
            methods: Sequence::new(methods),
            host_call: self.host.first,
            host_fault: self.host.second,
            string_length: self.strings.first,
            string_char_at: self.strings.second,
            ints_class: self.ints,
        }
    }
}
