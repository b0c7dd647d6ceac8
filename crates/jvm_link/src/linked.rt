ghost use Rattle.std.specs.Prelude.{◌≡◌, Option, None, All};
ghost use Rattle.class_names.specs.Kept.{IsClass};
ghost use Rattle.class_definition.specs.LinkFault.{link_fault};
ghost use Rattle.class_definition.specs.Linking.{field_kinds, linked_methods, first_method};
ghost use Rattle.jvm_code.specs.Order.{IsInOrder};
ghost use Rattle.jvm_code.proofs.OrderUnique.{AllInOrder-prop};

use class_names::text_of;
use jvm_code::Class;
use jvm_definition::{Kind, LinkedMethod, Sequence};

/// Classes that link, and the program that they are.
#[derive(Drop)]
pub struct Linked {
    pub classes: Sequence<Class>,
    /// The types of all fields, class by class.
    pub fields: Sequence<Kind>,
    /// All methods, class by class.
    pub methods: Sequence<LinkedMethod>,
    /// The number of the method `run()V` of the first class.
    pub first: u32,
    pub ghost kept: { All IsClass classes },
    pub ghost faultless: { link_fault classes ≡ None },
    pub ghost fields_are: { fields ≡ field_kinds classes },
    pub ghost methods_are: { methods ≡ linked_methods classes },
    pub ghost first_is: { first ≡ first_method classes },
    pub ghost in_order: { All IsInOrder methods } by { AllInOrder-prop methods },
}

impl Linked {
    ghost use Rattle.std.specs.Prelude.{length, slice_get};
    ghost use Rattle.class_definition.specs.Linking.{program_of};

    /// A character of a text, by the number of its class, its slot and its place; None exactly if the text ends before. It takes
    /// no memory.
    pub fn character(&self, class: u16, slot: u16, i: u32) -> Option<u16>
        ensures { result ≡ slice_get ((program_of self.now.classes).characters class slot) i }
    {
        self.characters(class, slot).get(i as usize).copied()
    }

    /// The number of characters of a text, by the number of its class and its slot. It takes no memory.
    pub fn characters_len(&self, class: u16, slot: u16) -> u32
        ensures { result ≡ length ((program_of self.now.classes).characters class slot) }
    {
        self.characters(class, slot).len() as u32
    }

    fn characters(&self, class: u16, slot: u16) -> &[u16]
        ensures { result.now ≡ (program_of self.now.classes).characters class slot }
    {
        match self.classes.as_slice().get(class as usize) {
            Some(class) => text_of(class, slot),
            None => &[],
        }
    }
}
