ghost use Rattle.class_names.specs.Kept.{IsClass};

use crate::key::Key;
use crate::link_error::NoMemory;
use constant_pool::{Entry, entry_of};
use jvm_code::Class;
use jvm_definition::Sequence;

/// A class, and the number of the text in each slot of its pool.
#[derive(Drop)]
pub struct NumberedClass<'a> {
    pub class: &'a Class,
    pub numbers: Sequence<usize>,
    pub ghost kept: { IsClass class.now },
}

impl NumberedClass<'_> {
    ghost use Rattle.std.specs.Prelude.{◌≡◌, ◌++◌, OnOk};
    ghost use Rattle.class_definition.specs.PoolChecks.{entry_at};
    ghost use Rattle.class_names.specs.Numbers.{number_at};
    ghost use Rattle.class_names.specs.Keys.{class_number_at, pair_numbers, own_number, key_at, own_key, field_keys, method_keys};

    /// The number of the text in a slot.
    pub fn number(&self, slot: u16) -> usize
        ensures { result ≡ number_at self.now.numbers slot }
    {
        if slot == 0 {
            return 0;
        }
        match self.numbers.as_slice().get(slot as usize - 1) {
            Some(number) => *number,
            None => 0,
        }
    }

    /// The number of the name of the class in a slot.
    pub fn class_number(&self, slot: u16) -> usize
        ensures { result ≡ class_number_at self.now slot }
    {
        match entry_of(self.class.pool.as_slice(), slot) {
            Some(Entry::ClassName(name)) => self.number(*name),
            _ => 0,
        }
    }

    /// The number of its own name.
    pub fn own_number(&self) -> usize
        ensures { result ≡ own_number self.now }
    {
        self.class_number(self.class.this_class)
    }

    /// The key of a member of a class, by the slots of the class and of the name and descriptor.
    pub fn key(&self, class: u16, name: u16) -> Key
        ensures { result ≡ key_at self.now class name }
    {
        let (name, descriptor) = self.pair(name);
        Key {
            class: self.class_number(class),
            name,
            descriptor,
        }
    }

    // The numbers of the name and descriptor in a slot.
    fn pair(&self, slot: u16) -> (usize, usize)
        ensures { result ≡ pair_numbers (number_at self.now.numbers)
            (entry_at self.now.class.now.pool slot) }
    {
        match entry_of(self.class.pool.as_slice(), slot) {
            Some(Entry::NameAnd(name, descriptor)) => {
                (self.number(*name), self.number(*descriptor))
            }
            _ => (0, 0),
        }
    }

    /// The key of a member of the class itself, by the slots of its name and descriptor.
    pub fn own_key(&self, name: u16, descriptor: u16) -> Key
        ensures { result ≡ own_key self.now name descriptor }
    {
        Key {
            class: self.own_number(),
            name: self.number(name),
            descriptor: self.number(descriptor),
        }
    }

    /// Adds the keys of its fields.
    pub fn push_field_keys(&self, keys: &mut Vec<Key>) -> Result<(), NoMemory>
        ensures { OnOk result (keys.new.items ≡ keys.old.items ++ field_keys self.now) }
    {
        for field in self.class.fields.as_slice() {
            keys.push(self.own_key(field.name, field.desc))?;
        }
        Ok(())
    }

    /// Adds the keys of its methods.
    pub fn push_method_keys(&self, keys: &mut Vec<Key>) -> Result<(), NoMemory>
        ensures { OnOk result (keys.new.items ≡ keys.old.items ++ method_keys self.now) }
    {
        for method in self.class.methods.as_slice() {
            keys.push(self.own_key(method.name, method.desc))?;
        }
        Ok(())
    }
}
