ghost use Rattle.std.specs.Prelude.{◌≡◌, ◌<◌, ◌^◌, length, position, IfOk};
ghost use Rattle.std.specs.List.{list_any};
ghost use Rattle.class_names.specs.Keys.{same_key, same_name, key_fault};
ghost use Rattle.class_names.specs.MemberMap.{IsMemberMap};

use crate::key::Key;
use crate::link_error::NoMemory;
use class_definition::LinkFault;
use indexmap::IndexMap;
use std::alloc::Global;
use std::marker::Model;

/// The fields or the methods of all classes, which are found by their keys. A contract sees the list of their keys.
#[derive(Drop)]
pub struct Members {
    keys: Vec<Key>,
    numbers: IndexMap<Key, u32>,
}

impl Model for Members {
    ghost use Rattle.std.specs.Prelude.{List};
    ghost use Rattle.class_names.specs.declared.key.Key.{Key};
    ghost use Rattle.class_names.specs.MemberMap.{IsMemberMap};

    ghost Value = { List Key };

    ghost view = { λ m. m.keys.items };

    ghost invariant = { λ m. IsMemberMap m.keys.items m.numbers.entries };
}

impl Members {
    /// Members by their keys.
    pub fn new(alloc: Global, keys: Vec<Key>) -> Result<Members, NoMemory>
        requires { length keys.items < 2 ^ 32 }
        ensures { IfOk result (λ members. members ≡ keys.items) }
    {
        let numbers = numbers_of(alloc, keys.as_slice())?;
        Ok(Members { keys, numbers })
    }

    /// The number of the first member with a key.
    pub fn number(&self, key: &Key) -> Option<u32>
        ensures { result ≡ position (same_key key.now) self.now }
    {
        self.numbers.get(key).copied()
    }

    /// What is wrong with a reference by a key: no such member, where `missing` is the kind of fault of which there is none of the
    /// name.
    pub fn fault(&self, missing: u32, key: &Key) -> Option<u32>
        ensures { result ≡ key_fault missing self.now key.now }
    {
        if self.has(key) {
            None
        } else if self.has_name(key) {
            Some(LinkFault::OTHER_DESCRIPTORS)
        } else {
            Some(missing)
        }
    }

    fn has(&self, key: &Key) -> bool
        ensures { result ≡ list_any (same_key key.now) self.now }
    {
        self.numbers.contains_key(key)
    }

    // Whether a member has a key but for the descriptor. It looks at each one, which is done once, at the first fault.
    fn has_name(&self, key: &Key) -> bool
        ensures { result ≡ list_any (same_name key.now) self.now }
    {
        self.keys
            .iter()
            .any(|other| key.class == other.class && key.name == other.name)
    }
}

fn numbers_of(alloc: Global, keys: &[Key]) -> Result<IndexMap<Key, u32>, NoMemory>
    requires { length keys.now < 2 ^ 32 }
    ensures { IfOk result (λ numbers. IsMemberMap keys.now numbers.entries) }
{
    let mut numbers = IndexMap::new(alloc);
    for (i, key) in keys.iter().enumerate() {
        if !numbers.contains_key(key) {
            numbers.insert(*key, i as u32)?;
        }
    }
    Ok(numbers)
}
