ghost use Rattle.std.specs.Prelude.{◌≡◌, ◌≤◌, ◌*◌, ℕ, map, length, None, [], IfOk, nat_eq};
ghost use Rattle.std.specs.List.{list_any, flat_map};
ghost use Rattle.std.proofs.Props.{props};
ghost use Rattle.class_definition.specs.LinkFault.{twice_fault};
ghost use Rattle.class_names.specs.Keys.{classes_in, own_number, field_keys, method_keys, Knows};

use crate::key::Key;
use crate::link_error::NoMemory;
use crate::members::Members;
use crate::numbered::Numbered;
use crate::numbered_class::NumberedClass;
use indexmap::IndexSet;
use std::alloc::Global;

/// What the names in classes mean: their classes, fields and methods, which are found by numbers.
#[derive(Drop)]
pub struct Names<'a> {
    pub numbered: Numbered<'a>,
    /// The numbers of the names of all classes.
    pub class_names: IndexSet<usize>,
    pub fields: Members,
    pub methods: Members,
    pub ghost knows: { Knows numbered.texts.keys class_names.keys fields methods
        (classes_in numbered.classes.items) },
}

impl<'a> Names<'a> {
    /// The names of at most 1,024 classes of which none is twice.
    pub fn new(alloc: Global, numbered: Numbered<'a>) -> Result<Names<'a>, NoMemory>
        requires few { length numbered.classes.items ≤ 1024 }
        requires once { twice_fault [] 0 (classes_in numbered.classes.items) ≡ None }
        ensures { IfOk result (λ names. names.numbered ≡ numbered.entry) }
    {
        let found = found_in(alloc, numbered.classes.as_slice())?;
        Ok(Names {
            numbered,
            class_names: found.class_names,
            fields: found.fields,
            methods: found.methods,
        })
    }

    ghost use Rattle.class_definition.specs.MemberNames.{class_name_at, signature_at, reference_to, field_number, method_number};
    ghost use Rattle.class_names.specs.Keys.{IsNumbered};

    /// The number of the field that a class refers to, by the slots of its class and of its name and descriptor.
    pub fn field_number(&self, class: &NumberedClass, owner: u16, name: u16) -> Option<u32>
        requires { IsNumbered self.now.numbered.texts.keys class.now }
        ensures { result ≡ field_number (classes_in self.now.numbered.classes.items)
            (reference_to (class_name_at class.now.class.now owner)
            (signature_at class.now.class.now name)) }
    {
        self.fields.number(&class.key(owner, name))
    }

    /// The number of the method that a class refers to, likewise.
    pub fn method_number(&self, class: &NumberedClass, owner: u16, name: u16) -> Option<u32>
        requires { IsNumbered self.now.numbered.texts.keys class.now }
        ensures { result ≡ method_number (classes_in self.now.numbered.classes.items)
            (reference_to (class_name_at class.now.class.now owner)
            (signature_at class.now.class.now name)) }
    {
        self.methods.number(&class.key(owner, name))
    }
}

/// What is found by numbers in classes.
#[derive(Drop)]
struct Found {
    class_names: IndexSet<usize>,
    fields: Members,
    methods: Members,
}

fn found_in(alloc: Global, classes: &[NumberedClass]) -> Result<Found, NoMemory>
    requires { length classes.now ≤ 1024 }
    ensures names { IfOk result (λ found. (n : ℕ) → list_any (nat_eq n) found.class_names.keys
        ≡ list_any (nat_eq n) (map own_number classes.now)) }
    ensures fields { IfOk result (λ found. found.fields ≡ flat_map field_keys classes.now) }
    ensures methods { IfOk result (λ found. found.methods ≡ flat_map method_keys classes.now) }
{
    let class_names = class_names_of(alloc, classes)?;
    let fields = fields_of(alloc, classes)?;
    let methods = methods_of(alloc, classes)?;
    Ok(Found {
        class_names,
        fields,
        methods,
    })
}

fn fields_of(alloc: Global, classes: &[NumberedClass]) -> Result<Members, NoMemory>
    requires { length classes.now ≤ 1024 }
    ensures { IfOk result (λ fields. fields ≡ flat_map field_keys classes.now) }
{
    let keys = field_keys_of(alloc, classes)?;
    Members::new(alloc, keys)
}

fn methods_of(alloc: Global, classes: &[NumberedClass]) -> Result<Members, NoMemory>
    requires { length classes.now ≤ 1024 }
    ensures { IfOk result (λ methods. methods ≡ flat_map method_keys classes.now) }
{
    let keys = method_keys_of(alloc, classes)?;
    Members::new(alloc, keys)
}

fn class_names_of(alloc: Global, classes: &[NumberedClass]) -> Result<IndexSet<usize>, NoMemory>
    ensures { IfOk result (λ names. (n : ℕ) → list_any (nat_eq n) names.keys
        ≡ list_any (nat_eq n) (map own_number classes.now)) }
{
    let mut names = IndexSet::new(alloc);
    for class in classes {
        names.insert(class.own_number())?;
    }
    Ok(names)
}

fn field_keys_of(alloc: Global, classes: &[NumberedClass]) -> Result<Vec<Key>, NoMemory>
    ensures keys { IfOk result (λ keys. keys.items ≡ flat_map field_keys classes.now) }
    ensures few { IfOk result (λ keys. length keys.items ≤ 65536 * length classes.now) }
{
    let mut keys = Vec::new(alloc);
    for class in classes {
        class.push_field_keys(&mut keys)?;
    }
    Ok(keys)
}

fn method_keys_of(alloc: Global, classes: &[NumberedClass]) -> Result<Vec<Key>, NoMemory>
    ensures keys { IfOk result (λ keys. keys.items ≡ flat_map method_keys classes.now) }
    ensures few { IfOk result (λ keys. length keys.items ≤ 65536 * length classes.now) }
{
    let mut keys = Vec::new(alloc);
    for class in classes {
        class.push_method_keys(&mut keys)?;
    }
    Ok(keys)
}
