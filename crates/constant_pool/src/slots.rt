ghost use Rattle.std.specs.Prelude.{◌≡◌, ◌||◌, IfOk, option_map};
ghost use Rattle.class_definition.specs.NameGrammar as profile;
ghost use Rattle.class_definition.specs.PoolChecks as checks;
ghost use Rattle.class_definition.specs.Named.{is_own_descriptor};
ghost use Rattle.constant_pool.specs.Forms.{form_of_text};

use crate::error::NoMemory;
use crate::form::{Form, fault_unless, form_at, forms_of};
use crate::lookups::{class_name_of, entry_of, text_of};
use class_definition::Entry;
use std::alloc::Global;
use std::marker::Model;

/// The slots of a pool that was read. Each text was looked at once, for what it can be the name of, however many slots name it.
///
/// A contract sees it as the list of its slots, of which the first one is slot 1.
#[derive(Drop)]
pub struct Slots {
    entries: Vec<Entry>,
    forms: Vec<Option<Form>>,
}

impl Model for Slots {
    ghost use Rattle.std.specs.Prelude.{◌≡◌, List, map};
    ghost use Rattle.class_definition.specs.declared.entry.Entry.{Entry};
    ghost use Rattle.constant_pool.specs.Forms.{form_of};

    ghost Value = { List Entry };

    ghost view = { λ s. s.entries.items };

    ghost invariant = { λ s. s.forms.items ≡ map form_of s.entries.items };
}

impl Slots {
    /// The slots of these entries.
    pub fn new(alloc: Global, entries: Vec<Entry>) -> Result<Slots, NoMemory>
        ensures { IfOk result (λ slots. slots ≡ entries.items) }
    {
        let forms = forms_of(alloc, &entries)?;
        Ok(Slots { entries, forms })
    }

    /// The slots, to be read.
    pub fn as_slice(&self) -> &[Entry]
        ensures { result.now ≡ self.now }
    {
        self.entries.as_slice()
    }

    /// The slots. It takes no memory.
    pub fn into_entries(self) -> Vec<Entry>
        ensures { result.items ≡ self }
    {
        self.entries
    }

    /// The entry in a slot.
    pub fn entry(&self, slot: u16) -> Option<&Entry>
        ensures { option_map (λ x. x.now) result ≡ checks.entry_at self.now slot }
    {
        entry_of(&self.entries, slot)
    }

    /// The text of the Utf8 entry in a slot; None exactly if no such entry is there.
    pub fn text(&self, slot: u16) -> Option<&[u16]>
        ensures { option_map (λ x. x.now) result ≡ checks.text_at self.now slot }
    {
        text_of(&self.entries, slot)
    }

    /// The name of the class in a slot; None exactly if no such entry is there, or it names no Utf8 entry.
    pub fn class_name(&self, slot: u16) -> Option<&[u16]>
        ensures { option_map (λ x. x.now) result ≡ checks.class_text_at self.now slot }
    {
        class_name_of(&self.entries, slot)
    }

    /// What the text in a slot can be; None exactly if no text is there.
    #[tactic(auto, using(crate::proofs::FormLemmas::form_is))]
    pub fn form(&self, slot: u16) -> Option<Form>
        ensures { result ≡ option_map form_of_text (checks.text_at self.now slot) }
    {
        form_at(&self.forms, slot)
    }

    /// The kind of what is wrong with a slot that is to hold the name of a class or of a type of arrays.
    #[tactic(auto, using(crate::proofs::FormLemmas::fault_is))]
    pub fn class_name_fault(&self, slot: u16) -> Option<u32>
        ensures { result ≡ checks.text_fault (λ cs. profile.is_class_file_name cs
            || profile.is_array_name cs) (checks.text_at self.now slot) }
    {
        fault_unless(self.form(slot).map(|form| form.class_name))
    }

    /// The kind of what is wrong with a slot that is to hold the name of a field or method.
    #[tactic(auto, using(crate::proofs::FormLemmas::fault_is))]
    pub fn member_name_fault(&self, slot: u16) -> Option<u32>
        ensures { result ≡ checks.text_fault profile.is_member_name (checks.text_at self.now slot) }
    {
        fault_unless(self.form(slot).map(|form| form.member_name))
    }

    /// The kind of what is wrong with a slot that is to hold the descriptor of a field.
    #[tactic(auto, using(crate::proofs::FormLemmas::fault_is))]
    pub fn field_descriptor_fault(&self, slot: u16) -> Option<u32>
        ensures { result
            ≡ checks.text_fault profile.is_field_descriptor (checks.text_at self.now slot) }
    {
        fault_unless(self.form(slot).map(|form| form.field_descriptor))
    }

    /// The kind of what is wrong with a slot that is to hold the descriptor of a method of the class itself.
    #[tactic(auto, using(crate::proofs::FormLemmas::fault_is))]
    pub fn own_descriptor_fault(&self, slot: u16) -> Option<u32>
        ensures { result ≡ checks.text_fault is_own_descriptor (checks.text_at self.now slot) }
    {
        fault_unless(self.form(slot).map(|form| form.own_descriptor))
    }
}
