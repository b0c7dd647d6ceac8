//! Addresses of names.
use std::alloc::{AllocError, Global};
use std::collections::BTreeMap;
use std::marker::Model;

/// The labels of a text: names, each with an address.
#[derive(Drop)]
pub struct Labels<'a> {
    addresses: BTreeMap<&'a [u8], u64>,
}

impl<'a> Model for Labels<'a> {
    ghost use Rattle.asm_lines.specs.Operands.{LabelList};
    ghost use Rattle.asm_lines.specs.KeptLabels.{kept_labels};

    ghost Value = { LabelList };

    ghost view = { λ l. kept_labels l.addresses };
}

impl<'a> Labels<'a> {
    ghost use Rattle.std.specs.Prelude.{◌≡◌, List, [], ℕ, IfOk, OnOk, bytes_eq, is_some, cond, true, false, Some, None};
    ghost use Rattle.asm_lines.specs.Operands as operands;

    /// No labels.
    pub fn new(alloc: Global) -> Labels<'a>
        ensures { result ≡ [] }
    {
        Labels {
            addresses: BTreeMap::new(alloc),
        }
    }

    /// The address of a name.
    pub fn address_of(&self, name: &'a [u8]) -> Option<u64>
        ensures { result ≡ operands.label_address self.now name.now }
    {
        self.addresses.get(&name).copied()
    }

    /// Adds a label, where its name has none so far, and says whether it did.
    ///
    /// # Errors
    /// Where there is no memory for one more.
    pub fn add(&mut self, name: &'a [u8], address: u64) -> Result<bool, AllocError>
        ensures is_new { IfOk result (λ new. new
            ≡ cond (is_some (operands.label_address self.old name.now)) false true) }
        ensures addresses { OnOk result ((other : List ℕ)
            → operands.label_address self.new other
            ≡ operands.first_of (operands.label_address self.old other)
            (cond (bytes_eq name.now other) (Some address) None)) }
    {
        if self.address_of(name).is_some() {
            return Ok(false);
        }
        self.addresses.insert(name, address)?;
        Ok(true)
    }
}
