//! A constant pool whose entries keep the rules of class files.
ghost use Rattle.std.specs.Prelude.{◌≡◌, ◌+◌, ◌<◌, ◌≤◌, true, [], ◌∷◌, ◌++◌, length, Some, None, IfOk, OnOk, Err};
ghost use Rattle.class_definition.specs.Utf8.{has_16_bit_characters};
ghost use Rattle.class_definition.specs.PoolChecks.{entry_at};
ghost use Rattle.constant_pool.specs.Slots.{IsAt};
ghost use Rattle.constant_pool.specs.declared.error.PoolError.TheVariants.{Full};
ghost use Rattle.class_definition.specs.Code.{code_fault};
ghost use Rattle.class_definition.specs.Linking.{lines_of_code};
ghost use Rattle.emit_assembly.specs.Assembling.{slots_of, AreLinked};
ghost use Rattle.emit_classes.specs.Named.{IsTextAt};
ghost use Rattle.emit_classes.specs.Lawful.{has_class};
ghost use Rattle.emit_classes.specs.Code.{is_code};
ghost use Rattle.emit_classes.specs.Sound.{kind_of, MayJoin};
ghost use Rattle.emit_classes.specs.Mentioned.{Mentions, mentioned, mentions_in};
ghost use Rattle.emit_classes.specs.Built.{Grows, LacksRoom, is_long_text};

use crate::slot_kind::SlotKind;
use constant_pool::{Entry, NoMemory, Pool, PoolError, text_size};
use emit_assembly::{References, method_code};
use emit_steps::Step;
use jvm_definition::Sequence;
use std::alloc::Global;
use std::marker::Model;

/// The greatest number of bytes of a text (JVM Specification, 4.4.7).
const MAX_TEXT: usize = 65_535;

/// A constant pool that is made entry by entry, so that it is one of a class file at any time.
///
/// A contract sees it as the list of its slots, of which the first one is slot 1.
#[derive(Drop)]
pub struct SoundPool {
    pool: Pool,
    // What stands in each slot, by its number.
    kinds: Vec<SlotKind>,
}

impl Model for SoundPool {
    ghost use Rattle.std.specs.Prelude.{List};
    ghost use Rattle.class_definition.specs.declared.entry.Entry.{Entry};

    ghost Value = { List Entry };

    ghost use Rattle.emit_classes.specs.Lawful.{has_class, has_text};
    ghost use Rattle.emit_classes.specs.Sound.{IsKeptBuilder};

    ghost view = { λ p. p.pool };

    ghost invariant = { λ p. IsKeptBuilder p.pool p.kinds.items };
}

impl SoundPool {
    /// A pool without entries.
    pub fn new(alloc: Global) -> Result<SoundPool, NoMemory>
        ensures { IfOk result (λ pool. pool ≡ []) }
    {
        let kinds = vec![in alloc; SlotKind::Other; 65_536]?;
        Ok(SoundPool {
            pool: Pool::new(alloc),
            kinds,
        })
    }

    fn kind(&self, slot: u16) -> SlotKind
        ensures { result ≡ kind_of (entry_at self.now slot) }
    {
        self.kinds[slot as usize]
    }

    /// Whether a class is in a slot.
    pub fn has_class(&self, slot: u16) -> bool
        ensures { result ≡ has_class self.now slot }
    {
        matches!(self.kind(slot), SlotKind::Class)
    }

    /// The slot of an entry, which is put after the others where it is not among them.
    pub fn add(&mut self, entry: Entry) -> Result<u16, PoolError>
        requires { MayJoin self.old entry }
        ensures there { IfOk result (λ slot. IsAt self.new slot entry) }
        ensures grown { Grows self.old self.new 1 }
        ensures mentions { OnOk result
            (Mentions self.new (mentioned self.old ++ mentions_in self.new entry)) }
        ensures full { result ≡ Err Full → 65534 < length self.old + 1 }
    {
        let kind = kind_of(&entry);
        let slot = self.pool.add(entry)?;
        self.kinds[slot as usize] = kind;
        Ok(slot)
    }

    /// The slot of a text.
    pub fn add_text(&mut self, characters: Vec<u16>) -> Result<u16, PoolError>
        ensures there { IfOk result (λ slot. IsTextAt self.new slot characters.items) }
        ensures grown { Grows self.old self.new 1 }
        ensures mentions { OnOk result (Mentions self.new (mentioned self.old)) }
        ensures full { result ≡ Err Full → LacksRoom self.old 1 (characters.items ∷ []) }
    {
        if is_long_text(&characters) {
            return Err(PoolError::Full);
        }
        self.add(Entry::Utf8(Sequence::new(characters)))
    }

    /// The bytes of the code of a method, whose constants are put after the entries.
    pub fn add_code(
        &mut self,
        alloc: Global,
        code: &[Step],
        references: &References,
    ) -> Result<Vec<u8>, PoolError>
        requires { is_code references.now self.old code.now ≡ true }
        ensures lines { IfOk result (λ bytes.
            AreLinked references.now self.new code.now (lines_of_code bytes.items)) }
        ensures sound { IfOk result (λ bytes. code_fault bytes.items ≡ None) }
        ensures grown { Grows self.old self.new (slots_of code.now) }
        ensures mentions { Mentions self.new (mentioned self.old) }
        ensures full { result ≡ Err Full → 65534 < length self.old + slots_of code.now }
    {
        let bytes = method_code(alloc, code, references, &mut self.pool);
        // With the constants too, the pool is within its limit.
        let _left = self.pool.left();
        bytes
    }

    /// The entries, one for each slot in order.
    pub fn entries(self, alloc: Global) -> Result<Vec<Entry>, NoMemory>
        ensures { IfOk result (λ entries. entries.items ≡ self) }
    {
        self.pool.entries(alloc)
    }
}

// Whether a text has more bytes than a class file can hold.
fn is_long_text(characters: &[u16]) -> bool
    ensures long { result ≡ is_long_text characters.now }
    ensures text { has_16_bit_characters characters.now ≡ true }
{
    MAX_TEXT < text_size(characters)
}

fn kind_of(entry: &Entry) -> SlotKind
    ensures { result ≡ kind_of (Some entry.now) }
{
    match entry {
        Entry::Utf8(_) => SlotKind::Text,
        Entry::ClassName(_) => SlotKind::Class,
        _ => SlotKind::Other,
    }
}
