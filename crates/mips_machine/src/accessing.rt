//! Loads and stores.
ghost use Rattle.std.specs.Prelude.{◌≡◌, ℕ, ◌<◌, true, if◌then◌else◌};
ghost use Rattle.mips_definition.specs.Effect.{read_align_fault, read_unmapped_fault, write_align_fault, write_refused_fault};
ghost use Rattle.mips_definition.specs.Loads.{load_aligned, store_aligned, load_effect, store_effect, access_address};
ghost use Rattle.mips_machine.specs.declared.executed.Executed.TheVariants.{Fault};
ghost use Rattle.mips_machine.specs.Moving.{Steady};
ghost use Rattle.mips_machine.specs.Processor.{processor_state, effect_of, Stays};

use crate::executed::Executed;
use crate::processor::Processor;
use mips_arithmetic::extended;
use mips_decode::fault_kinds::{READ_ALIGN, READ_UNMAPPED, WRITE_ALIGN, WRITE_REFUSED};
use mips_decode::{LoadName, StoreName};
use mips_memory::{is_load_aligned, is_store_aligned};
use nv_words::Order;

impl Processor {
    /// LB to LWR, to a register of which it may be known that it is another than register 0.
    #[inline(always)]
    #[tactic(auto, unfolding(crate::specs::Processor::processor_state))]
    pub(crate) fn load<const OTHER: bool>(
        &mut self,
        name: LoadName,
        order: Order,
        rs: u8,
        rt: u8,
        imm: u16,
    ) -> Executed
        requires order { order ≡ self.old.order }
        requires rs { rs < 32 }
        requires rt { rt < 32 }
        requires other { OTHER ≡ true → 0 < rt }
        ensures effect { effect_of result (processor_state self.new)
            ≡ load_effect name (processor_state self.old) rs rt imm }
        ensures stays { Stays result (processor_state self.old) (processor_state self.new) }
        ensures steady { Steady self.old self.new }
    {
        let at = self.address(rs, imm);
        match self.memory.load(name, order, at, self.register(rt)) {
            Some(w) => {
                self.set_register::<OTHER>(rt, w);
                Executed::On
            }
            None => refused_load(name, at),
        }
    }

    /// SB to SWR.
    #[inline(always)]
    #[tactic(auto, unfolding(crate::specs::Processor::processor_state))]
    pub(crate) fn store(
        &mut self,
        name: StoreName,
        order: Order,
        rs: u8,
        rt: u8,
        imm: u16,
    ) -> Executed
        requires order { order ≡ self.old.order }
        requires rs { rs < 32 }
        requires rt { rt < 32 }
        ensures effect { effect_of result (processor_state self.new)
            ≡ store_effect name (processor_state self.old) rs rt imm }
        ensures stays { Stays result (processor_state self.old) (processor_state self.new) }
        ensures steady { Steady self.old self.new }
    {
        let at = self.address(rs, imm);
        let w = self.register(rt);
        if self.memory.store(name, order, at, w) {
            Executed::On
        } else {
            refused_store(name, at)
        }
    }

    /// The address of an access.
    #[inline(always)]
    pub(crate) fn address(&self, rs: u8, imm: u16) -> u32
        requires { rs < 32 }
        ensures { result ≡ access_address (processor_state self.now) rs imm }
    {
        self.register(rs).wrapping_add(extended(imm))
    }
}

/// The fault of a load from an address that is not aligned, or cannot be read.
#[inline(always)]
pub(crate) fn refused_load(name: LoadName, at: u32) -> Executed
    ensures { result ≡ Fault (if load_aligned name at then read_unmapped_fault else
        read_align_fault) at }
{
    let kind = if is_load_aligned(name, at) {
        READ_UNMAPPED
    } else {
        READ_ALIGN
    };
    Executed::Fault { kind, value: at }
}

/// The fault of a store to an address that is not aligned, or may not be written.
#[inline(always)]
fn refused_store(name: StoreName, at: u32) -> Executed
    ensures { result ≡ Fault (if store_aligned name at then write_refused_fault else
        write_align_fault) at }
{
    let kind = if is_store_aligned(name, at) {
        WRITE_REFUSED
    } else {
        WRITE_ALIGN
    };
    Executed::Fault { kind, value: at }
}
