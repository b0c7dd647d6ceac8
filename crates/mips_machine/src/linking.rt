//! LL and SC.
ghost use Rattle.std.specs.Prelude.{◌≡◌, ◌<◌, None, IsTrue};
ghost use Rattle.mips_definition.specs.Loads.{store_aligned, store_allowed, memory_stored, load_linked_effect, store_conditional_effect, concluded, is_linked};
ghost use Rattle.mips_definition.specs.State.{register, with_register};
ghost use Rattle.mips_machine.specs.Processor.{processor_state, effect_of, Stays};

use crate::accessing::refused_load;
use crate::executed::Executed;
use crate::processor::Processor;
use mips_decode::fault_kinds::{WRITE_ALIGN, WRITE_REFUSED};
use mips_decode::{LoadName, StoreName};
use mips_memory::is_store_aligned;

impl Processor {
    /// LL: as LW, and the address is linked.
    #[inline]
    #[tactic(auto, unfolding(crate::specs::Processor::processor_state))]
    pub(crate) fn load_linked(&mut self, rs: u8, rt: u8, imm: u16) -> Executed
        requires rs { rs < 32 }
        requires rt { rt < 32 }
        ensures effect { effect_of result (processor_state self.new)
            ≡ load_linked_effect (processor_state self.old) rs rt imm }
        ensures stays { Stays result (processor_state self.old) (processor_state self.new) }
    {
        let at = self.address(rs, imm);
        match self
            .memory
            .load(LoadName::Lw, self.order, at, self.register(rt))
        {
            Some(w) => {
                self.set_register::<false>(rt, w);
                self.load_link = Some(at);
                Executed::On
            }
            None => refused_load(LoadName::Lw, at),
        }
    }

    /// SC: where the address is linked as SW, and rt becomes 1; else rt becomes 0. No link is left.
    #[inline]
    #[tactic(auto, unfolding(crate::specs::Processor::processor_state))]
    pub(crate) fn store_conditional(&mut self, rs: u8, rt: u8, imm: u16) -> Executed
        requires rs { rs < 32 }
        requires rt { rt < 32 }
        ensures effect { effect_of result (processor_state self.new)
            ≡ store_conditional_effect (processor_state self.old) rs rt imm }
        ensures stays { Stays result (processor_state self.old) (processor_state self.new) }
    {
        let at = self.address(rs, imm);
        if !is_store_aligned(StoreName::Sw, at) {
            return Executed::Fault {
                kind: WRITE_ALIGN,
                value: at,
            };
        }
        if !self.memory.may_store(StoreName::Sw, self.order, at) {
            return Executed::Fault {
                kind: WRITE_REFUSED,
                value: at,
            };
        }
        self.conclude(rt, at);
        Executed::On
    }

    /// The end of an SC whose store is allowed.
    #[inline]
    fn conclude(&mut self, rt: u8, at: u32)
        requires rt { rt < 32 }
        requires aligned { IsTrue (store_aligned StoreName.Sw at) }
        requires allowed { IsTrue (store_allowed StoreName.Sw (processor_state self.old).order
            (processor_state self.old).memory at) }
        ensures { processor_state self.new ≡ concluded (processor_state self.old) rt at }
    {
        if self.is_linked(at) {
            self.store_linked(rt, at);
        } else {
            self.store_nothing(rt);
        }
    }

    /// The end of an SC that stores.
    #[inline]
    #[tactic(auto, unfolding(crate::specs::Processor::processor_state))]
    fn store_linked(&mut self, rt: u8, at: u32)
        requires rt { rt < 32 }
        requires aligned { IsTrue (store_aligned StoreName.Sw at) }
        requires allowed { IsTrue (store_allowed StoreName.Sw (processor_state self.old).order
            (processor_state self.old).memory at) }
        ensures { processor_state self.new
            ≡ record (with_register (processor_state self.old) rt 1) {
              memory = memory_stored StoreName.Sw (processor_state self.old).order
                  (processor_state self.old).memory at (register (processor_state self.old) rt);
              load_link = None;
            } }
    {
        let w = self.register(rt);
        self.memory.store(StoreName::Sw, self.order, at, w);
        self.set_register::<false>(rt, 1);
        self.load_link = None;
    }

    /// The end of an SC that stores nothing.
    #[inline]
    #[tactic(auto, unfolding(crate::specs::Processor::processor_state))]
    fn store_nothing(&mut self, rt: u8)
        requires { rt < 32 }
        ensures { processor_state self.new
            ≡ record (with_register (processor_state self.old) rt 0) { load_link = None } }
    {
        self.set_register::<false>(rt, 0);
        self.load_link = None;
    }

    /// Whether the link of LL is an address.
    #[inline]
    #[tactic(auto, unfolding(crate::specs::Processor::processor_state))]
    fn is_linked(&self, at: u32) -> bool
        ensures { result ≡ is_linked (processor_state self.now) at }
    {
        match self.load_link {
            Some(link) => link == at,
            None => false,
        }
    }
}
