ghost use Rattle.std.specs.Prelude.{◌≡◌, ℕ, ◌<◌, true};
ghost use Rattle.mips_definition.specs.State.{register, with_register, start};
ghost use Rattle.mips_memory.specs.Pages.{memory_of};
ghost use Rattle.mips_memory.specs.CodeChunks.{code_of};
ghost use Rattle.mips_machine.specs.Moving.{Steady};
ghost use Rattle.mips_machine.specs.Processor.{processor_state};

use crate::registers::Registers;
use mips_memory::{Code, GuestMemory};
use nv_words::Order;
use std::alloc::Global;
use std::rc::Rc;

/// The processor, with its memory and the program's code.
///
/// A contract sees it through `processor_state`.
#[derive(Drop)]
pub struct Processor {
    // first, so that they and the processor have one address, which a run keeps at hand
    pub(crate) registers: Registers,
    pub(crate) begun: bool,
    pub(crate) hi: u32,
    pub(crate) lo: u32,
    pub(crate) pc: u32,
    pub(crate) pending: Option<u32>,
    pub(crate) load_link: Option<u32>,
    pub(crate) memory: GuestMemory,
    pub(crate) order: Order,
    /// Shared with a run of many turns, which reads instructions while the processor changes.
    pub(crate) code: Rc<Code, Global>,
    pub(crate) heap_start: u32,
    pub(crate) heap_bytes: u32,
}

impl Processor {
    /// The processor before the first instruction of a program.
    #[tactic(auto, unfolding(crate::specs::Processor::processor_state))]
    pub(crate) fn new(
        memory: GuestMemory,
        code: Rc<Code, Global>,
        order: Order,
        entry: u32,
        heap_start: u32,
        heap_bytes: u32,
    ) -> Processor
        ensures { processor_state result
            ≡ start order entry (memory_of memory) (code_of code.value) heap_start heap_bytes }
    {
        Processor {
            begun: false,
            registers: Registers::new(),
            hi: 0,
            lo: 0,
            pc: entry,
            pending: None,
            load_link: None,
            memory,
            order,
            code,
            heap_start,
            heap_bytes,
        }
    }

    /// What a register holds.
    #[inline]
    #[tactic(auto, unfolding(crate::specs::Processor::processor_state))]
    pub(crate) fn register(&self, r: u8) -> u32
        requires { r < 32 }
        ensures { result ≡ register (processor_state self.now) r }
    {
        self.registers.get(r)
    }

    /// Writes a register, of which it may be known that it is another than register 0. A write of register 0 is lost.
    #[inline]
    #[tactic(auto, unfolding(crate::specs::Processor::processor_state))]
    pub(crate) fn set_register<const OTHER: bool>(&mut self, r: u8, w: u32)
        requires number { r < 32 }
        requires other { OTHER ≡ true → 0 < r }
        ensures state { processor_state self.new ≡ with_register (processor_state self.old) r w }
        ensures steady { Steady self.old self.new }
    {
        self.registers.set::<OTHER>(r, w);
    }
}
