//! How memory stays held. Each call here does nothing: its contract is the law.

ghost use Rattle.std.specs.Prelude.{◌≡◌, ℕ, ◌/◌, ◌%◌};
ghost use Rattle.run_definition.specs.declared.order.Order.TheVariants.{Big};
ghost use Rattle.run_definition.specs.Memory.{Memory};
ghost use Rattle.mips_definition.specs.Memory.{with_word};
ghost use Rattle.jvm_definition.specs.Values.{Heap};
ghost use Rattle.emit_simulation_laws.specs.Memory.{with_word_at};
ghost use Rattle.emit_simulation_laws.specs.Match.{HoldsMemory};
ghost use Rattle.emit_simulation_laws.specs.Laws.{StaysHeld};

/// A word stored through the page that may be written, and bytes put one after the other where each may be written, keep the memory
/// held.
pub fn memory_stays_held()
    ensures held { (heap : Heap) (readable writable : ℕ) (memory : Memory)
        (h : HoldsMemory heap readable writable memory) → StaysHeld h }
    ensures stores { (m : Memory) (a w : ℕ) → a % 4 ≡ 0
        → with_word Big m a w ≡ with_word_at m (a / 4) w }
{}
