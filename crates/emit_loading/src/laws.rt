//! What holds of the code. Each call here does nothing: its contract is the law.
ghost use Rattle.std.specs.Prelude.{◌≡◌, ℕ, Option};
ghost use Rattle.run_definition.specs.Memory.{Memory};
ghost use Rattle.mips_definition.specs.State.{start};
ghost use Rattle.mips_definition.specs.Step.{loader_call};
ghost use Rattle.emit_steps.specs.Widths.{bytes_before};
ghost use Rattle.emit_loading.specs.declared.beginning.Beginning.{Beginning};
ghost use Rattle.emit_loading.specs.Pages.{pages_code, runs_offset, pages_offset};
ghost use Rattle.emit_loading.specs.Words.{words_code, words_offset};
ghost use Rattle.emit_loading.specs.Starting.{beginning_call};

/// The call that the program begins with is the loader's call of the guest machine.
pub fn the_first_call_is_the_loaders()
    ensures { (b : Beginning) (memory : Memory) (code : ℕ → Option ℕ)
        → beginning_call b
        ≡ loader_call (start b.order b.entry memory code b.heap_start b.heap_bytes) }
{}

/// Each loop begins at one of its method's steps.
pub fn loops_begin_at_steps()
    ensures runs { runs_offset ≡ bytes_before pages_code 2 }
    ensures pages { pages_offset ≡ bytes_before pages_code 29 }
    ensures words { words_offset ≡ bytes_before words_code 6 }
{}
