//! What holds of the slots of code. Each call here does nothing: its contract is the law.
ghost use Rattle.std.specs.Prelude.{ℕ, ◌+◌, ◌*◌, ◌<◌, ◌≤◌, Bool, List, length, Option};
ghost use Rattle.run_definition.specs.declared.order.Order.{Order};
ghost use Rattle.trampoline.specs.declared.start.Start.{Start};
ghost use Rattle.trampoline.specs.Choosers.{class_chooser, main_chooser, missing_method};
ghost use Rattle.emit_loading.specs.declared.beginning.Beginning.{Beginning};
ghost use Rattle.emit_loading.specs.declared.page_slot.PageSlot.{PageSlot};
ghost use Rattle.emit_loading.specs.Pages.{pages_code};
ghost use Rattle.emit_loading.specs.Words.{words_code};
ghost use Rattle.emit_loading.specs.Filling.{fill_code};
ghost use Rattle.emit_loading.specs.Starting.{run_code};
ghost use Rattle.mem_helpers.specs.Methods.{helper_code};
ghost use Rattle.emit_assembly.specs.Assembling.{slots_of};
ghost use Rattle.emit_limits.specs.Laws.{SpansTakeFewSlots};

/// The constants of the method of a span take at most nine slots for each of its words, and two more, with whichever words its pieces
/// begin.
pub fn spans_take_few_slots()
    ensures { SpansTakeFewSlots }
{}

/// The constants of a method that chooses by starts take at most one slot for each of these, and four more. Those of the method for
/// addresses outside all code take at most four.
pub fn choosers_take_few_slots()
    ensures classes { (starts : List Start) (first end : ℕ)
        → slots_of (class_chooser starts first end) ≤ length starts + 4 }
    ensures program { (starts : List Start) (missing : ℕ)
        → slots_of (main_chooser starts missing) ≤ length starts + 4 }
    ensures missing { (metered : Bool) → slots_of (missing_method metered) ≤ 4 }
{}

/// The constants of the methods that make the memory take at most so many slots: two for each page that has words, one for each text
/// of runs of pages, and a few more.
pub fn loading_takes_few_slots()
    ensures pages { slots_of pages_code ≤ 8 }
    ensures words { slots_of words_code ≤ 8 }
    ensures fills { (slots : List PageSlot) (class words : ℕ)
        → slots_of (fill_code slots class words) ≤ 2 * length slots }
    ensures run { (meter : Option ℕ) (b : Beginning) (page_texts : List ℕ) (class pages : ℕ)
        (fills : List ℕ) (choose : ℕ)
        → slots_of (run_code meter b page_texts class pages fills choose)
        ≤ length page_texts + 16 }
{}

/// The constants of each of the 20 helpers take at most two slots.
pub fn helpers_take_few_slots()
    ensures { (order : Order) (number : ℕ) → number < 20
        → slots_of (helper_code order number) ≤ 2 }
{}
