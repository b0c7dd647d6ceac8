//! What holds of the names in emitted code. Each call here does nothing: its contract is the law.

ghost use Rattle.std.specs.Prelude.{◌≡◌, ℕ, ◌≤◌, Bool, true, false, List, All, Option};
ghost use Rattle.delay_slots.specs.declared.unit.Unit.{Unit};
ghost use Rattle.emit_steps.specs.declared.step.Step.{Step};
ghost use Rattle.word_emitter.specs.declared.extent.Extent.{Extent};
ghost use Rattle.word_emitter.specs.Pieces.{warm_code, units_code};
ghost use Rattle.word_emitter.specs.Exits.{exit_code};
ghost use Rattle.emit_simulation_laws.specs.Lawful.{IsLawful};
ghost use Rattle.trampoline.specs.declared.start.Start.{Start};
ghost use Rattle.trampoline.specs.Choosers.{class_chooser, main_chooser, missing_method};
ghost use Rattle.emit_loading.specs.declared.page_slot.PageSlot.{PageSlot};
ghost use Rattle.emit_loading.specs.Filling.{fill_code};
ghost use Rattle.emit_loading.specs.Pages.{pages_code};
ghost use Rattle.emit_loading.specs.Words.{words_code};
ghost use Rattle.emit_methods_laws.specs.Naming.{HelpersNameWell, MayCallStarts, PiecesNameWell, RunsNameWell, SpansNameWell, UnitPartsNameWell, UnitsNameWell, WordsNameWell, all_well, all_well_of, fields_of, is_helper};

/// Helpers call none but the two that end the run for them, and return as their descriptors say.
pub fn helpers_name_well()
    ensures { HelpersNameWell }
{}

/// The code of a lawful unit calls helpers alone and has no return, over any bank of registers, and so has the code of lawful units one after
/// the other, and that of a piece.
pub fn units_name_well()
    ensures one { UnitsNameWell }
    ensures several { (class : ℕ) (gives : Bool) (bank at : ℕ) (units : List Unit)
        → All IsLawful units
        → all_well is_helper class gives (units_code bank units at) ≡ true }
    ensures piece { (class : ℕ) (gives : Bool) (at : ℕ) (units : List Unit)
        → All IsLawful units
        → all_well is_helper class gives (warm_code units at) ≡ true }
{}

/// The exit after a unit calls no method, and is for a method that gives nothing.
pub fn exits_name_well()
    ensures { (calls : ℕ → Bool) (class at : ℕ) (span : Extent) (behind : Option ℕ) (unit : Unit)
        → all_well calls class false (exit_code span behind unit at) ≡ true }
{}

/// The method of a span of lawful units calls helpers alone, and so do its parts.
pub fn spans_name_well()
    ensures pieces { PiecesNameWell }
    ensures units { UnitPartsNameWell }
    ensures words { WordsNameWell }
    ensures method { SpansNameWell }
{}

/// The methods that choose call those of their starts; the main one also calls the method for addresses outside all code, which calls none.
pub fn choosers_name_well()
    ensures class { (calls : ℕ → Bool) (class : ℕ) (starts : List Start) (first end : ℕ)
        → MayCallStarts calls starts
        → all_well calls class false (class_chooser starts first end) ≡ true }
    ensures main { (calls : ℕ → Bool) (class : ℕ) (starts : List Start) (missing : ℕ)
        → MayCallStarts calls starts → calls missing ≡ true
        → all_well calls class false (main_chooser starts missing) ≡ true }
    ensures missing { (calls : ℕ → Bool) (class : ℕ) (metered : Bool)
        → all_well_of (fields_of metered) calls class false (missing_method metered) ≡ true }
{}

/// The methods that make pages and that put words call none. Those that fill pages call the latter and push texts of their own class. The one
/// with which the program begins calls the methods that it is given, and pushes texts of its own class.
pub fn loading_names_well()
    ensures pages { (calls : ℕ → Bool) (class : ℕ) → all_well calls class false pages_code ≡ true }
    ensures words { (calls : ℕ → Bool) (class : ℕ) → all_well calls class false words_code ≡ true }
    ensures fill { (calls : ℕ → Bool) (class words : ℕ) (slots : List PageSlot)
        → calls words ≡ true
        → all_well calls class false (fill_code slots class words) ≡ true }
    ensures run { RunsNameWell }
{}

/// Code that names only what is there does so too where more methods may be called.
pub fn more_may_be_called()
    ensures { (calls more : ℕ → Bool) (class : ℕ) (gives : Bool) (code : List Step)
        → ((m : ℕ) → calls m ≡ true → more m ≡ true)
        → all_well calls class gives code ≡ true
        → all_well more class gives code ≡ true }
{}

/// Code that names only what is there does so too where the main class has more fields.
pub fn more_fields_may_be_named()
    ensures { (fields more : ℕ) (calls : ℕ → Bool) (class : ℕ) (gives : Bool) (code : List Step)
        → fields ≤ more
        → all_well_of fields calls class gives code ≡ true
        → all_well_of more calls class gives code ≡ true }
{}
