//! What the methods that make pages and put words into them do. Each call here does nothing: its contract is the law.

ghost use Rattle.std.specs.Prelude.{◌≡◌, ℕ, ◌*◌, ◌<◌, Bool, List, length, slice_index, Option};
ghost use Rattle.jvm_definition.specs.Values.{Heap};
ghost use Rattle.emit_loading.specs.declared.page_slot.PageSlot.{PageSlot};
ghost use Rattle.data_strings.specs.Texts.{page_text};
ghost use Rattle.emit_loading_laws.specs.Filled.{FillsPages, NoPageIsPut, PagesAreFilled, WordsArePut};
ghost use Rattle.emit_loading_laws.specs.Leading.{CallsLeadBack};
ghost use Rattle.emit_loading_laws.specs.MadePages.{ListsPages, MakesPages, PagesAreMade};
ghost use Rattle.emit_loading_laws.specs.Memory.{FilledPagesHaveTheirWords, MadePagesAreZero, PagesHoldMemory};
ghost use Rattle.emit_loading_laws.specs.Texts.{AreWords, int_at};

use emit_paths_laws::laws::code_is_a_path;
use emit_steps::laws::parts_lie_behind_each_other;

/// The text of words has five characters for each, and spells them one by one.
pub fn texts_hold_their_words()
    ensures spelled { (given : List ℕ) (k : ℕ) → AreWords given → k < length given
        → int_at (page_text given) (5 * k) ≡ slice_index given k }
    ensures long { (given : List ℕ) → length (page_text given) ≡ 5 * length given }
{}

/// The method that puts words into a page puts those that the text spells into the array, from its first word on, with 41 instructions for
/// each, and changes nothing else. Without an array it changes nothing.
pub fn words_are_put()
    ensures put { WordsArePut }
    ensures absent { NoPageIsPut }
{
    code_is_a_path();
}

/// A call of a method that leads back leads after the call, with one turn more.
pub fn calls_lead_back()
    ensures { CallsLeadBack }
{}

/// The method that puts words into the pages of a class puts into each page that is there the words that its text spells, with at most 42,000
/// instructions for each page, and changes nothing else.
pub fn pages_are_filled()
    ensures { PagesAreFilled }
{
    code_is_a_path();
    parts_lie_behind_each_other();
}

/// Of arrays that are filled so: each page has at its front the words that its text spells, and otherwise the words as before; each other array and
/// the number of words that are used are as before; so the table of pages holds the same pages.
pub fn filled_pages_hold_their_words()
    ensures { (places : ℕ → Option ℕ) (given : ℕ → List ℕ) (slots : List PageSlot) (heap : Heap)
        → FillsPages places given slots heap }
{}

/// The method that makes pages makes an array of zeros for each page of the runs that its text tells, in their order, and puts it into the table
/// of what can be read, and into that of what can be written where the run can, with at most 19 instructions for each page and 27 for each run.
pub fn pages_are_made()
    ensures { PagesAreMade }
{
    code_is_a_path();
    parts_lie_behind_each_other();
}

/// Of arrays that are made so: the tables have the places of the new arrays, in the order of the pages. If the tables were empty and the pages
/// rise, they have exactly these pages: each is an array of zeros of its own, and the same in both tables where it can be written. Pages are made
/// one list after the other, and each takes 1,026 words.
pub fn made_pages_are_there()
    ensures { (readable writable : ℕ) (xs : List (ℕ × Bool)) (heap : Heap)
        → MakesPages readable writable xs heap }
{}

/// The pages that can be read below a page rise, and a page is one of them where it lies below and can be read.
pub fn listed_pages_rise()
    ensures { (readable writable : ℕ → Bool) (end : ℕ) → ListsPages readable writable end }
{}

/// Pages of their words hold a memory: those of a list that were made are pages of zeros, and those of a class that were filled have the words of
/// their texts.
pub fn pages_hold_a_memory()
    ensures zeros { MadePagesAreZero }
    ensures filled { FilledPagesHaveTheirWords }
    ensures held { PagesHoldMemory }
{}
