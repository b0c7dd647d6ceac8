//! What holds of the methods that are emitted. Each call here does nothing: its contract is the law.

ghost use Rattle.std.specs.Prelude.{ℕ, ◌<◌, ◌≤◌, Bool, length};
ghost use Rattle.run_definition.specs.declared.order.Order.{Order};
ghost use Rattle.mem_helpers.specs.Methods.{helper_code};
ghost use Rattle.trampoline.specs.Choosers.{missing_method};
ghost use Rattle.emit_loading.specs.Pages.{pages_code};
ghost use Rattle.emit_loading.specs.Words.{words_code};
ghost use Rattle.emit_assembly.specs.declared.references.References.{References};
ghost use Rattle.emit_methods_laws.specs.Naming.{fields_of};
ghost use Rattle.emit_methods_laws.specs.Whole.{CanBeMethod, ClassChoosersAreWhole, FillsAreWhole, HasHelpers, MainChoosersAreWhole, RunsAreWhole, SpansAreWhole};

use crate::named_code::units_name_well;
use emit_limits::weight_laws::unit_code_keeps_to_its_bytes;
use emit_simulation_laws::unit_laws::{needed_is_known, units_are_lawful};
use emit_spans::laws::no_switch_needs_padding;
use emit_types_laws::laws::{guards_are_typed, units_are_typed};
use emit_types_laws::typed_methods::{choosers_are_typed, helpers_are_typed, loading_is_typed};
use emit_types_laws::typed_spans::spans_are_typed;

/// The code of a span of a range's words can be the code of a method, if there is a word and it has at most 65,535 bytes.
pub fn spans_are_whole()
    ensures { SpansAreWhole }
{
    needed_is_known();
    units_are_lawful();
    units_are_typed();
    guards_are_typed();
    units_name_well();
    unit_code_keeps_to_its_bytes();
    spans_are_typed();
    no_switch_needs_padding();
}

/// So can the codes of the methods that choose, among at most 2,048 methods that the table has, and that for addresses outside all code.
pub fn choosers_are_whole()
    ensures class { ClassChoosersAreWhole }
    ensures main { MainChoosersAreWhole }
    ensures missing { (r : References) (metered : Bool) → fields_of metered ≤ length r.fields
        → CanBeMethod r (missing_method metered) }
{
    choosers_are_typed();
}

/// So can the codes of the methods that make pages and put words into them, for at most 2,048 texts, and that with which the program begins.
pub fn loading_is_whole()
    ensures pages { (r : References) → 38 ≤ length r.fields → CanBeMethod r pages_code }
    ensures words { (r : References) → 38 ≤ length r.fields → CanBeMethod r words_code }
    ensures fill { FillsAreWhole }
    ensures run { RunsAreWhole }
{
    loading_is_typed();
}

/// So can the code of each helper.
pub fn helpers_are_whole()
    ensures { (r : References) (order : Order) (number : ℕ) → HasHelpers r → number < 20
        → CanBeMethod r (helper_code order number) }
{
    helpers_are_typed();
}
