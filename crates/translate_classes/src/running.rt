//! The method `run()V` of a class of code.
ghost use Rattle.std.specs.Prelude.{◌≡◌, ◌+◌, ◌≤◌, ◌<◌, ◌^◌, ◌∷◌, [], All, IfOk, OnOk, length};
ghost use Rattle.translate_classes.specs.Parts.{IsSpan};
ghost use Rattle.translate_classes.specs.Making.{AddsMethods};
ghost use Rattle.translate_classes.specs.Code.{address, run_plan, start_at, starts_of};

use crate::NoMemory;
use crate::building::put_method;
use crate::part::Part;
use emit_assembly::References;
use emit_classes::ClassBuilder;
use emit_limits::slot_laws::choosers_take_few_slots;
use emit_methods_laws::named_code::choosers_name_well;
use emit_methods_laws::whole::choosers_are_whole;
use method_splitter::Span;
use std::alloc::Global;
use trampoline::{Start, append_class_chooser};

/// Adds `run()V`, which chooses among the methods of spans. The first of these has the number of the first method of the references.
pub fn add_run(
    alloc: Global,
    class: &mut ClassBuilder,
    part: &Part,
    spans: &[Span],
    references: &References,
) -> Result<(), NoMemory>
    requires spans { All (IsSpan part.now.words) spans.now }
    requires some { 1 ≤ length spans.now }
    requires few { length spans.now ≤ 2048 }
    requires methods { references.now.first_method + length spans.now < 2 ^ 32 }
    requires fields { 38 ≤ length references.now.fields }
    requires count { length references.now.methods ≡ length spans.now }
    requires few_methods { length class.old.methods < 65535 }
    requires room { length class.old.pool + (6 + length spans.now) ≤ 65534 }
    ensures { OnOk result (AddsMethods class.old class.new
        (run_plan part.now spans.now references.now.first_method references.now ∷ [])) }
{
    let starts = starts_of(alloc, part, spans, references.first_method)?;
    let mut code = Vec::new(alloc);
    append_class_chooser(
        starts.as_slice(),
        address(part, 0),
        address(part, part.words),
        &mut code,
    )?;
    choosers_name_well();
    choosers_are_whole();
    choosers_take_few_slots();
    put_method(alloc, class, "run", "()V", 1, code.as_slice(), references)?;
    Ok(())
}

// Where the methods of spans begin.
fn starts_of(
    alloc: Global,
    part: &Part,
    spans: &[Span],
    first_method: u32,
) -> Result<Vec<Start>, NoMemory>
    requires spans { All (IsSpan part.now.words) spans.now }
    requires few { length spans.now ≤ 2048 }
    requires methods { first_method + length spans.now < 2 ^ 32 }
    ensures value { IfOk result (λ starts. starts.items
        ≡ starts_of part.now spans.now first_method (length spans.now)) }
    ensures count { IfOk result (λ starts. length starts.items ≡ length spans.now) }
{
    let mut starts = Vec::new(alloc);
    for k in 0..spans.len() as u32 {
        starts.push(start_at(part, spans, k, first_method))?;
    }
    Ok(starts)
}

fn start_at(part: &Part, spans: &[Span], k: u32, first_method: u32) -> Start
    requires spans { All (IsSpan part.now.words) spans.now }
    requires within { k < length spans.now }
    requires methods { first_method + length spans.now < 2 ^ 32 }
    ensures { result ≡ start_at part.now spans.now first_method k }
{
    Start {
        first: address(part, spans[k as usize].first),
        method: first_method + k,
    }
}

// The address of a word of the part, or of the one behind the last.
fn address(part: &Part, k: u32) -> u32
    requires within { k ≤ part.now.words }
    ensures { result ≡ address part.now k }
{
    part.start + 4 * (part.first + k)
}
