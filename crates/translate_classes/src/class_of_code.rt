//! Classes of code.
ghost use Rattle.std.specs.Prelude.{◌≡◌, ◌+◌, ◌*◌, ◌≤◌, ◌<◌, ◌^◌, ◌∷◌, ◌++◌, [], All, IfOk, OnOk, length};
ghost use Rattle.emit_methods_laws.specs.Naming.{fields_of};
ghost use Rattle.translate_classes.specs.Parts.{IsCode};
ghost use Rattle.translate_classes.specs.Making.{AddsMethods};
ghost use Rattle.translate_classes.specs.Tables.{references_of};
ghost use Rattle.translate_classes.specs.Code.{IsCodeClass, run_plan, span_plans};
ghost use Rattle.translate_classes.specs.Blocks.{pieces_of_class};

use crate::NoMemory;
use crate::code_naming::named_class;
use crate::divided_part::DividedPart;
use crate::names::Names;
use crate::other_class::OtherClass;
use crate::piece::Piece;
use crate::running::add_run;
use crate::spans::add_spans;
use emit_classes::ClassBuilder;
use jvm_definition::Sequence;
use nv_values::ClassName;
use std::alloc::Global;

/// A class of code as a class file, with where its pieces are.
#[derive(Drop)]
pub struct CodeClass {
    pub bytes: Vec<u8>,
    pub pieces: Vec<Piece>,
}

/// The class of code of a number, with the main class `main`: a method for each span, whose number in the program is that of the first one
/// and the span's, and after them `run()V`, which calls these methods as long as the guest is in the class's words.
///
/// # Errors
/// NoMemory alone.
pub fn code_class(
    alloc: Global,
    main: &ClassName,
    number: u32,
    divided: &DividedPart<'_>,
    first_method: u32,
) -> Result<CodeClass, NoMemory>
    requires number { number < 2 ^ 15 }
    requires code { IsCode divided.now.part.now.units.now }
    requires methods { first_method + length divided.now.spans.now < 2 ^ 32 }
    ensures class { IfOk result (λ made. IsCodeClass main.now number divided.now.part.now
        divided.now.spans.now first_method made.bytes.items) }
    ensures pieces { IfOk result (λ made. made.pieces.items
        ≡ pieces_of_class divided.now.part.now divided.now.spans.now) }
    ensures pieces_within { IfOk result (λ made.
        All (λ p. p.span < length divided.now.spans.now) made.pieces.items) }
{
    let DividedPart { part, spans } = *divided;
    let name = OtherClass::Code.name(alloc, main, number)?;
    let named = named_class(alloc, name.as_str(), main, part.metered, spans.len() as u32)?;
    let mut class = named.class;
    let pieces = add_methods(
        alloc,
        &mut class,
        divided,
        first_method,
        named.names,
        named.helpers,
        named.own_methods,
    )?;
    let bytes = class.finish(alloc)?;
    Ok(CodeClass { bytes, pieces })
}

// Adds the methods of spans, which call helpers, and behind them the one that calls the methods of spans. Gives where the pieces stand.
fn add_methods(
    alloc: Global,
    class: &mut ClassBuilder,
    divided: &DividedPart<'_>,
    first_method: u32,
    names: Names,
    helpers: Vec<u16>,
    own_methods: Vec<u16>,
) -> Result<Vec<Piece>, NoMemory>
    requires code { IsCode divided.now.part.now.units.now }
    requires methods { first_method + length divided.now.spans.now < 2 ^ 32 }
    requires fields { length names.fields.items ≡ fields_of divided.now.part.now.metered }
    requires helpers { length helpers.items ≡ 20 }
    requires own { length own_methods.items ≡ length divided.now.spans.now }
    requires none { class.old.methods ≡ [] }
    requires room { length class.old.pool ≤ 267 + 4 * length divided.now.spans.now }
    ensures methods { OnOk result (AddsMethods class.old class.new
        (span_plans divided.now.part.now divided.now.spans.now
        (references_of names 0 helpers.items) (length divided.now.spans.now)
        ++ run_plan divided.now.part.now divided.now.spans.now first_method
        (references_of names first_method own_methods.items) ∷ [])) }
    ensures pieces { IfOk result (λ pieces. pieces.items
        ≡ pieces_of_class divided.now.part.now divided.now.spans.now) }
{
    let DividedPart { part, spans } = *divided;
    let mut references = names.with_methods(0, helpers);
    let pieces = add_spans(alloc, class, part, spans, &references)?;
    references.first_method = first_method;
    references.methods = Sequence::new(own_methods);
    add_run(alloc, class, part, spans, &references)?;
    Ok(pieces)
}
