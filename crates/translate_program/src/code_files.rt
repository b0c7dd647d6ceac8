//! The classes of code.
ghost use Rattle.std.specs.Prelude.{◌≡◌, ℕ, ◌+◌, ◌≤◌, ◌<◌, ◌^◌, ◌++◌, ◌∷◌, [], All, List, Option, IfOk, OnOk, length, map};
ghost use Rattle.method_splitter.specs.Shares.{share_count};
ghost use Rattle.translate_classes.specs.Parts.{IsCode};
ghost use Rattle.translate_program.specs.Places.{Place, class_words, places_in};
ghost use Rattle.translate_program.specs.Classes.{starts_at};
ghost use Rattle.translate_program.specs.Parts.{IsLow};
ghost use Rattle.translate_program.specs.Ranges.{AreRangesOf, IsRangeOf, range_of};
ghost use Rattle.translate_program.specs.Blocks.{block_of, told_of};
ghost use Rattle.translate_program.specs.Adding.{AddsClass, HasFew, HasPlaces, IsCodeOf};

use crate::NoMemory;
use crate::block_info::BlockInfo;
use crate::code_layout::{add_starts, list_blocks};
use crate::coding::{FileOfCode, code_file};
use crate::named_file::NamedFile;
use crate::parts::{keep_part, part_at, part_count};
use crate::ranges::Ranges;
use crate::span_info::SpanInfo;
use crate::told_blocks::ToldBlocks;
use elf_image_parts::RangeCode;
use emit_layout::METHODS;
use nv_values::{ClassName, MethodBytes};
use std::alloc::Global;
use trampoline::Start;
use translate_classes::Part;

/// The classes of code so far, in the order of the code.
#[derive(Drop)]
pub struct Code {
    pub files: Vec<NamedFile>,
    pub spans: Vec<SpanInfo>,
    /// The blocks that are told.
    pub blocks: Vec<BlockInfo>,
    /// Whether they are.
    pub told: ToldBlocks,
    /// Where each class begins, by the number of its method `run()V`, and where each range ends, by the number of `missing()V`.
    pub starts: Vec<Start>,
    /// The number of the method `run()V` of each class.
    pub runs: Vec<u32>,
    /// How many methods the program has so far, those of the main class included.
    pub methods: u32,
}

/// All classes of code of an image, for the program whose main class is called `name`: 1 to 235. The code of each span's method has at most
/// `method_bytes` bytes by its words' weights. With a meter each unit's turns are taken off before it. Each range is let go once its classes
/// are made.
///
/// # Errors
/// Out of memory for the classes.
pub fn code_of(
    alloc: Global,
    ranges: Ranges,
    name: &ClassName,
    method_bytes: MethodBytes,
    metered: bool,
    told: ToldBlocks,
) -> Result<Code, NoMemory>
    requires { AreRangesOf ranges.image.value ranges.items.items }
    ensures code { IfOk result (IsCodeOf metered ranges.image.value name.now method_bytes) }
    ensures told { IfOk result (λ code. code.told ≡ told) }
    ensures some { IfOk result (λ code. 1 ≤ length code.files.items) }
    ensures few { IfOk result (λ code. length code.files.items ≤ 235) }
    ensures methods { IfOk result (λ code. code.methods < 2 ^ 31) }
{
    let mut code = Code {
        files: Vec::new(alloc),
        spans: Vec::new(alloc),
        blocks: Vec::new(alloc),
        told,
        starts: Vec::new(alloc),
        runs: Vec::new(alloc),
        methods: METHODS,
    };
    for range in ranges.items {
        add_range(alloc, &mut code, range, name, method_bytes, metered)?;
    }
    Ok(code)
}

// The classes of a range.
fn add_range(
    alloc: Global,
    code: &mut Code,
    range: RangeCode,
    name: &ClassName,
    method_bytes: MethodBytes,
    metered: bool,
) -> Result<(), NoMemory>
    requires code { IsCode range.units }
    requires low { IsLow range (length range.units) }
    requires classes { length code.old.files.items + share_count class_words (length range.units)
        ≤ 235 }
    requires few { HasFew code.old }
    ensures few { OnOk result (HasFew code.new) }
    ensures told { OnOk result (code.new.told ≡ code.old.told) }
    ensures places { OnOk result ((words : ℕ → Option ℕ) (places : List Place)
        → IsRangeOf words range
        → HasPlaces metered words name.now method_bytes places code.old
        → HasPlaces metered words name.now method_bytes (places
        ++ places_in (range_of range)) code.new) }
{
    let mut kept = range;
    let words = kept.units.len() as u32;
    for k in 0..part_count(words) {
        keep_part(alloc, &mut kept, words, k)?;
        let part = part_at(metered, &kept, words, k);
        add_class(alloc, code, &part, name, method_bytes)?;
    }
    Ok(())
}

// The class of a part of the code.
fn add_class(
    alloc: Global,
    code: &mut Code,
    part: &Part,
    name: &ClassName,
    method_bytes: MethodBytes,
) -> Result<(), NoMemory>
    requires code { IsCode part.now.units.now }
    requires some { 1 ≤ part.now.words }
    requires few_words { part.now.words ≤ 6144 }
    requires classes { length code.old.files.items < 235 }
    requires few { HasFew code.old }
    ensures added { OnOk result (AddsClass name.now method_bytes part.now code.old code.new) }
    ensures few { OnOk result (HasFew code.new) }
{
    let file = code_file(
        alloc,
        part,
        name,
        code.files.len(),
        code.methods,
        method_bytes,
    )?;
    add_file(code, part, file)?;
    Ok(())
}

// A class behind the others.
fn add_file(code: &mut Code, part: &Part, file: FileOfCode) -> Result<(), NoMemory>
    requires run { file.run + 1 < 2 ^ 32 }
    requires before { length code.old.spans.items < 2 ^ 31 }
    requires pieces { All (λ p. p.span < 2048) file.pieces.items }
    ensures files { OnOk result (code.new.files.items ≡ code.old.files.items ++ file.file ∷ []) }
    ensures starts { OnOk result (code.new.starts.items ≡ code.old.starts.items
        ++ starts_at part.now file.run) }
    ensures runs { OnOk result (code.new.runs.items ≡ code.old.runs.items ++ file.run ∷ []) }
    ensures spans { OnOk result (code.new.spans.items ≡ code.old.spans.items ++ file.spans.items) }
    ensures blocks { OnOk result (code.new.blocks.items ≡ code.old.blocks.items
        ++ told_of code.old.told
        (map (block_of (length code.old.spans.items)) file.pieces.items)) }
    ensures told { OnOk result (code.new.told ≡ code.old.told) }
    ensures methods { OnOk result (code.new.methods ≡ file.run + 1) }
{
    let before = code.spans.len() as u32;
    list_blocks(code.told, &mut code.blocks, before, file.pieces.as_slice())?;
    let mut spans = file.spans;
    code.spans.append(&mut spans)?;
    add_starts(&mut code.starts, part, file.run)?;
    code.runs.push(file.run)?;
    code.methods = file.run + 1;
    code.files.push(file.file)?;
    Ok(())
}
