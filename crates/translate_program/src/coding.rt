//! One class of code as a file.
ghost use Rattle.std.specs.Prelude.{◌≡◌, ◌+◌, ◌≤◌, ◌<◌, ◌^◌, All, IfOk, length};
ghost use Rattle.translate_classes.specs.Parts.{IsCode, IsSpan};
ghost use Rattle.translate_program.specs.Adding.{IsFileOfCode};
ghost use Rattle.translate_program.specs.Classes.{span_info, span_infos};

use crate::NoMemory;
use crate::named_file::NamedFile;
use crate::span_info::SpanInfo;
use crate::spans::spans_of;
use emit_layout::{code_class_name, file_name};
use method_splitter::Span;
use nv_values::{ClassName, MethodBytes};
use std::alloc::Global;
use translate_classes::{DividedPart, Part, Piece, code_class};

/// A class of code as a file, and where its words are.
#[derive(Drop)]
pub struct FileOfCode {
    pub file: NamedFile,
    pub spans: Vec<SpanInfo>,
    /// The pieces of the spans, which are counted in the class.
    pub pieces: Vec<Piece>,
    /// The number of its method `run()V`, which is its last, in the program.
    pub run: u32,
}

/// The class of code after so many others, of a part of the code. Its first method has the number `first_method` in the program.
pub fn code_file(
    alloc: Global,
    part: &Part,
    name: &ClassName,
    classes: usize,
    first_method: u32,
    method_bytes: MethodBytes,
) -> Result<FileOfCode, NoMemory>
    requires code { IsCode part.now.units.now }
    requires some { 1 ≤ part.now.words }
    requires few { part.now.words ≤ 6144 }
    requires classes { classes < 2 ^ 15 }
    requires methods { first_method < 2 ^ 31 }
    ensures value { IfOk result (IsFileOfCode name.now method_bytes classes first_method part.now) }
    ensures run { IfOk result (λ made. made.run ≤ first_method + 879) }
    ensures spans { IfOk result (λ made. length made.spans.items ≤ 879) }
    ensures pieces { IfOk result (λ made. All (λ p. p.span < 2048) made.pieces.items) }
{
    let spans = spans_of(alloc, part, method_bytes)?;
    let number = classes as u32;
    let run = first_method + spans.as_slice().len() as u32;
    let divided = DividedPart {
        part: &*part,
        spans: spans.as_slice(),
    };
    let made = code_class(alloc, name, number, &divided, first_method)?;
    let infos = span_infos(alloc, part, number, spans.as_slice())?;
    let class_name = code_class_name(alloc, name.as_str(), number)?;
    let file_name = file_name(alloc, class_name.as_str())?;
    let mut bytes = made.bytes;
    bytes.shrink_to_fit();
    Ok(FileOfCode {
        file: NamedFile {
            name: file_name,
            bytes,
        },
        spans: infos,
        pieces: made.pieces,
        run,
    })
}

fn span_infos(
    alloc: Global,
    part: &Part,
    class: u32,
    spans: &[Span],
) -> Result<Vec<SpanInfo>, NoMemory>
    requires spans { All (IsSpan part.now.words) spans.now }
    requires few { length spans.now ≤ 2048 }
    ensures { IfOk result (λ infos. infos.items
        ≡ span_infos class part.now spans.now (length spans.now)) }
{
    let mut infos = Vec::new(alloc);
    for k in 0..spans.len() as u32 {
        infos.push(span_info(part, class, spans, k))?;
    }
    Ok(infos)
}

fn span_info(part: &Part, class: u32, spans: &[Span], k: u32) -> SpanInfo
    requires spans { All (IsSpan part.now.words) spans.now }
    requires within { k < length spans.now }
    ensures { result ≡ span_info class part.now spans.now k }
{
    let span = &spans[k as usize];
    SpanInfo {
        class,
        method: k,
        first: part.start + 4 * (part.first + span.first),
        words: span.words,
    }
}
