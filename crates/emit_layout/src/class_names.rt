//! Classes, their files, and the methods of spans.
ghost use Rattle.std.specs.Prelude.{◌≡◌, IfOk, string_bytes};
ghost use Rattle.emit_layout.specs.ClassNames as names;

use crate::NoMemory;
use crate::numbered::{joined, numbered};
use std::alloc::Global;

/// The class of code of this number, counted from 0: the name of the main class, `_` and the number.
pub fn code_class_name(alloc: Global, main: &str, i: u32) -> Result<String, NoMemory>
    ensures { IfOk result (λ text. string_bytes text ≡ names.code_class_name main.now i) }
{
    numbered(alloc, main, "_", i)
}

/// The class of data of this number, counted from 0: the name of the main class, `_D` and the number.
pub fn data_class_name(alloc: Global, main: &str, i: u32) -> Result<String, NoMemory>
    ensures { IfOk result (λ text. string_bytes text ≡ names.data_class_name main.now i) }
{
    numbered(alloc, main, "_D", i)
}

/// The file of a class.
pub fn file_name(alloc: Global, class: &str) -> Result<String, NoMemory>
    ensures { IfOk result (λ text. string_bytes text ≡ names.file_name class.now) }
{
    joined(alloc, class, ".class")
}

/// The method of the span of this number, counted from 0 in its class: `s` and the number.
pub fn span_name(alloc: Global, k: u32) -> Result<String, NoMemory>
    ensures { IfOk result (λ text. string_bytes text ≡ names.span_name k) }
{
    numbered(alloc, "", "s", k)
}
