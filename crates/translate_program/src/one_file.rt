//! One class of data as a file.
ghost use Rattle.std.specs.Prelude.{◌≤◌, ◌<◌, ◌^◌, All, IfOk, length, map};
ghost use Rattle.translate_classes.specs.Pages.{page_of};
ghost use Rattle.translate_program.specs.DataFiles.{IsFileOfPages};

use crate::NoMemory;
use crate::named_file::NamedFile;
use emit_layout::{data_class_name, file_name};
use nv_values::ClassName;
use std::alloc::Global;
use translate_classes::{PageData, data_class};

/// The class of data of a number, with these pages, as a file. `class` is its number in the program, and `first_method` that of its first
/// method.
pub fn data_file(
    alloc: Global,
    name: &ClassName,
    number: u16,
    class: u16,
    first_method: u32,
    pages: &[PageData],
) -> Result<NamedFile, NoMemory>
    requires number { number < 2 ^ 15 }
    requires pages { length pages.now ≤ 1024 }
    requires words { All (λ p. length p.words.now ≤ 1024) pages.now }
    ensures { IfOk result
        (IsFileOfPages name.now number class first_method (map page_of pages.now)) }
{
    let mut bytes = data_class(alloc, name, u32::from(number), class, first_method, pages)?;
    bytes.shrink_to_fit();
    let class_name = data_class_name(alloc, name.as_str(), u32::from(number))?;
    Ok(NamedFile {
        name: file_name(alloc, class_name.as_str())?,
        bytes,
    })
}
