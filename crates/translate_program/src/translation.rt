ghost use Rattle.std.specs.Prelude.{◌≡◌, ◌∷◌, ◌++◌, IfOk, None, Some, is_some};
ghost use Rattle.translate_program.specs.Taking.{IsTaken};
ghost use Rattle.translate_program.specs.declared.told_blocks.ToldBlocks.TheVariants.{Listed};
ghost use Rattle.translate_program.specs.Translation.{AreFilesOf, IsTranslation, IsTranslationBy};

use crate::NoMemory;
use crate::built::Built;
use crate::code_files::code_of;
use crate::layout::Layout;
use crate::main_file::main_file;
use crate::named_file::NamedFile;
use crate::taking::{Taken, taken_from, taken_of};
use crate::told_blocks::ToldBlocks;
use elf_image::Image;
use nv_values::{ClassName, MeterTurns, MethodBytes};
use std::alloc::Global;

/// The classes of a program, as files.
///
/// The main class has the name `name`. The classes of code have this name with `_0` and on, those of data with `_D0` and on. The code of
/// each span's method has at most `method_bytes` bytes.
///
/// # Errors
/// Out of memory for the classes.
pub fn translate(
    alloc: Global,
    image: &Image,
    name: &ClassName,
    method_bytes: MethodBytes,
) -> Result<Built, NoMemory>
    ensures { IfOk result (IsTranslation image.now name.now method_bytes) }
{
    translated(alloc, image, name, method_bytes, None)
}

/// The classes of a program with a meter, as files, as `translate` gives them without one.
///
/// They make at most `turns` instructions of the guest before they end by themselves, in the fault of a spent meter.
///
/// # Errors
/// Out of memory for the classes.
pub fn translate_metered(
    alloc: Global,
    image: &Image,
    name: &ClassName,
    method_bytes: MethodBytes,
    turns: MeterTurns,
) -> Result<Built, NoMemory>
    ensures { IfOk result (IsTranslationBy (Some turns) image.now name.now method_bytes) }
{
    translated(alloc, image, name, method_bytes, Some(turns))
}

/// The files of the classes of a program, as `translate` gives them. Where its blocks are is not told, and its image is let go before its code is
/// made: so both take no memory beside that code.
///
/// # Errors
/// Out of memory for the classes.
pub fn translate_files(
    alloc: Global,
    image: Image,
    name: &ClassName,
    method_bytes: MethodBytes,
) -> Result<Vec<NamedFile>, NoMemory>
    ensures { IfOk result (λ files.
        AreFilesOf None image name.now method_bytes files.items) }
{
    translated_files(alloc, image, name, method_bytes, None)
}

/// The files of the classes of a program with a meter, as `translate_metered` gives them, and made as `translate_files` makes them.
///
/// # Errors
/// Out of memory for the classes.
pub fn translate_files_metered(
    alloc: Global,
    image: Image,
    name: &ClassName,
    method_bytes: MethodBytes,
    turns: MeterTurns,
) -> Result<Vec<NamedFile>, NoMemory>
    ensures { IfOk result (λ files.
        AreFilesOf (Some turns) image name.now method_bytes files.items) }
{
    translated_files(alloc, image, name, method_bytes, Some(turns))
}

// The classes of a program, with a meter or without.
fn translated(
    alloc: Global,
    image: &Image,
    name: &ClassName,
    method_bytes: MethodBytes,
    meter: Option<MeterTurns>,
) -> Result<Built, NoMemory>
    ensures { IfOk result (IsTranslationBy meter image.now name.now method_bytes) }
{
    let taken = taken_of(alloc, image, name, method_bytes, meter.is_some())?;
    built_of(alloc, taken, name, method_bytes, meter, ToldBlocks::Listed)
}

// Their files.
fn translated_files(
    alloc: Global,
    image: Image,
    name: &ClassName,
    method_bytes: MethodBytes,
    meter: Option<MeterTurns>,
) -> Result<Vec<NamedFile>, NoMemory>
    ensures { IfOk result (λ files. AreFilesOf meter image name.now method_bytes files.items) }
{
    let taken = taken_from(alloc, image, name, method_bytes, meter.is_some())?;
    let built = built_of(alloc, taken, name, method_bytes, meter, ToldBlocks::Omitted)?;
    Ok(built.files)
}

// The classes of the program of which this was taken. Where its blocks are not told, the layout has none.
fn built_of(
    alloc: Global,
    taken: Taken,
    name: &ClassName,
    method_bytes: MethodBytes,
    meter: Option<MeterTurns>,
    told: ToldBlocks,
) -> Result<Built, NoMemory>
    requires { IsTaken (is_some meter) name.now method_bytes taken }
    ensures told { told ≡ Listed → IfOk result
        (IsTranslationBy meter taken.ranges.image.value name.now method_bytes) }
    ensures files { IfOk result (λ built.
        AreFilesOf meter taken.ranges.image.value name.now method_bytes built.files.items) }
{
    let Taken {
        ranges,
        head,
        stored,
        need,
    } = taken;
    let code = code_of(alloc, ranges, name, method_bytes, meter.is_some(), told)?;
    let main = main_file(alloc, &head, name, meter, &code, &stored)?;
    let files = files_of(alloc, main, code.files, stored.files)?;
    Ok(Built {
        files,
        layout: Layout {
            spans: code.spans,
            blocks: code.blocks,
            need,
        },
    })
}

// The main class, then those of code, then those of data.
fn files_of(
    alloc: Global,
    main: NamedFile,
    code: Vec<NamedFile>,
    stored: Vec<NamedFile>,
) -> Result<Vec<NamedFile>, NoMemory>
    ensures { IfOk result (λ files. files.items ≡ main ∷ (code.items ++ stored.items)) }
{
    let mut code = code;
    let mut stored = stored;
    let mut files = Vec::new(alloc);
    files.push(main)?;
    files.append(&mut code)?;
    files.append(&mut stored)?;
    Ok(files)
}
