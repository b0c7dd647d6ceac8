//! The runs of a program on systems of their own, in both machines.
ghost use Rattle.std.specs.Prelude.{◌≡◌, ◌≤◌, ◌^◌, IfOk, Some};
ghost use Rattle.command_translate.specs.Make.{IsEndOfTranslation, interp_end, made_name};

use crate::classes::machine_of;
use command_deeds::{Done, play_alone};
use elf_image::Image;
use mips_machine::Mips;
use nv_translate::{allow, need, translate_files};
use nv_values::{ClassName, MethodBytes};
use std::alloc::{AllocError, Global};

/// The name of the program.
const NAME: &str = "Main";

/// How a program ends in the reference machine within so many steps.
pub fn run_image(alloc: Global, image: &Image, steps: u64, moment: u64) -> Result<Done, AllocError>
    ensures { IfOk result (λ end. interp_end steps moment image.now ≡ Some end) }
{
    let mips = Mips::load(alloc, image)?;
    play_alone(alloc, NAME, moment, mips, steps)
}

/// How the classes of a program end within as many instructions as so many steps allow.
pub fn run_translated(
    alloc: Global,
    image: Image,
    method_bytes: MethodBytes,
    steps: u64,
    moment: u64,
) -> Result<Done, AllocError>
    requires steps { steps ≤ 2 ^ 40 }
    ensures { IfOk result (IsEndOfTranslation steps moment image method_bytes) }
{
    let name = class_name(alloc)?;
    image.laws();
    let bound = allow(image.mapped(), steps);
    let words = need(&image);
    let files = translate_files(alloc, image, &name, method_bytes)?;
    let jvm = machine_of(alloc, words, files.as_slice())?;
    play_alone(alloc, NAME, moment, jvm, bound)
}

/// The name of the program, as that of its main class.
fn class_name(alloc: Global) -> Result<ClassName, AllocError>
    ensures { IfOk result (λ name. name ≡ made_name) }
{
    match ClassName::new(String::from_str(alloc, NAME)?) {
        Some(name) => Ok(name),
        None => unreachable!(),
    }
}
