//! The classes beside the main class, of which it calls one method each.
ghost use Rattle.std.specs.Prelude.{◌≡◌, ◌<◌, ◌^◌, true, IfOk, string_bytes};
ghost use Rattle.translate_classes.specs.Called as called;
ghost use Rattle.translate_classes.specs.Room.{is_own_name};

use crate::NoMemory;
use emit_layout::{code_class_name, data_class_name};
use nv_values::ClassName;
use std::alloc::Global;

/// Whether a class has code or data.
#[derive(Clone, Copy)]
pub enum OtherClass {
    Code,
    Data,
}

impl OtherClass {
    /// The name of the class of this kind and number, of the program whose main class is called `main`.
    pub fn name(self, alloc: Global, main: &ClassName, i: u32) -> Result<String, NoMemory>
        requires { i < 2 ^ 15 }
        ensures value { IfOk result (λ text. string_bytes text
            ≡ called.class_name self main.now i) }
        ensures own { IfOk result (λ text. is_own_name (string_bytes text) ≡ true) }
    {
        let main = main.as_str();
        match self {
            OtherClass::Code => code_class_name(alloc, main, i),
            OtherClass::Data => data_class_name(alloc, main, i),
        }
    }

    /// The name of the method that is called, which has no arguments.
    pub fn method(self) -> &'static str
        ensures { result.now ≡ called.method_name self }
    {
        match self {
            OtherClass::Code => "run",
            OtherClass::Data => "fill",
        }
    }
}
