//! What every class names.
ghost use Rattle.std.specs.Prelude.{◌+◌, ◌≤◌, ◌++◌, length, OnOk, IfOk};
ghost use Rattle.emit_classes.specs.Built.{GrowsPool};
ghost use Rattle.emit_classes.specs.Mentioned.{Mentions, mentioned};
ghost use Rattle.emit_methods_laws.specs.Naming.{fields_of};
ghost use Rattle.translate_classes.specs.Mentioned.{names_mentions};
ghost use Rattle.translate_classes.specs.Named.{AreNames};

use crate::NoMemory;
use crate::building::class_reference;
use crate::known_fields::field_references;
use crate::main_fields::fields_of;
use crate::two_methods::{TwoMethods, two_methods};
use emit_classes::ClassBuilder;
use nv_values::ClassName;
use std::alloc::Global;

/// The slots of what every class of a program names in its pool.
#[derive(Drop)]
pub struct Names {
    /// The main class.
    pub main: u16,
    /// Fields of the main class, by their numbers.
    pub fields: Vec<u16>,
    /// The class `nestedvm/Host` with its methods `call` and `fault`.
    pub host: TwoMethods,
    /// The class `java/lang/String` with its methods `length` and `charAt`.
    pub strings: TwoMethods,
    /// The class `[I`.
    pub ints: u16,
}

impl Names {
    /// Names all of it in a class of the program whose main class is called `main`, and with a meter its field too.
    pub fn new(
        alloc: Global,
        class: &mut ClassBuilder,
        main: &ClassName,
        metered: bool,
    ) -> Result<Names, NoMemory>
        requires room { length class.old.pool + 180 ≤ 65534 }
        ensures there { IfOk result (AreNames (fields_of metered) class.new.pool main.now) }
        ensures grown { OnOk result (GrowsPool class.old class.new 180) }
        ensures mentions { OnOk result (Mentions class.new.pool (mentioned class.old.pool
            ++ names_mentions (fields_of metered) main.now)) }
    {
        let main = class_reference(alloc, class, main.as_str())?;
        let fields = field_references(alloc, class, main, fields_of(metered))?;
        let host = two_methods(
            alloc,
            class,
            "nestedvm/Host",
            ("call", "([[I[[IIIIII)I"),
            ("fault", "(III)V"),
        )?;
        let strings = two_methods(
            alloc,
            class,
            "java/lang/String",
            ("length", "()I"),
            ("charAt", "(I)C"),
        )?;
        let ints = class_reference(alloc, class, "[I")?;
        Ok(Names {
            main,
            fields,
            host,
            strings,
            ints,
        })
    }
}
