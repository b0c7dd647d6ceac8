//! What the main class names.
ghost use Rattle.std.specs.Prelude.{◌≡◌, ◌≤◌, ◌++◌, IfOk, length};
ghost use Rattle.emit_layout.specs.Numbers.{main_methods};
ghost use Rattle.translate_classes.specs.Content.{IsMain, behind};
ghost use Rattle.translate_classes.specs.MainNaming.{IsNamedClass};

use crate::NoMemory;
use crate::building::new_class;
use crate::content::MainClass;
use crate::main_fields::{add_fields, fields_of};
use crate::names::Names;
use crate::references::method_references;
use crate::texts::text_slots;
use emit_classes::ClassBuilder;
use nv_values::ClassName;
use std::alloc::Global;

/// The main class without methods, with the slots of all that its methods name.
#[derive(Drop)]
pub struct NamedClass {
    pub class: ClassBuilder,
    pub names: Names,
    /// The methods that are called, by their numbers in the program.
    pub methods: Vec<u16>,
    /// The texts of pages.
    pub texts: Vec<u16>,
}

/// The main class of this name, with its fields.
pub fn named_class(
    alloc: Global,
    name: &ClassName,
    main: &MainClass,
) -> Result<NamedClass, NoMemory>
    requires main { IsMain main.now }
    ensures names { IfOk result (IsNamedClass name.now main.now) }
    ensures count { IfOk result (λ n. length n.methods.items
        ≡ behind main_methods (main.now.code.now ++ main.now.data.now)) }
    ensures few { IfOk result (λ n. length n.class.pool ≤ 30000) }
{
    let mut class = new_class(alloc, name.as_str())?;
    let metered = main.meter.is_some();
    add_fields(alloc, &mut class, fields_of(metered))?;
    let names = Names::new(alloc, &mut class, name, metered)?;
    let methods = method_references(alloc, &mut class, name, names.main, main)?;
    let texts = text_slots(alloc, &mut class, main.runs)?;
    Ok(NamedClass {
        class,
        names,
        methods,
        texts,
    })
}
