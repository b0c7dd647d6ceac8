//! The main class.
ghost use Rattle.std.specs.Prelude.{IfOk};
ghost use Rattle.translate_classes.specs.Content.{IsMain};
ghost use Rattle.translate_classes.specs.Main.{IsMainClass};

use crate::NoMemory;
use crate::content::MainClass;
use crate::main_naming::named_class;
use crate::methods::{add_helpers, add_others};
use nv_values::ClassName;
use std::alloc::Global;

/// The main class of this name as a class file: the fields, the helper methods, `run()V`, `choose()V`, `pages(Ljava/lang/String;)V` and
/// `missing()V`, in this order. Its pool names the classes of code and then those of data, each in order.
///
/// # Errors
/// NoMemory alone.
pub fn main_class(alloc: Global, name: &ClassName, main: &MainClass) -> Result<Vec<u8>, NoMemory>
    requires main { IsMain main.now }
    ensures { IfOk result (λ bytes. IsMainClass name.now main.now bytes.items) }
{
    let named = named_class(alloc, name, main)?;
    let mut class = named.class;
    let references = named.names.with_methods(0, named.methods);
    add_helpers(alloc, &mut class, main.beginning.order, &references)?;
    add_others(alloc, &mut class, main, named.texts.as_slice(), &references)?;
    Ok(class.finish(alloc)?)
}
