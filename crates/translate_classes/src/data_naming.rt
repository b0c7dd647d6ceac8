//! What a class of data names.
ghost use Rattle.std.specs.Prelude.{◌≡◌, ◌+◌, ◌≤◌, true, [], All, length, IfOk, OnOk, map};
ghost use Rattle.std.specs.List.{AllZip};
ghost use Rattle.translate_classes.specs.Making.{AddsMethods};
ghost use Rattle.translate_classes.specs.Pages.{IsPageSlot, page_of};
ghost use Rattle.translate_classes.specs.DataNaming.{IsNamedClass};
ghost use Rattle.translate_classes.specs.Room.{is_own_name};

use crate::building::{class_reference, method_reference, new_class};
use crate::names::Names;
use crate::page_data::PageData;
use crate::{NoMemory, building};
use data_strings::page_text;
use emit_classes::ClassBuilder;
use emit_loading::PageSlot;
use nv_values::ClassName;
use std::alloc::Global;

/// A class of data without methods, with the slots of all that its methods name.
#[derive(Drop)]
pub struct NamedClass {
    pub class: ClassBuilder,
    pub names: Names,
    /// The class itself.
    pub own: u16,
    /// Its method `words`.
    pub words: u16,
    /// Its pages, by the slots of their texts.
    pub texts: Vec<PageSlot>,
}

/// The class of this name, with these pages, of the program whose main class is called `main`.
pub fn named_class(
    alloc: Global,
    name: &str,
    main: &ClassName,
    pages: &[PageData],
) -> Result<NamedClass, NoMemory>
    requires name { is_own_name name.now ≡ true }
    requires pages { length pages.now ≤ 1024 }
    requires words { All (λ p. length p.words.now ≤ 1024) pages.now }
    ensures names { IfOk result (IsNamedClass name.now main.now (map page_of pages.now)) }
    ensures few { IfOk result (λ n. length n.class.pool ≤ 1215) }
{
    let mut class = new_class(alloc, name)?;
    let own = class_reference(alloc, &mut class, name)?;
    let names = Names::new(alloc, &mut class, main, false)?;
    let words = method_reference(alloc, &mut class, own, "words", "([ILjava/lang/String;)V")?;
    let texts = page_slots(alloc, &mut class, pages)?;
    Ok(NamedClass {
        class,
        names,
        own,
        words,
        texts,
    })
}

// The texts of pages, by the slots of their characters.
fn page_slots(
    alloc: Global,
    class: &mut ClassBuilder,
    pages: &[PageData],
) -> Result<Vec<PageSlot>, NoMemory>
    requires room { length class.old.pool + length pages.now ≤ 65534 }
    requires words { All (λ p. length p.words.now ≤ 1024) pages.now }
    ensures there { IfOk result (λ slots.
        AllZip (IsPageSlot class.new.pool) slots.items (map page_of pages.now)) }
    ensures grown { OnOk result (AddsMethods class.old class.new []) }
    ensures few { OnOk result (length class.new.pool ≤ length class.old.pool + length pages.now) }
{
    let mut slots = Vec::new(alloc);
    for k in 0..pages.len() {
        slots.push(page_slot(alloc, class, &pages[k])?)?;
    }
    Ok(slots)
}

fn page_slot(alloc: Global, class: &mut ClassBuilder, page: &PageData) -> Result<PageSlot, NoMemory>
    requires room { length class.old.pool + 1 ≤ 65534 }
    requires words { length page.now.words.now ≤ 1024 }
    ensures there { IfOk result (λ slot. IsPageSlot class.new.pool slot (page_of page.now)) }
    ensures grown { OnOk result (AddsMethods class.old class.new []) }
    ensures few { OnOk result (length class.new.pool ≤ length class.old.pool + 1) }
{
    let text = page_text(alloc, page.words)?;
    let slot = building::text(class, text)?;
    Ok(PageSlot {
        page: page.page,
        slot,
    })
}
