//! The methods that the main class calls.
ghost use Rattle.std.specs.Prelude.{◌≡◌, ℕ, ◌+◌, ◌*◌, ◌≤◌, ◌<◌, true, ◌++◌, List, IfOk, OnOk, length};
ghost use Rattle.emit_layout.specs.Numbers.{main_methods};
ghost use Rattle.emit_classes.specs.Lawful.{has_class};
ghost use Rattle.emit_classes.specs.Named.{IsClassAt};
ghost use Rattle.translate_classes.specs.Making.{NamesMore};
ghost use Rattle.translate_classes.specs.Content.{IsMain, RiseFrom, behind};
ghost use Rattle.translate_classes.specs.Called.{AreMainMethods, AreOthers, AreOwnMethods, BeginsWith, IsOther};
ghost use Rattle.translate_classes.specs.MainMentioned.{called_mentions, other_mention, other_mentions, own_mentions};

use crate::NoMemory;
use crate::building::{class_reference, method_reference};
use crate::content::MainClass;
use crate::known_helpers::helper_references;
use crate::other_class::OtherClass;
use emit_classes::ClassBuilder;
use nv_values::ClassName;
use std::alloc::Global;

/// The slots of all methods that are called, by their numbers in the program, and 0 for the others. `own` is the slot of the main class.
pub fn method_references(
    alloc: Global,
    class: &mut ClassBuilder,
    name: &ClassName,
    own: u16,
    main: &MainClass,
) -> Result<Vec<u16>, NoMemory>
    requires main { IsMain main.now }
    requires owner { has_class class.old.pool own ≡ true }
    requires room { length class.old.pool
        + (92 + 6 * length main.now.code.now + 6 * length main.now.data.now) ≤ 65534 }
    ensures there { IfOk result (λ slots.
        AreMainMethods class.new.pool name.now own main.now slots.items) }
    ensures count { IfOk result (λ slots. length slots.items
        ≡ behind main_methods (main.now.code.now ++ main.now.data.now)) }
    ensures grown { OnOk result (IsClassAt class.old.pool own name.now
        → NamesMore class.old class.new (called_mentions name.now main.now)) }
    ensures few { OnOk result (length class.new.pool
        ≤ length class.old.pool
        + (92 + 6 * length main.now.code.now + 6 * length main.now.data.now)) }
{
    let mut slots = own_references(alloc, class, own)?;
    add_references(alloc, class, name, OtherClass::Code, main.code, &mut slots)?;
    add_references(alloc, class, name, OtherClass::Data, main.data, &mut slots)?;
    Ok(slots)
}

// The slots of the main class's own methods, but for the one that begins the program.
fn own_references(alloc: Global, class: &mut ClassBuilder, own: u16) -> Result<Vec<u16>, NoMemory>
    requires owner { has_class class.old.pool own ≡ true }
    requires room { length class.old.pool + 92 ≤ 65534 }
    ensures there { IfOk result (λ slots. AreOwnMethods class.new.pool own slots.items) }
    ensures count { IfOk result (λ slots. length slots.items ≡ 24) }
    ensures grown { OnOk result ((name : List ℕ) → IsClassAt class.old.pool own name
        → NamesMore class.old class.new (own_mentions name)) }
    ensures few { OnOk result (length class.new.pool ≤ length class.old.pool + 92) }
{
    let mut slots = helper_references(alloc, class, own)?;
    let choose = method_reference(alloc, class, own, "choose", "()V")?;
    let pages = method_reference(alloc, class, own, "pages", "(Ljava/lang/String;)V")?;
    let missing = method_reference(alloc, class, own, "missing", "()V")?;
    slots.push(0)?;
    slots.push(choose)?;
    slots.push(pages)?;
    slots.push(missing)?;
    Ok(slots)
}

// Behind other slots those of the method of each class of a kind, by the numbers of these methods in the program.
fn add_references(
    alloc: Global,
    class: &mut ClassBuilder,
    name: &ClassName,
    kind: OtherClass,
    numbers: &[u32],
    slots: &mut Vec<u16>,
) -> Result<(), NoMemory>
    requires few { length numbers.now ≤ 2048 }
    requires room { length class.old.pool + 6 * length numbers.now ≤ 65534 }
    requires rise { RiseFrom (length slots.old.items) numbers.now }
    ensures there { OnOk result (AreOthers class.new.pool name.now kind numbers.now slots.new.items
        (length numbers.now)) }
    ensures kept { OnOk result (BeginsWith slots.old.items slots.new.items) }
    ensures count { OnOk result (length slots.new.items
        ≡ behind (length slots.old.items) numbers.now) }
    ensures grown { OnOk result (NamesMore class.old class.new
        (other_mentions name.now kind (length numbers.now))) }
    ensures few { OnOk result (length class.new.pool
        ≤ length class.old.pool + 6 * length numbers.now) }
{
    for i in 0..numbers.len() as u32 {
        add_reference(alloc, class, name, kind, i, numbers[i as usize], slots)?;
    }
    Ok(())
}

// The slot of the method of one class, by its number in the program.
fn add_reference(
    alloc: Global,
    class: &mut ClassBuilder,
    name: &ClassName,
    kind: OtherClass,
    i: u32,
    number: u32,
    slots: &mut Vec<u16>,
) -> Result<(), NoMemory>
    requires within { i < 2048 }
    requires room { length class.old.pool + 6 ≤ 65534 }
    requires number { length slots.old.items ≤ number }
    ensures there { OnOk result (IsOther class.new.pool name.now kind i slots.new.items number) }
    ensures kept { OnOk result (BeginsWith slots.old.items slots.new.items) }
    ensures count { OnOk result (length slots.new.items ≡ number + 1) }
    ensures grown { OnOk result (NamesMore class.old class.new (other_mention name.now kind i)) }
    ensures few { OnOk result (length class.new.pool ≤ length class.old.pool + 6) }
{
    let other = kind.name(alloc, name, i)?;
    let owner = class_reference(alloc, class, other.as_str())?;
    let slot = method_reference(alloc, class, owner, kind.method(), "()V")?;
    fill_up(slots, number as usize)?;
    slots.push(slot)?;
    Ok(())
}

// Zeros behind slots, up to a number of them.
fn fill_up(slots: &mut Vec<u16>, count: usize) -> Result<(), NoMemory>
    requires { length slots.old.items ≤ count }
    ensures kept { OnOk result (BeginsWith slots.old.items slots.new.items) }
    ensures count { OnOk result (length slots.new.items ≡ count) }
{
    while slots.len() < count {
        slots.push(0)?;
    }
    Ok(())
}
