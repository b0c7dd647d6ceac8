//! The methods of the main class.
ghost use Rattle.std.specs.Prelude.{◌≡◌, ◌+◌, ◌<◌, ◌≤◌, ◌++◌, true, ◌∷◌, [], All, OnOk, length};
ghost use Rattle.emit_layout.specs.Numbers.{main_methods};
ghost use Rattle.emit_classes.specs.Lawful.{has_text};
ghost use Rattle.emit_methods_laws.specs.Naming.{fields_of};
ghost use Rattle.emit_methods_laws.specs.Whole.{HasHelpers};
ghost use Rattle.translate_classes.specs.Making.{AddsMethods};
ghost use Rattle.translate_classes.specs.Content.{IsMain, behind, main_fields};
ghost use Rattle.translate_classes.specs.Main.{choose_plan, helper_plan, helper_plans, missing_plan, other_plans, pages_plan, run_plan};

use crate::NoMemory;
use crate::building::put_method;
use crate::content::MainClass;
use emit_assembly::References;
use emit_classes::ClassBuilder;
use emit_layout::{CHOOSE, HELPERS, MISSING, PAGES, helper_descriptor, helper_name};
use emit_limits::slot_laws::{
    choosers_take_few_slots, helpers_take_few_slots, loading_takes_few_slots,
};
use emit_loading::{append_pages, append_run};
use emit_methods_laws::named_code::{choosers_name_well, helpers_name_well, loading_names_well};
use emit_methods_laws::whole::{choosers_are_whole, helpers_are_whole, loading_is_whole};
use mem_helpers::append_helper;
use nv_values::MeterTurns;
use nv_words::Order;
use std::alloc::Global;
use trampoline::{append_main_chooser, append_missing};

/// How many local variables a helper method has.
const HELPER_LOCALS: u16 = 4;

/// Adds the helper methods, for programs of an order of bytes.
pub fn add_helpers(
    alloc: Global,
    class: &mut ClassBuilder,
    order: Order,
    references: &References,
) -> Result<(), NoMemory>
    requires references { HasHelpers references.now }
    requires none { class.old.methods ≡ [] }
    requires room { length class.old.pool + 120 ≤ 65534 }
    ensures methods { OnOk result
        (AddsMethods class.old class.new (helper_plans order references.now 20)) }
    ensures few { OnOk result (length class.new.pool ≤ length class.old.pool + 120) }
{
    for number in 0..HELPERS {
        add_helper(alloc, class, order, number, references)?;
    }
    Ok(())
}

fn add_helper(
    alloc: Global,
    class: &mut ClassBuilder,
    order: Order,
    number: u32,
    references: &References,
) -> Result<(), NoMemory>
    requires within { number < 20 }
    requires references { HasHelpers references.now }
    requires few { length class.old.methods < 65535 }
    requires room { length class.old.pool + 6 ≤ 65534 }
    ensures method { OnOk result (AddsMethods class.old class.new
        (helper_plan order references.now number ∷ [])) }
    ensures few { OnOk result (length class.new.pool ≤ length class.old.pool + 6) }
{
    let mut code = Vec::new(alloc);
    append_helper(alloc, number, order, &mut code)?;
    helpers_name_well();
    helpers_are_whole();
    helpers_take_few_slots();
    put_method(
        alloc,
        class,
        helper_name(number),
        helper_descriptor(number),
        HELPER_LOCALS,
        code.as_slice(),
        references,
    )?;
    Ok(())
}

/// Adds the other methods. `texts` are the slots of the texts of pages.
pub fn add_others(
    alloc: Global,
    class: &mut ClassBuilder,
    main: &MainClass,
    texts: &[u16],
    references: &References,
) -> Result<(), NoMemory>
    requires main { IsMain main.now }
    requires references { HasHelpers references.now }
    requires fields { main_fields main.now ≤ length references.now.fields }
    requires count { length references.now.methods
        ≡ behind main_methods (main.now.code.now ++ main.now.data.now) }
    requires texts { All (λ slot. has_text class.old.pool slot ≡ true) texts.now }
    requires few_texts { length texts.now ≤ 2048 }
    requires few { length class.old.methods ≤ 65000 }
    requires room { length class.old.pool + (40 + length texts.now + length main.now.starts.now)
        ≤ 65534 }
    ensures { OnOk result (AddsMethods class.old class.new
        (other_plans main.now texts.now references.now)) }
{
    add_run(alloc, class, main, texts, references)?;
    add_choose(alloc, class, main, references)?;
    add_pages(alloc, class, references)?;
    add_missing(alloc, class, main.meter.is_some(), references)?;
    Ok(())
}

fn add_run(
    alloc: Global,
    class: &mut ClassBuilder,
    main: &MainClass,
    texts: &[u16],
    references: &References,
) -> Result<(), NoMemory>
    requires main { IsMain main.now }
    requires references { HasHelpers references.now }
    requires fields { main_fields main.now ≤ length references.now.fields }
    requires count { length references.now.methods
        ≡ behind main_methods (main.now.code.now ++ main.now.data.now) }
    requires texts { All (λ slot. has_text class.old.pool slot ≡ true) texts.now }
    requires few_texts { length texts.now ≤ 2048 }
    requires few { length class.old.methods < 65535 }
    requires room { length class.old.pool + (18 + length texts.now) ≤ 65534 }
    ensures few { OnOk result (length class.new.pool
        ≤ length class.old.pool + (18 + length texts.now)) }
    ensures method { OnOk result (AddsMethods class.old class.new
        (run_plan main.now texts.now references.now ∷ [])) }
{
    let mut code = Vec::new(alloc);
    append_run(
        &main.beginning,
        turns_of(main.meter),
        texts,
        0,
        PAGES,
        main.data,
        CHOOSE,
        &mut code,
    )?;
    loading_is_whole();
    loading_takes_few_slots();
    put_method(alloc, class, "run", "()V", 0, code.as_slice(), references)?;
    Ok(())
}

// How many turns are put on the meter.
fn turns_of(meter: Option<MeterTurns>) -> Option<u32>
    ensures { result ≡ meter }
{
    match meter {
        Some(turns) => Some(turns.get()),
        None => None,
    }
}

fn add_choose(
    alloc: Global,
    class: &mut ClassBuilder,
    main: &MainClass,
    references: &References,
) -> Result<(), NoMemory>
    requires main { IsMain main.now }
    requires references { HasHelpers references.now }
    requires count { length references.now.methods
        ≡ behind main_methods (main.now.code.now ++ main.now.data.now) }
    requires few { length class.old.methods < 65535 }
    requires room { length class.old.pool + (6 + length main.now.starts.now) ≤ 65534 }
    ensures few { OnOk result (length class.new.pool
        ≤ length class.old.pool + (6 + length main.now.starts.now)) }
    ensures method { OnOk result (AddsMethods class.old class.new
        (choose_plan main.now references.now ∷ [])) }
{
    let mut code = Vec::new(alloc);
    append_main_chooser(main.starts, MISSING, &mut code)?;
    choosers_name_well();
    choosers_are_whole();
    choosers_take_few_slots();
    put_method(
        alloc,
        class,
        "choose",
        "()V",
        1,
        code.as_slice(),
        references,
    )?;
    Ok(())
}

fn add_pages(
    alloc: Global,
    class: &mut ClassBuilder,
    references: &References,
) -> Result<(), NoMemory>
    requires fields { 38 ≤ length references.now.fields }
    requires few { length class.old.methods < 65535 }
    requires room { length class.old.pool + 10 ≤ 65534 }
    ensures few { OnOk result (length class.new.pool ≤ length class.old.pool + 10) }
    ensures method { OnOk result
        (AddsMethods class.old class.new (pages_plan references.now ∷ [])) }
{
    let mut code = Vec::new(alloc);
    append_pages(&mut code)?;
    loading_names_well();
    loading_is_whole();
    loading_takes_few_slots();
    put_method(
        alloc,
        class,
        "pages",
        "(Ljava/lang/String;)V",
        5,
        code.as_slice(),
        references,
    )?;
    Ok(())
}

fn add_missing(
    alloc: Global,
    class: &mut ClassBuilder,
    metered: bool,
    references: &References,
) -> Result<(), NoMemory>
    requires fields { fields_of metered ≤ length references.now.fields }
    requires few { length class.old.methods < 65535 }
    requires room { length class.old.pool + 6 ≤ 65534 }
    ensures { OnOk result
        (AddsMethods class.old class.new (missing_plan metered references.now ∷ [])) }
{
    let mut code = Vec::new(alloc);
    append_missing(metered, &mut code)?;
    choosers_name_well();
    choosers_are_whole();
    choosers_take_few_slots();
    put_method(
        alloc,
        class,
        "missing",
        "()V",
        1,
        code.as_slice(),
        references,
    )?;
    Ok(())
}
