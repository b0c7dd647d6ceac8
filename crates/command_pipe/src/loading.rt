//! The stages of a pipeline before their first instruction.
ghost use Rattle.std.specs.Prelude.{◌≡◌, ◌≤◌, ◌++◌, ◌∷◌, [], IfOk, OnOk, length};
ghost use Rattle.unix_calls.specs.Starting.{Begins};
ghost use Rattle.command_deeds.specs.Ends.{Gives};
ghost use Rattle.command_deeds.specs.World.{shelf_seen};
ghost use Rattle.command_guest.specs.Classes.{IsAcceptedSet};
ghost use Rattle.command_pipe.specs.Sets.{AreAccepted, AreStagesOf, IsStageOf, set_in, sets_in};

use crate::launch::PipeLaunch;
use command_deeds::Ending;
use command_guest::accept;
use command_words::NamedClass;
use jvm_machine::Jvm;
use nv_outside::Shelf;
use std::alloc::{AllocError, Global};
use unix_calls::{Unix, UnixError};

/// Loads the sets of these classes, links them and verifies them, one after the other.
pub(crate) fn load_stages<H: Shelf>(
    alloc: Global,
    classes: &[NamedClass],
    launch: &PipeLaunch,
    shelf: &mut H,
) -> Result<Vec<(Jvm, Unix)>, Ending>
    requires disk { launch.now.disk ≤ 65536 }
    ensures gives { Gives (λ files check. AreAccepted (shelf_seen H.Shelf shelf.old).told
        classes.now (sets_in check)) (shelf_seen H.Shelf shelf.old)
        (shelf_seen H.Shelf shelf.new) result }
    ensures stages { IfOk result (λ stages. AreStagesOf launch.now classes.now stages.items) }
{
    let mut stages = Vec::new(alloc);
    let mut rest = classes;
    while let Some((class, others)) = rest.split_first() {
        let stage = load_stage(alloc, class, launch, shelf)?;
        push(&mut stages, stage)?;
        rest = others;
    }
    Ok(stages)
}

fn push(stages: &mut Vec<(Jvm, Unix)>, stage: (Jvm, Unix)) -> Result<(), AllocError>
    ensures { OnOk result (stages.new.items ≡ stages.old.items ++ stage ∷ []) }
{
    stages.push(stage)?;
    Ok(())
}

/// Loads the set of a class, links it and verifies it.
fn load_stage<H: Shelf>(
    alloc: Global,
    class: &NamedClass,
    launch: &PipeLaunch,
    shelf: &mut H,
) -> Result<(Jvm, Unix), Ending>
    requires disk { launch.now.disk ≤ 65536 }
    ensures gives { Gives (λ files check. IsAcceptedSet class.now files (set_in check))
        (shelf_seen H.Shelf shelf.old) (shelf_seen H.Shelf shelf.new) result }
    ensures stage { IfOk result (λ stage. IsStageOf launch.now class.now stage) }
{
    let verified = accept(alloc, class, shelf)?;
    let jvm = Jvm::load(alloc, verified, launch.words)?;
    let unix = system_for(alloc, class.name.as_str(), launch)?;
    Ok((jvm, unix))
}

/// A system without files, with one argument.
fn system_for(alloc: Global, name: &str, launch: &PipeLaunch) -> Result<Unix, AllocError>
    requires disk { launch.now.disk ≤ 65536 }
    requires short { length name.now ≤ 64 }
    ensures begins { IfOk result (λ unix. Begins unix launch.now.disk launch.now.moment []
        (name.now ∷ [])) }
{
    let mut unix = Unix::new(alloc, launch.disk, launch.moment)?;
    match unix.add_arg(name) {
        Ok(()) => Ok(unix),
        Err(UnixError::NoMemory) => Err(AllocError),
        Err(UnixError::ArgsTooLong(_) | UnixError::FilesTooLarge(_)) => unreachable!(),
    }
}
