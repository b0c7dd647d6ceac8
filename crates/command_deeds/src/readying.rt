ghost use Rattle.std.specs.Prelude.{◌≡◌, ◌≤◌, ◌∷◌, [], IfOk, length, map, string_bytes};
ghost use Rattle.command_words.specs.Limits.{AreFileNames};
ghost use Rattle.unix_calls.specs.Starting.{IsOpenToFiles};
ghost use Rattle.command_deeds.specs.Ends.{Gives};
ghost use Rattle.command_deeds.specs.World.{shelf_seen};
ghost use Rattle.command_deeds.specs.Readying.{AddsArgs, AddsFiles, HasNoFiles, IsReadied};
ghost use Rattle.command_deeds.specs.Runs.{plan_of};

use crate::ending::Ending;
use crate::files::load;
use crate::launch::Launch;
use nv_outside::Shelf;
use std::alloc::Global;
use unix_calls::Unix;

/// Makes the system of a guest that is to be run: with its arguments, of which the first is the name of its launch, and
/// the files that it finds.
pub fn ready<H: Shelf>(alloc: Global, launch: &Launch<'_>, shelf: &mut H) -> Result<Unix, Ending>
    requires disk { launch.now.session.now.disk ≤ 65536 }
    requires names { AreFileNames launch.now.session.now.with.names }
    ensures gives { Gives (IsReadied (plan_of launch.now)) (shelf_seen H.Shelf shelf.old)
        (shelf_seen H.Shelf shelf.new) result }
    ensures few { IfOk result (λ unix. length unix.ahead ≤ 4096) }
{
    let session = launch.session;
    let mut unix = Unix::new(alloc, session.disk, launch.moment)?;
    add_arguments(
        &mut unix,
        launch.name.as_str(),
        session.arguments.as_slice(),
    )?;
    let names = session.with.names.as_slice();
    add_files(alloc, session.with.word, names, shelf, &mut unix)?;
    Ok(unix)
}

/// Adds the arguments of a guest: its name and these texts.
fn add_arguments(unix: &mut Unix, name: &str, texts: &[String]) -> Result<(), Ending>
    ensures adds { AddsArgs (name.now ∷ map string_bytes texts.now) unix.old unix.new result }
{
    add_argument(unix, name)?;
    for text in texts {
        add_argument(unix, text.as_str())?;
    }
    Ok(())
}

/// Adds an argument.
fn add_argument(unix: &mut Unix, text: &str) -> Result<(), Ending>
    ensures adds { AddsArgs (text.now ∷ []) unix.old unix.new result }
{
    unix.add_arg(text)?;
    Ok(())
}

/// Loads the files that a guest finds, one after the other, and adds them. `word` is the word that names them.
fn add_files<H: Shelf>(
    alloc: Global,
    word: u32,
    names: &[String],
    shelf: &mut H,
    unix: &mut Unix,
) -> Result<(), Ending>
    requires new { HasNoFiles unix.old }
    requires names { AreFileNames (map string_bytes names.now) }
    ensures adds { AddsFiles (shelf_seen H.Shelf shelf.old) (shelf_seen H.Shelf shelf.new)
        word (map string_bytes names.now) unix.old unix.new result }
{
    for name in names {
        add_file(alloc, word, name.as_str(), shelf, unix)?;
    }
    Ok(())
}

/// Loads a file and adds it.
fn add_file<H: Shelf>(
    alloc: Global,
    word: u32,
    name: &str,
    shelf: &mut H,
    unix: &mut Unix,
) -> Result<(), Ending>
    requires open { IsOpenToFiles unix.old }
    requires short { length name.now ≤ 255 }
    ensures adds { AddsFiles (shelf_seen H.Shelf shelf.old) (shelf_seen H.Shelf shelf.new) word
        (name.now ∷ []) unix.old unix.new result }
{
    let file = load(alloc, word, name, shelf)?;
    unix.add_file(name.as_bytes(), file.as_slice())?;
    Ok(())
}
