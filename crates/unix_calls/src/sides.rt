//! The sides of the console, by number.

ghost use Rattle.std.specs.Prelude.{◌≡◌};
ghost use Rattle.unix_calls.specs.Sides.{side_of};

use unix_system::Target;

/// No side of the console.
pub const NONE: u32 = 0;
/// The program's input.
pub const INPUT: u32 = 1;
/// The program's output.
pub const OUTPUT: u32 = 2;
/// The program's error output.
pub const ERROR_OUTPUT: u32 = 3;

/// The side of the console that is read or written.
pub(crate) fn side_of(target: Target) -> u32
    ensures { result ≡ side_of target }
{
    match target {
        Target::File(_) => NONE,
        Target::Input => INPUT,
        Target::Output => OUTPUT,
        Target::ErrorOutput => ERROR_OUTPUT,
    }
}
