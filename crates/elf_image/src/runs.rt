ghost use Rattle.std.specs.Prelude.{◌≡◌, ℕ, Bool};
ghost use Rattle.elf_definition.specs.Fault.{IsRunsOf};

use elf_reader::Range;

/// An area has one list of maximal runs in rising order. So what `image` answers rests on the file, the heap and the stack alone.
pub fn runs_are_one(_code: &[Range], _other: &[Range])
    ensures { (area : ℕ → Bool) → IsRunsOf area _code.now → IsRunsOf area _other.now
        → _code.now ≡ _other.now }
{}
