ghost use Rattle.std.specs.Prelude.{◌≡◌};
ghost use Rattle.jvm_activations.specs.Trap.{trap_kind};

/// Why an instruction ends the program (JVM Specification, 2.10, where the class machine has traps in place of exceptions).
#[derive(Clone, Copy, Debug, PartialEq, Eq)]
pub enum Trap {
    /// Null, where an array or a string is needed.
    Null,
    /// An index out of range.
    Index,
    /// A negative size.
    Size,
    /// A divisor of 0.
    Divisor,
    /// One frame too many.
    Frames,
    /// An array for which there is no room.
    Room,
}

impl Trap {
    /// The kind of the trap, by which a program's end names it.
    pub fn kind(self) -> u32
        ensures { result ≡ trap_kind self }
    {
        match self {
            Trap::Null => 1,
            Trap::Index => 2,
            Trap::Size => 3,
            Trap::Divisor => 4,
            Trap::Frames => 5,
            Trap::Room => 6,
        }
    }
}
