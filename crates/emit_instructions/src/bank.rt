ghost use Rattle.std.specs.Prelude.{◌≡◌};
ghost use Rattle.emit_instructions.specs.Access.{keeps};

use std::marker::Model;

/// Which of the guest's registers code keeps in local variables: register r in local variable r. Every other register is in its
/// field of the main class. Local variable 0 is free, since register 0 is nowhere.
///
/// A contract sees it as the set of these registers, by its bits.
#[derive(Drop)]
pub struct Bank {
    kept: u64,
}

impl Model for Bank {
    ghost use Rattle.std.specs.Prelude.{ℕ};

    ghost Value = { ℕ };

    ghost view = { λ bank. bank.kept };
}

impl Bank {
    /// Every register is in its field.
    pub fn cold() -> Bank
        ensures { result ≡ 0 }
    {
        Bank { kept: 0 }
    }

    /// The registers of a set are kept: bit r is register r. Other bits mean nothing.
    pub fn keeping(kept: u64) -> Bank
        ensures { result ≡ kept }
    {
        Bank { kept }
    }

    /// Whether a register is kept in a local variable.
    pub fn keeps(&self, r: u8) -> bool
        ensures { result ≡ keeps self.now r }
    {
        r < 32 && self.kept >> r & 1 == 1
    }
}
