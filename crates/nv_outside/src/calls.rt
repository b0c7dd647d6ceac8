ghost use Rattle.std.specs.Prelude.{◌≡◌, ◌≤◌};

use std::marker::Model;

/// The calls of an object in memory: how many were made, the numbers, from 1, of those that fail, and the count of faults.
#[derive(Drop)]
pub struct Calls {
    made: u64,
    fails: Vec<u64>,
    faults: u64,
}

impl Model for Calls {
    ghost use Rattle.nv_outside.specs.Script.{Script};

    ghost Value = { Script };

    ghost view = { λ c. record { made = c.made; fails = c.fails.items; faults = c.faults } };
}

impl Calls {
    ghost use Rattle.nv_outside.specs.Script.{new_script, next_fails, after_call, after_fault};

    pub fn new(fails: Vec<u64>) -> Calls
        ensures { result ≡ new_script fails.items }
    {
        Calls {
            made: 0,
            fails,
            faults: 0,
        }
    }

    /// Counts one more call, and says whether it fails.
    pub fn next_fails(&mut self) -> bool
        ensures answer { result ≡ next_fails self.old }
        ensures after { self.new ≡ after_call self.old }
        ensures never_falls { self.old.faults ≤ self.new.faults }
    {
        self.made = self.made.saturating_add(1);
        let number = self.made;
        let fails = self.fails.contains(&number);
        if fails {
            self.faults = self.faults.saturating_add(1);
        }
        fails
    }

    /// Counts one more fault.
    pub fn fault(&mut self)
        ensures after { self.new ≡ after_fault self.old }
        ensures never_falls { self.old.faults ≤ self.new.faults }
    {
        self.faults = self.faults.saturating_add(1);
    }
}
