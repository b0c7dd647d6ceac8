ghost use Rattle.std.specs.Prelude.{◌≡◌};
ghost use Rattle.nv_values.specs.MeterTurns.{AreMeterTurns, least_meter_turns, most_meter_turns};
ghost use Rattle.nv_values.specs.Ranges.{in_range};

use std::marker::Model;

/// How many instructions of a guest its classes may make by their meter, 0 to 2,147,483,647. A contract sees it as the number.
#[derive(Clone, Copy, Debug, PartialEq, Eq)]
pub struct MeterTurns {
    count: u32,
}

impl Model for MeterTurns {
    ghost use Rattle.std.specs.Prelude.{ℕ};
    ghost use Rattle.nv_values.specs.MeterTurns.{AreMeterTurns};

    ghost Value = { ℕ };

    ghost view = { λ t. t.count };

    ghost inverse = { λ count. record { count = count } };

    ghost invariant = { λ t. AreMeterTurns t.count };
}

impl MeterTurns {
    /// The least number.
    pub const LEAST: u32 = 0;

    /// The greatest number, which is that of an int (JVM Specification, 2.3.1).
    pub const MOST: u32 = 2_147_483_647;

    /// The number as one of turns, None outside the range.
    pub fn new(count: u32) -> Option<MeterTurns>
        ensures { result ≡ in_range least_meter_turns most_meter_turns count }
    {
        if Self::LEAST <= count && count <= Self::MOST {
            Some(MeterTurns { count })
        } else {
            None
        }
    }

    /// The number.
    pub fn get(self) -> u32
        ensures value { result ≡ self }
        ensures range { AreMeterTurns self }
    {
        self.count
    }
}
