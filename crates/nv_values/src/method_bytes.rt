ghost use Rattle.std.specs.Prelude.{◌≡◌};
ghost use Rattle.nv_values.specs.MethodBytes.{AreMethodBytes, least_method_bytes, most_method_bytes};
ghost use Rattle.nv_values.specs.Ranges.{in_range};

use std::marker::Model;

/// How many bytes the code of a method may have, 4,096 to 65,535. A contract sees it as the number.
#[derive(Clone, Copy, Debug, PartialEq, Eq)]
pub struct MethodBytes {
    count: u32,
}

impl Model for MethodBytes {
    ghost use Rattle.std.specs.Prelude.{ℕ};
    ghost use Rattle.nv_values.specs.MethodBytes.{AreMethodBytes};

    ghost Value = { ℕ };

    ghost view = { λ b. b.count };

    ghost inverse = { λ count. record { count = count } };

    ghost invariant = { λ b. AreMethodBytes b.count };
}

impl MethodBytes {
    /// The least number.
    pub const LEAST: u32 = 4_096;

    /// The greatest number, which is that of any method (JVM Specification, 4.7.3).
    pub const MOST: u32 = 65_535;

    /// The number as one of bytes, None outside the range.
    pub fn new(count: u32) -> Option<MethodBytes>
        ensures { result ≡ in_range least_method_bytes most_method_bytes count }
    {
        if Self::LEAST <= count && count <= Self::MOST {
            Some(MethodBytes { count })
        } else {
            None
        }
    }

    /// Does nothing: it tells that the number is in the range.
    pub fn laws(self)
        ensures { AreMethodBytes self }
    {
        let _ = &self.count;
    }

    /// The number.
    pub fn get(self) -> u32
        ensures value { result ≡ self }
        ensures range { AreMethodBytes self }
    {
        self.count
    }
}
