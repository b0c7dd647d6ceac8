ghost use Rattle.std.specs.Prelude.{◌≡◌};
ghost use Rattle.nv_values.specs.PipeBytes.{ArePipeBytes, least_pipe_bytes, most_pipe_bytes};
ghost use Rattle.nv_values.specs.Ranges.{in_range};

use std::marker::Model;

/// How many bytes make a pipe full, 1 to 65,536. A contract sees it as the number.
#[derive(Clone, Copy, Debug, PartialEq, Eq)]
pub struct PipeBytes {
    count: u32,
}

impl Model for PipeBytes {
    ghost use Rattle.std.specs.Prelude.{ℕ};
    ghost use Rattle.nv_values.specs.PipeBytes.{ArePipeBytes};

    ghost Value = { ℕ };

    ghost view = { λ b. b.count };

    ghost inverse = { λ count. record { count = count } };

    ghost invariant = { λ b. ArePipeBytes b.count };
}

impl PipeBytes {
    /// The least number.
    pub const LEAST: u32 = 1;

    /// The greatest number.
    pub const MOST: u32 = 65_536;

    /// The number as one of bytes, None outside the range.
    pub fn new(count: u32) -> Option<PipeBytes>
        ensures { result ≡ in_range least_pipe_bytes most_pipe_bytes count }
    {
        if Self::LEAST <= count && count <= Self::MOST {
            Some(PipeBytes { count })
        } else {
            None
        }
    }

    /// The number.
    pub fn get(self) -> u32
        ensures value { result ≡ self }
        ensures range { ArePipeBytes self }
    {
        self.count
    }
}
