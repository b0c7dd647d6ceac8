ghost use Rattle.std.specs.Prelude.{◌≡◌};
ghost use Rattle.nv_values.specs.RegionWords.{AreRegionWords, least_region_words, most_region_words};
ghost use Rattle.nv_values.specs.Ranges.{in_range};

use std::marker::Model;

/// How many words of 32 bits a class machine has for arrays, 1 to 68,288,580. A contract sees it as the number.
#[derive(Clone, Copy, Debug, PartialEq, Eq)]
pub struct RegionWords {
    count: u32,
}

impl Model for RegionWords {
    ghost use Rattle.std.specs.Prelude.{ℕ};
    ghost use Rattle.nv_values.specs.RegionWords.{AreRegionWords};

    ghost Value = { ℕ };

    ghost view = { λ w. w.count };

    ghost inverse = { λ count. record { count = count } };

    ghost invariant = { λ w. AreRegionWords w.count };
}

impl RegionWords {
    /// The least number.
    pub const LEAST: u32 = 1;

    /// The greatest number: the classes of a program with 65,536 mapped pages take so many.
    pub const MOST: u32 = 68_288_580;

    /// The number as one of words, None outside the range.
    pub fn new(count: u32) -> Option<RegionWords>
        ensures { result ≡ in_range least_region_words most_region_words count }
    {
        if Self::LEAST <= count && count <= Self::MOST {
            Some(RegionWords { count })
        } else {
            None
        }
    }

    /// The number.
    pub fn get(self) -> u32
        ensures value { result ≡ self }
        ensures range { AreRegionWords self }
    {
        self.count
    }
}
