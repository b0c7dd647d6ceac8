ghost use Rattle.std.specs.Prelude.{◌≡◌, ◌+◌, ◌*◌, ◌^◌, ◌<◌, ◌≤◌, length};

use delay_slots::RangeUnits;

/// Words of a range of code that go into one class. The range ends below address 80000000 (hexadecimal).
#[derive(Clone, Copy)]
pub struct Part<'a> {
    /// The units of the whole range, one for each word.
    pub units: &'a RangeUnits,
    /// Which words of the range are leaders, as `block_builder::leader_flags` gives them.
    pub leads: &'a [bool],
    /// Whether the program has a meter.
    pub metered: bool,
    /// The address of the range's first word.
    pub start: u32,
    /// The first word of the class, counted from 0 in the range.
    pub first: u32,
    /// How many words the class has.
    pub words: u32,
    pub ghost same_len: { length leads.now ≡ length units.now },
    pub ghost low: { start + 4 * length units.now < 2 ^ 31 },
    pub ghost within: { first + words ≤ length units.now },
}
