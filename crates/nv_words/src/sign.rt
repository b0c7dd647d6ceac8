//! Words as two's complement numbers.
ghost use Rattle.std.specs.Prelude.{◌≡◌};
ghost use Rattle.run_definition.specs.Words.{signed_of, unsigned_of};

/// The word as a two's complement number.
pub fn signed(w: u32) -> i32
    ensures value { result ≡ signed_of w }
    ensures back { unsigned_of result ≡ w }
{
    w.cast_signed()
}

/// The word whose two's complement number is v.
pub fn unsigned(v: i32) -> u32
    ensures value { result ≡ unsigned_of v }
    ensures back { signed_of result ≡ v }
{
    v.cast_unsigned()
}
