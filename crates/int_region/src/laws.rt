//! What holds of the arrays of all regions. Each call here does nothing: its contract is the law.

ghost use Rattle.std.specs.Prelude.{◌≡◌, ◌≢◌, ◌==◌, ◌≤◌, ◌<◌, ◌+◌, ◌^◌, ◌∷◌, ◌++◌, ℕ, List, [], Some, None, if◌then◌else◌, length, take, slice_get, slice_set, nat_lt, option_map};
ghost use Rattle.int_region.specs.Arrays.{Block, Contents, used_by, array_at, IsLive, kind_at, values_at, with_element, with_value, IsMark, IsSound};

/// An array's place is the number of words that the arrays before it use, and nothing else is a live place. The words of live
/// arrays are in use, no two arrays have one in common, and so two live places are two arrays.
pub fn places()
    ensures position { (arrays : List Block) (k : ℕ) → k < length arrays
        → array_at arrays (used_by (take k arrays)) ≡ slice_get arrays k }
    ensures live { (arrays : List Block) (p : ℕ) → IsLive arrays p
        → ((k : ℕ) × (k < length arrays) × (used_by (take k arrays) ≡ p)) }
    ensures there { (arrays : List Block) (p : ℕ) → IsLive arrays p
        → array_at arrays p
        ≡ Some (record { kind = kind_at arrays p; values = values_at arrays p }) }
    ensures within { (arrays : List Block) (p : ℕ) → IsLive arrays p
        → p + (length (values_at arrays p) + 2) ≤ used_by arrays }
    ensures apart { (arrays : List Block) (p q : ℕ) → IsLive arrays p → IsLive arrays q → p < q
        → p + (length (values_at arrays p) + 2) ≤ q }
    ensures fits { (c : Contents) (p : ℕ) → IsSound c → IsLive c.arrays p → p < 2 ^ 32 }
{}

/// A new array is where no array was, after all others, and no other place changes.
pub fn new_array()
    ensures was_free { (arrays : List Block) → array_at arrays (used_by arrays) ≡ None }
    ensures places { (arrays : List Block) (b : Block) (q : ℕ)
        → array_at (arrays ++ b ∷ []) q ≡ (if q == used_by arrays then Some b
        else array_at arrays q) }
    ensures others { (arrays : List Block) (b : Block) (p : ℕ) → IsLive arrays p
        → array_at (arrays ++ b ∷ []) p ≡ array_at arrays p }
    ensures used { (arrays : List Block) (b : Block)
        → used_by (arrays ++ b ∷ []) ≡ used_by arrays + (length b.values + 2) }
{}

/// Another value changes the array at its place. No other place changes, and no more words are used.
pub fn new_value()
    ensures places { (arrays : List Block) (p i v q : ℕ)
        → array_at (with_value arrays p i v) q
        ≡ (if q == p then option_map (with_element i v) (array_at arrays p)
        else array_at arrays q) }
    ensures here { (arrays : List Block) (p i v : ℕ) → IsLive arrays p
        → array_at (with_value arrays p i v) p
        ≡ Some (record { kind = kind_at arrays p; values = slice_set (values_at arrays p) i v }) }
    ensures others { (arrays : List Block) (p i v q : ℕ) → q ≢ p
        → array_at (with_value arrays p i v) q ≡ array_at arrays q }
    ensures used { (arrays : List Block) (p i v : ℕ)
        → used_by (with_value arrays p i v) ≡ used_by arrays }
{}

/// The first arrays keep their places, which lie below the words that they use, and no others are anywhere. No other number of
/// first arrays uses as many words, unless it takes them all.
pub fn first_arrays()
    ensures places { (arrays : List Block) (k q : ℕ)
        → array_at (take k arrays) q ≡ (if nat_lt q (used_by (take k arrays)) then array_at arrays q
        else None) }
    ensures one { (arrays : List Block) (j k : ℕ)
        → used_by (take j arrays) ≡ used_by (take k arrays) → take j arrays ≡ take k arrays }
{}

/// What is used is a mark. A mark stays one with a new array, with another value, and with a release that does not go below it.
pub fn marks()
    ensures now { (arrays : List Block) → IsMark arrays (used_by arrays) }
    ensures start { (arrays : List Block) → IsMark arrays 0 }
    ensures new_array { (arrays : List Block) (b : Block) (m : ℕ) → IsMark arrays m
        → IsMark (arrays ++ b ∷ []) m }
    ensures new_value { (arrays : List Block) (p i v m : ℕ) → IsMark arrays m
        → IsMark (with_value arrays p i v) m }
    ensures first_arrays { (arrays : List Block) (k m : ℕ) → m ≤ used_by (take k arrays)
        → IsMark arrays m → IsMark (take k arrays) m }
{}
