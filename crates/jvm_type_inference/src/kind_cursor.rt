ghost use Rattle.std.specs.Prelude.{◌≡◌, ◌∷◌, [], true, MatchOption};
ghost use Rattle.jvm_type_inference.specs.Kinds.{put_above};

use jvm_definition::Kind;

/// Operands that are read one after the other.
#[derive(Drop)]
pub struct KindCursor<'a> {
    /// The uppermost ones, lowest first.
    pub above: &'a [Kind],
    /// Those below, top first.
    pub below: &'a [Kind],
}

impl KindCursor<'_> {
    /// The next operand, where there is one.
    #[inline(always)]
    pub fn next(&mut self) -> Option<Kind>
        ensures { MatchOption result (put_above self.old.above.now self.old.below.now ≡ [])
            (λ k. put_above self.old.above.now self.old.below.now
            ≡ k ∷ put_above self.new.above.now self.new.below.now) }
    {
        if let Some((kind, others)) = self.above.split_last() {
            self.above = others;
            return Some(*kind);
        }
        let (kind, others) = self.below.split_first()?;
        self.below = others;
        Some(*kind)
    }

    /// Whether only those below are left.
    #[inline(always)]
    pub fn is_below(&self) -> bool
        ensures { result ≡ true → self.now.above.now ≡ [] }
    {
        self.above.is_empty()
    }
}
