/// Where a program goes after the turn of an instruction, or that one and the turn of the word 0 after it.
#[derive(Clone, Copy)]
pub(crate) enum Onward {
    /// To the next word, or from a delay slot to its branch's target.
    Along,
    /// Past the next word, which is 0.
    Over,
    /// Into the delay slot of a branch to this target.
    IntoSlot(u32),
    /// Through the delay slot of a branch to this target, whose word is 0.
    Through(u32),
}
