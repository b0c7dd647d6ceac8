use crate::partial::Partial;

/// What one more byte makes of a character.
#[derive(Clone, Copy)]
pub enum Step {
    /// Its last byte is still to come.
    More(Partial),
    /// It is whole.
    Character(u16),
    /// It is no character.
    Wrong,
}
