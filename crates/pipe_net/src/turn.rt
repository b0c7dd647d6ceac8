/// What a turn of a stage came to.
#[derive(Clone, Copy, Debug, PartialEq, Eq)]
pub enum Turn {
    /// It executed so many instructions, at least one. Then it had made all that it may, or has ended, or is before a call that is
    /// not ready.
    Ran(u64),
    /// It had ended or reached its bound before.
    Over,
    /// It is before a call that is not ready.
    Blocked,
}
