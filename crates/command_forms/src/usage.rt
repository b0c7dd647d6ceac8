/// What is wrong with the words.
#[derive(Clone, Copy, Debug, PartialEq, Eq)]
pub enum Usage {
    /// The first word is missing or no command.
    NoCommand,
    /// The other words break the rules of the command.
    NotLawful,
}
