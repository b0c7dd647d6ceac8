use jvm_definition::{Kind, LocalKind, StackName};

/// What an instruction takes from a frame and gives.
#[derive(Drop)]
pub enum Action {
    /// Takes operands below these types, top first, and gives one or none.
    Exchanges(&'static [Kind], Option<Kind>),
    /// Takes an operand below a type.
    Takes(Kind),
    /// Takes what the method with a number takes, the last argument uppermost, and gives what it gives.
    Calls(u32),
    TakesReference,
    /// Takes a reference to an array and gives an int.
    TakesArray,
    Loads(LocalKind, u8),
    Stores(LocalKind, u8),
    Increments(u8),
    Shuffles(StackName),
    /// The instruction has no type.
    Never,
}
