/// Where a method's instructions begin, and what its frames need.
#[derive(Clone, Copy)]
pub struct MachineMethod {
    /// The index of its first instruction.
    pub start: u32,
    /// The number of its parameters.
    pub parameters: usize,
    /// The number of its frames' local variables: those that it names.
    pub locals: u16,
}
