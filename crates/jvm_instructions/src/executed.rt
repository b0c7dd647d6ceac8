use jvm_definition::ReturnName;

/// What an instruction came to that did not trap.
#[derive(Clone, Copy)]
pub enum Executed {
    /// The program goes on with the next instruction.
    On,
    /// The program goes on with the instruction at this index.
    Jump(u32),
    /// A method is to be called; nothing is done yet.
    Call(u32),
    /// The frame is to return; nothing is done yet.
    Return(ReturnName),
    /// The system is to be called; nothing is done yet.
    CallHost,
    /// The program is to end in a fault; nothing is done yet.
    FaultHost,
}
