/// Instructions that move operands.
#[derive(Clone, Copy)]
pub enum StackName {
    Pop,
    Pop2,
    Dup,
    DupX1,
    DupX2,
    Dup2,
    Swap,
}
