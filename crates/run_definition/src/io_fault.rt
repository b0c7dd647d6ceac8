/// A call that the outside failed: the program's input, or its output or error output.
#[derive(Clone, Copy, Debug, PartialEq, Eq)]
pub enum IoFault {
    ReadFault,
    WriteFault,
}
