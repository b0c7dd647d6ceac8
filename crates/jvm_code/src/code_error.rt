use class_definition::CodeFault;

/// Why code was not read.
#[derive(Debug, PartialEq, Eq, Drop)]
pub enum CodeError {
    /// It is at fault.
    Refused(CodeFault),
    /// Memory ran out.
    NoMemory,
}
