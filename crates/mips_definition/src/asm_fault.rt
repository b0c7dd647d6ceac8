/// The first faulty line of an assembly text.
#[derive(Clone, Copy, Debug, PartialEq, Eq)]
pub struct AsmFault {
    /// The line, from 1.
    pub line: u32,
    /// The lowest kind of its faults: 1 an unknown mnemonic or directive, or a line of no form; 2 a wrong number or form of
    /// operands; 3 a number out of range, a target that is no multiple of 4 or out of reach, an instruction in the data, or
    /// too long a segment; 4 a label that an earlier line has; 5 a name without a label.
    pub kind: u32,
}
