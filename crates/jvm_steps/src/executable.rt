use crate::machine_code::MachineCode;
use jvm_code::Class;
use jvm_definition::Sequence;

/// Classes with the instructions of all their methods.
#[derive(Drop)]
pub struct Executable {
    pub classes: Sequence<Class>,
    pub code: MachineCode,
}
