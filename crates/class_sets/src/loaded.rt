use class_format::ClassFault;
use jvm_code::Class;
use jvm_definition::Sequence;

/// What loading a set of classes came to.
#[derive(Drop)]
pub enum Loaded {
    /// There is no file of the first class.
    NoFile,
    /// The bytes of a file spell no class.
    Faulty {
        /// The number of the class in the set, from 0.
        class: u32,
        /// The first rule that its bytes break.
        fault: ClassFault,
    },
    /// The set: one to 1,025 classes in order.
    Classes(Sequence<Class>),
}
