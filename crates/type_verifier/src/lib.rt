//! The verifier of linked classes: each method has a typing, or the first that has none is named (JVM Specification, 4.10).
#![tactic(auto)]

mod method_typing;
mod typing;
mod verification;
mod verified;
mod verify_error;

pub use class_definition::VerifyFault;
pub use jvm_definition::Kind;
pub use jvm_link::NoMemory;
pub use jvm_type_inference::Frame;
pub use method_typing::MethodTyping;
pub use typing::typing_of;
pub use verification::verify;
pub use verified::Verified;
pub use verify_error::VerifyError;
