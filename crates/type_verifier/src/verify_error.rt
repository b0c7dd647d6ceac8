use class_definition::VerifyFault;

/// Why classes were not verified.
#[derive(Drop)]
pub enum VerifyError {
    Refused(VerifyFault),
    NoMemory,
}
