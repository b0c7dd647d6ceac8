/// A method that has no typing (JVM Specification, 4.10).
#[derive(Clone, Copy, Debug, PartialEq, Eq)]
pub struct VerifyFault {
    /// The number of its class, from 0.
    pub class: u32,
    /// Its number among the methods of its class, from 0.
    pub method: u32,
    /// The least offset such that no frames keep the rules of the method's start and of its instructions up to there.
    pub at: u32,
}
