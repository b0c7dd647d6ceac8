/// What a load or store of a local variable moves (JVM Specification, 2.11.2).
#[derive(Clone, Copy)]
pub enum LocalKind {
    Int,
    Reference,
}
