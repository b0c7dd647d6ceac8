/// Loads of a local variable and stores to one.
#[derive(Clone, Copy)]
pub enum LocalName {
    Iload,
    Aload,
    Istore,
    Astore,
}
