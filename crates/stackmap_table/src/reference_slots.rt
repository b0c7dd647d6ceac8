/// The slots of a pool in which the tables of a class name the types of references.
#[derive(Clone, Copy, Debug, PartialEq, Eq)]
pub struct ReferenceSlots {
    /// That of the class `[I`.
    pub ints: u16,
    /// That of the class `[[I`.
    pub pages: u16,
    /// That of the class `java/lang/String`.
    pub text: u16,
}
